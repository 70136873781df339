//! What holds of any reader and any source whose bytes are known, so that its lines are handed out in order, each as it is, and
//! nothing else.

ghost use Rattle.cmd_lines.specs.Laws.{LastLineIsGiven, NextLineIsGiven};

/// Where a line of at most 8,192 bytes comes next, the answer is that line, or a fault that leaves it to come.
pub fn the_next_line_is_given()
    ensures { NextLineIsGiven }
{}

/// What comes after the last end is the last line, if it is not empty.
pub fn the_last_line_is_given()
    ensures { LastLineIsGiven }
{}
