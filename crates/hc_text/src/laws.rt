//! What holds of lines, of words and of printed ends.

ghost use Rattle.hc_text.specs.Laws.{AnswersArePrinted, LinesAreServed, SomeAreTaken, SomeMeanNothing, WordsMeanOneThing};

/// The service reads the body of a command's line as that command.
pub fn lines_are_served()
    ensures { LinesAreServed }
{}

/// The line of a call that the service answered has the answer's index, status and value.
pub fn answers_are_printed()
    ensures { AnswersArePrinted }
{}

/// No words mean two things.
pub fn words_mean_one_thing()
    ensures { WordsMeanOneThing }
{}

/// Some words mean nothing.
pub fn some_words_mean_nothing()
    ensures { SomeMeanNothing }
{}

/// Some words are taken as options, with these texts.
pub fn some_words_are_taken()
    ensures { SomeAreTaken }
{}
