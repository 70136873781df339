ghost use Rattle.std.specs.Prelude.{Some};
ghost use Rattle.hc_message.specs.Faults.{field_fault_text};

use std::error::Error;
use std::fmt;

/// Why bytes don't begin with a field.
#[derive(Clone, Copy, Debug, PartialEq, Eq)]
pub enum FieldFault {
    /// The bytes end within the field.
    Short,
    /// The whole field is there, and its value is out of its range.
    Range,
}

impl fmt::Display for FieldFault {
    ghost output = { λ f. Some (field_fault_text f) };

    fn fmt<W: fmt::Write>(&self, f: &mut fmt::Formatter<W>) -> fmt::Result {
        match self {
            FieldFault::Short => f.write_str("the bytes end within a field"),
            FieldFault::Range => f.write_str("a field is out of its range"),
        }
    }
}

impl Error for FieldFault {}
