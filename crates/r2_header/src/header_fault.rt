ghost use Rattle.std.specs.Prelude.{Some};
ghost use Rattle.r2_header.specs.Faults.{fault_text};

use std::error::Error;
use std::fmt;

/// Why bytes don't begin with a header.
#[derive(Clone, Copy, Debug, PartialEq, Eq)]
pub enum HeaderFault {
    /// The bytes end within the header.
    Short,
    /// The first byte isn't the protocol's.
    Magic,
    /// The size is neither 8 nor 16.
    Size,
    /// This type of packet doesn't go with the policy, the size or the request id.
    TypeOrPolicy,
    /// The flags aren't those of this type of packet.
    Flags,
    /// The count or the number of the part is out of range, or the flag of the last part contradicts it.
    Count,
    /// The bytes after the client's address aren't zero.
    Extension,
}

impl fmt::Display for HeaderFault {
    ghost output = { λ f. Some (fault_text f) };

    fn fmt<W: fmt::Write>(&self, f: &mut fmt::Formatter<W>) -> fmt::Result {
        match self {
            HeaderFault::Short => f.write_str("the header is cut short"),
            HeaderFault::Magic => f.write_str("the first byte isn't 0x52"),
            HeaderFault::Size => f.write_str("the header's size is neither 8 nor 16"),
            HeaderFault::TypeOrPolicy => f.write_str(
                "no such type, policy, size and request id of a packet",
            ),
            HeaderFault::Flags => f.write_str("the flags don't fit the type"),
            HeaderFault::Count => { f.write_str("the count or number of the part is out of range") }
            HeaderFault::Extension => f.write_str("the header's last two bytes aren't zero"),
        }
    }
}

impl Error for HeaderFault {}
