/// A command that a body encodes, whose bytes stay in the body.
#[derive(Clone, Copy, Debug)]
pub(crate) enum Asked<'a> {
    Get {
        key: &'a [u8],
    },
    Put {
        key: &'a [u8],
        value: &'a [u8],
    },
    Del {
        key: &'a [u8],
    },
    Cas {
        key: &'a [u8],
        old: &'a [u8],
        new: &'a [u8],
    },
    Scan {
        key: &'a [u8],
        limit: u16,
    },
    Count,
}
