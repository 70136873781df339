ghost use Rattle.std.specs.Prelude.{◌≡◌};

/// The numbers from `least` to `most`; none where `most` is smaller.
#[derive(Clone, Copy, Debug, PartialEq, Eq)]
pub struct Span {
    pub least: u16,
    pub most: u16,
}

impl Span {
    ghost use Rattle.r2_header.specs.Span.{from_to, has_number, is_within};

    pub fn from_to(least: u16, most: u16) -> Self
        ensures { result ≡ from_to least most }
    {
        Span { least, most }
    }

    pub fn contains(self, number: u16) -> bool
        ensures { result ≡ is_within self number }
    {
        self.least <= number && number <= self.most
    }

    pub fn has_number(self) -> bool
        ensures { result ≡ has_number self }
    {
        self.least <= self.most
    }
}
