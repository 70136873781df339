ghost use Rattle.std.specs.Prelude.{◌≡◌, ◌<◌, ◌≤◌};
ghost use Rattle.r2_header.specs.Header.{IsValid};
ghost use Rattle.r2_frag.specs.Parts.{most_parts};
ghost use Rattle.r2_frag.specs.Assembly.{both_counts, contradicts, count_said, least_count, number_of};

use r2_header::Header;

/// What is known of the count of a message's parts.
#[derive(Clone, Copy, Debug, PartialEq, Eq)]
pub enum PartCount {
    /// There are this many.
    Exactly(u16),
    /// There are this many or more.
    AtLeast(u16),
}

/// The number of a part: a first part is 0.
pub(crate) fn number_of(h: &Header) -> u16
    requires { IsValid h.now }
    ensures number { result ≡ number_of h.now }
    ensures most { result < most_parts }
{
    if h.first { 0 } else { h.number }
}

/// What a part says of the count.
pub(crate) fn count_said(h: &Header) -> PartCount
    requires { IsValid h.now }
    ensures { result ≡ count_said h.now }
{
    if h.first {
        return PartCount::Exactly(h.number);
    }
    if h.last {
        return PartCount::Exactly(h.number + 1);
    }
    PartCount::AtLeast(h.number + 2)
}

impl PartCount {
    /// The exact count, or else the least.
    pub(crate) fn least(self) -> u16
        ensures { result ≡ least_count self }
    {
        match self {
            PartCount::Exactly(n) | PartCount::AtLeast(n) => n,
        }
    }

    /// Whether no count is allowed by both.
    pub(crate) fn contradicts(self, said: PartCount) -> bool
        ensures { result ≡ contradicts self said }
    {
        match (self, said) {
            (PartCount::Exactly(a), PartCount::Exactly(b)) => a != b,
            (PartCount::Exactly(a), PartCount::AtLeast(b)) => a < b,
            (PartCount::AtLeast(a), PartCount::Exactly(b)) => b < a,
            (PartCount::AtLeast(_), PartCount::AtLeast(_)) => false,
        }
    }

    /// What both say together.
    pub(crate) fn and(self, said: PartCount) -> PartCount
        ensures { result ≡ both_counts self said }
    {
        match (self, said) {
            (PartCount::Exactly(_), _) => self,
            (PartCount::AtLeast(_), PartCount::Exactly(_)) => said,
            (PartCount::AtLeast(a), PartCount::AtLeast(b)) => PartCount::AtLeast(a.max(b)),
        }
    }
}
