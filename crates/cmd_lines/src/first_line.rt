ghost use Rattle.std.specs.Prelude.{◌≢◌, ◌≤◌, ◌<◌, ◌+◌, ◌≡◌, ◌∷◌, ◌++◌, All, IfSome, take, drop, length, None};
ghost use Rattle.cmd_lines.specs.FirstLines.{IsFirstLine};

/// The end of a line.
const LINE_END: u8 = 10;

/// What bytes that wait begin with.
#[derive(Clone, Copy, Debug, PartialEq, Eq)]
pub(crate) enum FirstLine {
    /// A line of this length, and its end.
    Line(usize),
    /// A line with more bytes than it may have.
    TooLong,
    /// What may be the beginning of a line, or the last line.
    Unfinished,
}

/// How many bytes come before the first end of a line.
fn place_of_end(bytes: &[u8]) -> Option<usize>
    ensures found { IfSome result (λ n. bytes.now ≡ take n bytes.now ++ 10 ∷ drop (n + 1) bytes.now) }
    ensures first { IfSome result (λ n. All (λ b. b ≢ 10) (take n bytes.now)) }
    ensures within { IfSome result (λ n. n < length bytes.now) }
    ensures none { result ≡ None → All (λ b. b ≢ 10) bytes.now }
{
    bytes.iter().position(|b| *b == LINE_END)
}

/// What the bytes begin with, where a line may have so many before its end.
pub(crate) fn first_line_of(bytes: &[u8], longest: usize) -> FirstLine
    ensures { IsFirstLine longest bytes.now result }
{
    match place_of_end(bytes) {
        Some(len) => {
            if len > longest {
                FirstLine::TooLong
            } else {
                FirstLine::Line(len)
            }
        }
        None => {
            if bytes.len() > longest {
                FirstLine::TooLong
            } else {
                FirstLine::Unfinished
            }
        }
    }
}
