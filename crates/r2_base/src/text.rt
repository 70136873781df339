ghost use Rattle.std.specs.Prelude.{◌≡◌, ℕ, ◌+◌, ◌-◌, ◌*◌, ◌<◌, ◌≤◌, ◌↔◌, List, length, slice_index, IsTrue, IfSome, IsSomeAnd, SomeIff};
ghost use Rattle.std.specs.Fmt.{decimal};
ghost use Rattle.r2_base.specs.Text.{IsSplit};

/// The text before the first such byte, and the text after it.
pub fn split_once(text: &[u8], byte: u8) -> Option<(&[u8], &[u8])>
    ensures found { IfSome result (λ p. IsSplit byte text.now p.0.now p.1.now) }
    ensures only { (front rest : List ℕ) → IsSplit byte text.now front rest → IsSomeAnd result (λ p. (p.0.now ≡ front) × (p.1.now ≡ rest)) }
{
    'bytes: for (i, b) in text.iter().enumerate() {
        if *b == byte {
            return Some((&text[..i], &text[i + 1..]));
        }
    }
    None
}

/// The number of at most `most` that the text is in decimal, with no leading zero.
pub fn read_decimal(text: &[u8], most: u64) -> Option<u64>
    ensures found { IfSome result (λ n. (n ≤ most) × (text.now ≡ decimal n)) }
    ensures only { (n : ℕ) → n ≤ most → text.now ≡ decimal n → result ≡ Some n }
{
    if text.is_empty() {
        return None;
    }
    if has_leading_zero(text) {
        return None;
    }
    let mut value: u64 = 0;
    'digits: for digit in text {
        value = one_more_digit(value, *digit, most)?;
    }
    Some(value)
}

fn has_leading_zero(text: &[u8]) -> bool
    ensures { IsTrue result ↔ ((1 < length text.now) × (slice_index text.now 0 ≡ 48)) }
{
    text.len() > 1 && text[0] == b'0'
}

/// The number with that digit after it, if it is at most `most`.
fn one_more_digit(value: u64, digit: u8, most: u64) -> Option<u64>
    ensures { SomeIff result ((48 ≤ digit) × (digit ≤ 57) × (value * 10 + (digit - 48) ≤ most)) (value * 10 + (digit - 48)) }
{
    if digit < b'0' {
        return None;
    }
    if digit > b'9' {
        return None;
    }
    let worth = u64::from(digit - b'0');
    if worth > most {
        return None;
    }
    if value > (most - worth) / 10 {
        return None;
    }
    Some(value * 10 + worth)
}
