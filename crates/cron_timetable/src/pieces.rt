//! The pieces of a word: parts before and after a byte, and numbers.
ghost use Rattle.std.specs.Prelude.{◌≡◌, ◌<◌, ◌≤◌, true, false, ◌==◌, length, MatchOption};
ghost use Rattle.std.specs.List.{position_or_len};
ghost use Rattle.std.specs.Str.{bytes_eq};
ghost use Rattle.cron_timetable.specs.Elements.{number_of, has_byte, before, after};

// The number that one to `most` decimal digits write.
pub(crate) fn number(text: &[u8], most: usize) -> Option<u32>
    requires { most ≤ 4 }
    ensures { result ≡ number_of most text.now }
{
    if text.is_empty() || text.len() > most {
        return None;
    }
    let mut number = 0;
    for byte in text {
        if *byte < b'0' || *byte > b'9' {
            return None;
        }
        number = number * 10 + u32::from(*byte - b'0');
    }
    Some(number)
}

// The parts before and after the first `byte`.
pub(crate) fn cut(text: &[u8], byte: u8) -> Option<(&[u8], &[u8])>
    ensures { MatchOption result (has_byte byte text.now ≡ false)
        (λ p. (has_byte byte text.now ≡ true) × (p.0.now ≡ before byte text.now) ×
        (p.1.now ≡ after byte text.now) × (length p.1.now < length text.now)) }
{
    let at = position_of(text, byte);
    if at < text.len() {
        Some((&text[..at], &text[at + 1..]))
    } else {
        None
    }
}

// Whether the two texts are the same.
pub(crate) fn same_bytes(a: &[u8], b: &[u8]) -> bool
    ensures { result ≡ bytes_eq a.now b.now }
{
    a == b
}

// The place of the first `byte`, or the length.
fn position_of(text: &[u8], byte: u8) -> usize
    ensures value { result ≡ position_or_len (λ x. x == byte) text.now }
    ensures within { result ≤ length text.now }
{
    text.iter().position(|b| *b == byte).unwrap_or(text.len())
}
