//! Words from left to right.
ghost use Rattle.std.specs.Prelude.{◌≡◌, ◌<◌, ◌≤◌, not, [], ◌∷◌, length, MatchOption};
ghost use Rattle.std.specs.List.{position_or_len};
ghost use Rattle.text_words.specs.Words as spec;
ghost use Rattle.text_words.specs.Words.{words};

/// The first word of a text, and what follows it; `None` where the text has no word.
pub fn next_word(text: &[u8]) -> Option<(&[u8], &[u8])>
    ensures { MatchOption result
        (words text.now ≡ [])
        (λ p. (words text.now ≡ p.0.now ∷ words p.1.now) × (0 < length p.0.now)) }
{
    let (_, text) = text.split_at(first_of_word(text));
    if text.is_empty() {
        return None;
    }
    Some(text.split_at(first_blank(text)))
}

/// Whether the byte is a blank: a space or a tab.
pub fn is_blank(byte: u8) -> bool
    ensures { result ≡ spec.is_blank byte }
{
    byte == b' ' || byte == b'\t'
}

// The place of the first blank, or the length.
fn first_blank(text: &[u8]) -> usize
    ensures value { result ≡ position_or_len spec.is_blank text.now }
    ensures within { result ≤ length text.now }
{
    text.iter().position(|b| is_blank(*b)).unwrap_or(text.len())
}

// The place of the first byte that is no blank, or the length.
fn first_of_word(text: &[u8]) -> usize
    ensures value { result ≡ position_or_len (λ b. not (spec.is_blank b)) text.now }
    ensures within { result ≤ length text.now }
{
    text.iter()
        .position(|b| !is_blank(*b))
        .unwrap_or(text.len())
}
