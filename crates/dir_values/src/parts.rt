// The parts of a text before and after the first of some byte.
ghost use Rattle.std.specs.{Prelude.{◌≡◌, ◌==◌, ◌<◌, ◌≤◌, length}, List.{position_or_len, before_first, after_first}};
ghost use Rattle.std.specs.List.{list_any};

/// Whether a byte stands in a text.
pub fn has(text: &[u8], byte: u8) -> bool
    ensures { result ≡ list_any (λ other. other == byte) text.now }
{
    text.iter().any(|other| *other == byte)
}

/// How many bytes stand before the first of them that is this byte; all, where none is.
fn place_of(text: &[u8], byte: u8) -> usize
    ensures place { result ≡ position_or_len (λ other. other == byte) text.now }
    ensures within { result ≤ length text.now }
{
    text.iter().take_while(|other| **other != byte).count()
}

/// What stands before the first such byte: the whole text, where there is none.
pub fn before(text: &[u8], byte: u8) -> &[u8]
    ensures { result.now ≡ before_first (λ other. other == byte) text.now }
{
    &text[..place_of(text, byte)]
}

/// What stands after the first such byte: nothing, where there is none.
pub fn after(text: &[u8], byte: u8) -> &[u8]
    ensures value { result.now ≡ after_first (λ other. other == byte) text.now }
    ensures shorter { 0 < length text.now → length result.now < length text.now }
{
    let place = place_of(text, byte);
    if place < text.len() {
        &text[place + 1..]
    } else {
        &[]
    }
}
