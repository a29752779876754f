// The parts of a text before and after the last of some byte.
ghost use Rattle.std.specs.Prelude.{◌≡◌, ◌≤◌, length};
ghost use Rattle.exit_summary.specs.PolicyItems as policies;

/// How many bytes stand after the last such byte; all, where there is none.
fn after_len(text: &[u8], byte: u8) -> usize
    ensures count { result ≡ policies.after_len byte text.now }
    ensures within { result ≤ length text.now }
{
    text.iter()
        .rev()
        .take_while(|other| **other != byte)
        .count()
}

/// Whether there is such a byte.
pub fn has_last(text: &[u8], byte: u8) -> bool
    ensures { result ≡ policies.has_last byte text.now }
{
    after_len(text, byte) < text.len()
}

/// What stands before the last such byte, and nothing where there is none.
pub fn before_last(text: &[u8], byte: u8) -> &[u8]
    ensures { result.now ≡ policies.before_last byte text.now }
{
    let end = text.len() - after_len(text, byte);
    &text[..end.saturating_sub(1)]
}

/// What stands after the last such byte, and the whole text where there is none.
pub fn after_last(text: &[u8], byte: u8) -> &[u8]
    ensures { result.now ≡ policies.after_last byte text.now }
{
    &text[text.len() - after_len(text, byte)..]
}
