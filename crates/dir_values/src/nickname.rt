// Nicknames of relays and authorities.
ghost use Rattle.std.specs.{Prelude.◌≡◌, List.list_all};
ghost use Rattle.item_terms.specs.Words.{is_letter_or_digit};
ghost use Rattle.dir_values.specs.Names as names;

/// Whether a text has letters and digits alone.
fn has_letters(text: &[u8]) -> bool
    ensures { result ≡ list_all is_letter_or_digit text.now }
{
    text.iter().all(|byte| byte.is_ascii_alphanumeric())
}

/// Whether a text is a nickname: 1 to 19 letters and digits (dir-spec, "Server descriptor format").
pub fn is_nickname(text: &[u8]) -> bool
    ensures { result ≡ names.is_nickname text.now }
{
    1 <= text.len() && text.len() <= 19 && has_letters(text)
}
