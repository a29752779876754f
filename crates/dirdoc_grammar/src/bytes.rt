// Kinds of bytes, and the parts of a line.

ghost use Rattle.std.specs.{Prelude.{◌+◌, ◌<◌, ◌≡◌, ◌≤◌, ◌^◌, length, not, true}, List.{prefix_len, suffix_len}};
ghost use Rattle.item_terms.specs.Words as words;
ghost use Rattle.item_terms.specs.Lines.{size};
ghost use Rattle.dirdoc_grammar.specs.Reading.{first_line_len, first_line, FindsWord};

use memchr::memchr;

fn is_blank(b: u8) -> bool
    ensures { result ≡ words.is_blank b }
{
    b == b' ' || b == b'\t'
}

fn is_letter_or_digit(b: u8) -> bool
    ensures { result ≡ words.is_letter_or_digit b }
{
    b.is_ascii_alphanumeric()
}

fn is_word_byte(b: u8) -> bool
    ensures { result ≡ words.is_word_byte b }
{
    is_letter_or_digit(b) || b == b'-'
}

/// Whether a text has nothing but blanks.
pub fn is_blank_line(text: &[u8]) -> bool
    ensures { result ≡ words.is_blank_line text.now }
{
    text.iter().all(|b| is_blank(*b))
}

/// How many blanks stand in front.
pub fn front_blanks(text: &[u8]) -> usize
    ensures count { result ≡ prefix_len words.is_blank text.now }
    ensures within { result ≤ length text.now }
{
    text.iter().take_while(|b| is_blank(**b)).count()
}

fn back_blanks(text: &[u8]) -> usize
    ensures count { result ≡ suffix_len words.is_blank text.now }
    ensures within { result ≤ length text.now }
{
    text.iter().rev().take_while(|b| is_blank(**b)).count()
}

/// A text without the blanks at its end.
pub fn trim_end(text: &[u8]) -> &[u8]
    ensures value { result.now ≡ words.trim_end text.now }
    ensures within { length result.now ≤ length text.now }
{
    &text[..text.len() - back_blanks(text)]
}

fn word_len(text: &[u8]) -> usize
    ensures count { result ≡ prefix_len (λ b. not (words.is_blank b)) text.now }
    ensures within { result ≤ length text.now }
{
    text.iter().take_while(|b| !is_blank(**b)).count()
}

/// The first word of a text and what follows it, where the text has more than blanks.
pub fn first_word(text: &[u8]) -> Option<(&[u8], &[u8])>
    ensures { FindsWord text.now result }
{
    let text = &text[front_blanks(text)..];
    if text.is_empty() {
        return None;
    }
    Some(text.split_at(word_len(text)))
}

/// How many bytes of the front a keyword may have.
pub fn keyword_len(text: &[u8]) -> usize
    ensures count { result ≡ words.keyword_len text.now }
    ensures within { result ≤ length text.now }
{
    text.iter().take_while(|b| is_word_byte(**b)).count()
}

/// Whether a letter or digit stands in front.
pub fn begins_keyword(text: &[u8]) -> bool
    ensures { result ≡ words.first_is words.is_letter_or_digit text.now }
{
    match text {
        [] => false,
        [b, ..] => is_letter_or_digit(*b),
    }
}

/// Whether nothing stands here, or a blank in front.
pub fn ends_or_blank(rest: &[u8]) -> bool
    ensures { result ≡ words.ends_or_blank rest.now }
{
    match rest {
        [] => true,
        [b, ..] => is_blank(*b),
    }
}

/// Whether a `-` stands in front.
pub fn begins_dash(text: &[u8]) -> bool
    ensures { result ≡ words.begins_dash text.now }
{
    match text {
        [] => false,
        [b, ..] => *b == b'-',
    }
}

/// How many bytes stand before the first NL.
pub fn line_len(rest: &[u8]) -> usize
    ensures len { result ≡ first_line_len rest.now }
    ensures within { result ≤ length rest.now }
{
    match memchr(b'\n', rest) {
        Some(len) => len,
        None => rest.len(),
    }
}

/// How many bytes the first line has, with its NL where that is there.
pub fn line_size(rest: &[u8]) -> u64
    requires { length rest.now < 2 ^ 63 }
    ensures { result ≡ size (first_line rest.now) }
{
    let len = line_len(rest);
    if len < rest.len() {
        len as u64 + 1
    } else {
        len as u64
    }
}

/// Where the first NUL is.
pub fn nul_in(text: &[u8]) -> Option<usize>
    ensures { result ≡ words.nul_in text.now }
{
    memchr(0, text)
}

/// Whether a text is words of letters, digits and `-` with one space between each two.
pub fn are_words(text: &[u8]) -> bool
    ensures { result ≡ words.are_words true text.now }
{
    let mut at_start = true;
    'bytes: for b in text {
        if *b == b' ' {
            if at_start {
                return false;
            }
            at_start = true;
        } else {
            if !is_word_byte(*b) {
                return false;
            }
            at_start = false;
        }
    }
    !at_start
}
