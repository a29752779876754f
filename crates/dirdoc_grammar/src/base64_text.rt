// Whether the lines of an object are strict base64.

ghost use Rattle.std.specs.Prelude.{◌≡◌, ◌≤◌, nat_le};
ghost use Rattle.item_terms.specs.Base64Text as text64;
ghost use Rattle.dirdoc_grammar.specs.Groups as groups;

use memchr::memchr;

/// How far a group of four symbols has come, with the value of the last symbol where the unused
/// bits of that may have to be zero.
#[derive(Clone, Copy, Debug)]
enum Group {
    Start,
    One,
    Two(u8),
    Three(u8),
    PaddedOnce,
    Closed,
}

/// The value of a base64 symbol, and 64 of another byte.
fn symbol(b: u8) -> u8
    ensures value { result ≡ groups.symbol b }
    ensures within { result ≤ 64 }
{
    match b {
        b'A'..=b'Z' => b - b'A',
        b'a'..=b'z' => b - b'a' + 26,
        b'0'..=b'9' => b - b'0' + 52,
        b'+' => 62,
        b'/' => 63,
        _ => 64,
    }
}

impl Group {
    fn may_grow(self, b: u8) -> bool
        ensures { result ≡ groups.may_grow self b }
    {
        match self {
            Group::Start | Group::One => symbol(b) <= 63,
            Group::Two(value) => {
                if b == b'=' {
                    value % 16 == 0
                } else {
                    symbol(b) <= 63
                }
            }
            Group::Three(value) => {
                if b == b'=' {
                    value % 4 == 0
                } else {
                    symbol(b) <= 63
                }
            }
            Group::PaddedOnce => b == b'=',
            Group::Closed => false,
        }
    }

    fn grown(self, b: u8) -> Group
        ensures { result ≡ groups.grown_group self b }
    {
        match self {
            Group::Start => Group::One,
            Group::One => Group::Two(symbol(b)),
            Group::Two(_) => {
                if b == b'=' {
                    Group::PaddedOnce
                } else {
                    Group::Three(symbol(b))
                }
            }
            Group::Three(_) => {
                if b == b'=' {
                    Group::Closed
                } else {
                    Group::Start
                }
            }
            Group::PaddedOnce | Group::Closed => Group::Closed,
        }
    }

    fn may_end(self) -> bool
        ensures { result ≡ groups.may_end self }
    {
        matches!(self, Group::Start | Group::Closed)
    }
}

/// Whether a byte is a base64 symbol.
fn is_symbol(b: u8) -> bool
    ensures { result ≡ nat_le (groups.symbol b) 63 }
{
    matches!(b, b'A'..=b'Z' | b'a'..=b'z' | b'0'..=b'9' | b'+' | b'/')
}

/// What is left of the text behind the whole groups and the NLs in front.
fn behind_groups(text: &[u8]) -> &[u8]
    ensures { groups.goes_on Group.Start (text64.joined_text result.now) ≡ groups.goes_on Group.Start (text64.joined_text text.now) }
{
    let mut rest = text;
    'groups: while let [a, b, c, d, ..] = rest {
        if *a == b'\n' {
            rest = &rest[1..];
        } else if is_symbol(*a) & is_symbol(*b) & is_symbol(*c) & is_symbol(*d) {
            rest = &rest[4..];
        } else {
            break;
        }
    }
    rest
}

/// Whether the lines, when they are joined, make up groups of four symbols.
fn fills_groups(text: &[u8]) -> bool
    ensures { result ≡ groups.goes_on Group.Start (text64.joined_text text.now) }
{
    ends_groups(behind_groups(text))
}

/// The same, byte by byte.
fn ends_groups(text: &[u8]) -> bool
    ensures { result ≡ groups.goes_on Group.Start (text64.joined_text text.now) }
{
    let mut group = Group::Start;
    'bytes: for b in text {
        if *b == b'\n' {
            continue;
        }
        if !group.may_grow(*b) {
            return false;
        }
        group = group.grown(*b);
    }
    group.may_end()
}

/// Whether each line has 1 to 64 bytes.
fn lines_fit(text: &[u8]) -> bool
    ensures { result ≡ text64.lines_fit 0 text.now }
{
    let mut rest = text;
    'lines: while let Some(count) = memchr(b'\n', rest) {
        if count < 1 || count > 64 {
            return false;
        }
        rest = &rest[count + 1..];
    }
    rest.is_empty()
}

/// Whether the lines are strict base64 when they are joined.
fn is_base64(text: &[u8]) -> bool
    ensures { result ≡ text64.is_base64 (text64.joined_text text.now) }
{
    fills_groups(text)
}

/// Whether the lines between the first and the last one of an object are as they may be.
pub fn is_body(text: &[u8]) -> bool
    ensures { result ≡ text64.is_body text.now }
{
    lines_fit(text) && is_base64(text)
}
