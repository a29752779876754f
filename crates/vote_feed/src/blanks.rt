// Whether bytes are blank lines alone.
ghost use Rattle.std.specs.Prelude.{◌≡◌, ◌++◌, ℕ, List, []};
ghost use Rattle.vote_feed.specs.Blanks as terms;
ghost use Rattle.vote_feed.specs.Feeding.{are_blank_lines};

/// What bytes are that may be blank lines alone, and are looked at piece by piece.
#[derive(Clone, Copy, Debug)]
pub enum Blank {
    /// Blank lines, each with its NL.
    Lines,
    /// Blank lines, and blanks behind them.
    Within,
    /// There is another byte.
    Other,
}

/// What a byte makes of blank lines.
fn blank_by(byte: u8) -> Blank
    ensures { result ≡ terms.blank_by byte }
{
    match byte {
        b'\n' => Blank::Lines,
        b' ' | b'\t' => Blank::Within,
        _ => Blank::Other,
    }
}

/// What bytes are with these behind them, by what they are without. Behind a byte that makes no blank line nothing is
/// looked at.
pub fn blank_after(blank: Blank, bytes: &[u8]) -> Blank
    ensures { (before : List ℕ) → blank ≡ terms.blank_of before → result ≡ terms.blank_of (before ++ bytes.now) }
{
    let mut blank = blank;
    'bytes: for byte in bytes {
        match blank {
            Blank::Other => return Blank::Other,
            Blank::Lines | Blank::Within => blank = blank_by(*byte),
        }
    }
    blank
}

impl Blank {
    /// What no bytes are.
    pub fn new() -> Blank
        ensures { result ≡ terms.blank_of [] }
    {
        Blank::Lines
    }

    /// Whether they are blank lines, each with its NL.
    pub fn is_lines(self) -> bool
        ensures { (bytes : List ℕ) → self ≡ terms.blank_of bytes → result ≡ are_blank_lines bytes }
    {
        match self {
            Blank::Lines => true,
            Blank::Within | Blank::Other => false,
        }
    }
}
