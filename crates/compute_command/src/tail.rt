// Whether the bytes behind a vote are blank lines alone.
ghost use Rattle.std.specs.{Prelude.◌≡◌, List.fold};
ghost use Rattle.compute_command.specs.Tails as terms;

/// How many blanks a blank line may have, beside its NL.
const MOST_BLANKS: u64 = 1_048_575;

/// What the bytes behind a vote are, as blank lines.
#[derive(Clone, Copy, Debug, PartialEq, Eq)]
pub(crate) enum Tail {
    /// Blank lines, each with its NL, and so many blanks behind them.
    Blank(u64),
    /// There is another byte, or a line that is too long.
    Other,
}

/// What blank lines with so many blanks behind them are with one byte more.
fn tail_by(blanks: u64, byte: u8) -> Tail
    ensures { result ≡ terms.tail_by blanks byte }
{
    match byte {
        b'\n' => Tail::Blank(0),
        b' ' | b'\t' => {
            if blanks < MOST_BLANKS {
                Tail::Blank(blanks + 1)
            } else {
                Tail::Other
            }
        }
        _ => Tail::Other,
    }
}

/// What such bytes are with these behind them. Nothing is looked at behind a byte that makes no blank line.
pub(crate) fn tail_after(tail: Tail, bytes: &[u8]) -> Tail
    ensures { result ≡ fold terms.tail_with tail bytes.now }
{
    let mut tail = tail;
    'bytes: for byte in bytes {
        match tail {
            Tail::Other => return Tail::Other,
            Tail::Blank(blanks) => tail = tail_by(blanks, *byte),
        }
    }
    tail
}

impl Tail {
    /// Whether they are blank lines, each with its NL.
    pub(crate) fn is_end(self) -> bool
        ensures { result ≡ terms.is_end self }
    {
        match self {
            Tail::Blank(blanks) => blanks == 0,
            Tail::Other => false,
        }
    }
}
