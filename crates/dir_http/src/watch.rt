// Watching for the empty line that ends a head, byte by byte.
ghost use Rattle.std.specs.Prelude.{◌≡◌};
ghost use Rattle.dir_http.specs.Watches as watches;
ghost use Rattle.dir_http.specs.declared.watch.LineWatch.TheVariants as watch;

/// How far a head has come.
#[derive(Clone, Copy, Debug, PartialEq, Eq)]
pub(crate) enum LineWatch {
    /// No line yet that has a byte.
    Before,
    /// In a line that has a byte.
    Inside,
    /// At the start of a line that follows one.
    Between,
}

impl LineWatch {
    /// Takes a byte, and tells whether it ends an empty line that follows one with a byte.
    fn sees(&mut self, byte: u8) -> bool
        ensures state { self.new ≡ watches.state_after self.old byte }
        ensures seen { result ≡ watches.ends_at self.old byte }
    {
        match byte {
            b'\r' => false,
            b'\n' => match *self {
                LineWatch::Before => false,
                LineWatch::Inside => {
                    *self = LineWatch::Between;
                    false
                }
                LineWatch::Between => true,
            },
            _ => {
                *self = LineWatch::Inside;
                false
            }
        }
    }

    /// Before the first byte.
    pub(crate) fn new() -> LineWatch
        ensures { result ≡ watch.Before }
    {
        LineWatch::Before
    }

    /// Whether an empty line has come that follows one with a byte.
    pub(crate) fn sees_end(&mut self, piece: &[u8]) -> bool
        ensures state { self.new ≡ watches.run self.old piece.now }
        ensures seen { result ≡ watches.sees_end self.old piece.now }
    {
        let mut ended = false;
        'bytes: for byte in piece {
            if self.sees(*byte) {
                ended = true;
            }
        }
        ended
    }
}
