// The algorithms that signatures name.
ghost use Rattle.std.specs.Prelude.{◌≡◌};
ghost use Rattle.dir_values.specs.Names as names;

/// The hash that a signature is made over.
#[derive(Clone, Copy, Debug, PartialEq, Eq)]
pub enum Algorithm {
    /// SHA-1, which a signature that names none has.
    Sha1,
    /// SHA-256.
    Sha256,
}

impl Algorithm {
    /// Its name.
    pub fn name(self) -> &'static [u8]
        ensures { result.now ≡ names.algorithm_name self }
    {
        match self {
            Algorithm::Sha1 => b"sha1",
            Algorithm::Sha256 => b"sha256",
        }
    }

    /// The algorithm of a name.
    pub fn of_name(text: &[u8]) -> Option<Algorithm>
        ensures { result ≡ names.algorithm text.now }
    {
        if text == Algorithm::Sha1.name() {
            Some(Algorithm::Sha1)
        } else if text == Algorithm::Sha256.name() {
            Some(Algorithm::Sha256)
        } else {
            None
        }
    }
}
