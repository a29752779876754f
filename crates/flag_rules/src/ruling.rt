// What the operator rules of a relay.
ghost use Rattle.std.specs.Prelude.{◌≡◌};

/// What the operator rules of a relay.
#[derive(Clone, Copy, Debug, PartialEq, Eq)]
pub enum Ruling {
    /// It gets the flags that it is fit for.
    Approve,
    /// It gets no flag, and counts for nothing.
    Reject,
    /// It is not Valid.
    Invalid,
    /// Clients are not to use it as an exit.
    BadExit,
    /// Clients are to use it in the middle of a circuit alone.
    MiddleOnly,
}

impl Ruling {
    ghost use Rattle.flag_rules.specs.Rulings as rulings;

    /// Whether a relay is left out.
    pub(crate) fn is_reject(self) -> bool
        ensures { result ≡ rulings.is_reject self }
    {
        matches!(self, Ruling::Reject)
    }

    /// Whether a relay may be valid.
    pub(crate) fn lets_valid(self) -> bool
        ensures { result ≡ rulings.lets_valid self }
    {
        matches!(self, Ruling::Approve | Ruling::BadExit | Ruling::MiddleOnly)
    }

    /// Whether clients are to use no exit of a relay.
    pub(crate) fn is_bad_exit(self) -> bool
        ensures { result ≡ rulings.is_bad_exit self }
    {
        matches!(self, Ruling::BadExit | Ruling::MiddleOnly)
    }

    /// Whether clients are to use a relay in the middle of a circuit alone.
    pub(crate) fn is_middle_only(self) -> bool
        ensures { result ≡ rulings.is_middle_only self }
    {
        matches!(self, Ruling::MiddleOnly)
    }
}
