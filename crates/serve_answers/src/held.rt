// The signatures that are held.
ghost use Rattle.std.specs.Prelude.{◌≡◌, MatchResult};
ghost use Rattle.checked_sigs.specs.Next.{next_signatures_of};

use checked_sigs::next_signatures;
use dir_bytes::{Memory, Text};
use key_port::Verifier;
use period_core::PeriodState;
use serve_board::Question;
use std::alloc::Global;

/// What is the document of the signatures that are held?
#[derive(Drop)]
pub(crate) struct AskNextSignatures {
    pub(crate) alloc: Global,
}

impl<V: Verifier> Question<PeriodState<V>> for AskNextSignatures {
    type Reply = Result<Option<Text>, Memory>;

    ghost finds = { λ before state reply then. MatchResult reply (λ text. text ≡ next_signatures_of state) (λ _. Unit {0}) };

    fn ask(&mut self, value: &PeriodState<V>) -> Result<Option<Text>, Memory> {
        next_signatures(value, self.alloc)
    }
}
