// The detached signatures of what an authority has computed.
ghost use Rattle.std.specs.Prelude.{◌≡◌, IfOk};
ghost use Rattle.checked_sigs.specs.Next as next;

use consensus_terms::Flavour;
use detached_doc::{Detached, held_signatures, write};
use dir_bytes::{Memory, Text};
use dir_values::{Digest1, Digest2};
use key_port::Verifier;
use period_core::{Made, PeriodState};
use std::alloc::Global;

/// The signatures over a consensus that an authority holds.
fn signatures_over<V: Verifier>(
    state: &PeriodState<V>,
    alloc: Global,
    made: &Made,
) -> Result<Detached, Memory>
    ensures { IfOk result (λ detached. detached ≡ next.signatures_over state.now made.now) }
{
    let ns = Digest1(*made.sha1());
    let microdesc = Digest2(*made.sha256());
    held_signatures(
        alloc,
        made.facts(),
        &ns,
        &microdesc,
        state.lines(Flavour::Ns),
        state.lines(Flavour::Microdesc),
    )
}

/// The document of the signatures that an authority holds over what it has computed, if there are texts.
///
/// # Errors
/// `Memory` is want of memory.
pub fn next_signatures<V: Verifier>(
    state: &PeriodState<V>,
    alloc: Global,
) -> Result<Option<Text>, Memory>
    ensures { IfOk result (λ text. text ≡ next.next_signatures_of state.now) }
{
    match state.computed() {
        Some(made) => {
            let detached = signatures_over(state, alloc, made)?;
            Ok(Some(Text::new(write(alloc, &detached)?)))
        }
        None => Ok(None),
    }
}
