// A state under a lock.
ghost use Rattle.std.specs.Prelude.{◌≡◌, ◌+◌, List, length};
ghost use Rattle.key_port.specs.Answers.{rules};
ghost use Rattle.period_terms.specs.{Histories.after, declared.{entry.Entry.Entry, state.State.State}};
ghost use Rattle.period_laws.specs.Checked.{IsCheckedHistory};
ghost use Rattle.serve_board.specs.Turns.{Stands};

use key_port::Verifier;
use period_core::PeriodState;
use period_lock::Storied;
use period_terms::Entry;

/// A state under a lock. It stands for the state at the start and the events that changed it since, which were
/// checked before they came.
#[derive(Drop)]
pub struct Period<V: Verifier> {
    pub(crate) period_state: PeriodState<V>,
}

/// The count of all changes of a state.
fn front_of<V: Verifier>(state: &PeriodState<V>) -> u64
    ensures { (start : State) (story : List Entry)
        → Stands after (IsCheckedHistory (rules V.may_accept V.may_refuse)) state.now start story
        → result ≡ start.front + length story }
{
    state.front()
}

impl<V: Verifier> Storied for Period<V> {
    type Start = PeriodState<V>;

    type Entry = Entry;

    ghost stands = { λ period start story.
        Stands after (IsCheckedHistory (rules V.may_accept V.may_refuse)) period.period_state start story };

    ghost start_of = { λ period. period.period_state };

    ghost front_of = { λ start. start.front };

    fn front(&self) -> u64 {
        front_of(&self.period_state)
    }
}
