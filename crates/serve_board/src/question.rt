// What is asked of a value under a lock, and changes nothing there.
ghost use Rattle.std.specs.Prelude.{◌≡◌, None};
ghost use Rattle.key_port.specs.Answers.{rules};
ghost use Rattle.period_terms.specs.Histories.{after};
ghost use Rattle.period_laws.specs.Checked.{IsCheckedHistory};
ghost use Rattle.serve_board.specs.{Stocks.{AreKept, stock_after}, Turns.FindsThere};

use crate::period::Period;
use crate::reserve::Reserve;
use key_port::Verifier;
use period_core::PeriodState;
use period_lock::Event;
use vote_pool::Pool;

/// What is asked of a value in one turn. It changes nothing of the value.
pub trait Question<T> {
    type Reply;

    /// The question before, the value, the reply and the question after, where the reply is right.
    ghost finds: { Self → T → Self.Reply → Self → Type 0 };

    /// Replies.
    fn ask(&mut self, value: &T) -> Self::Reply
        ensures { finds self.old value.now result self.new };
}

/// A question is asked of a state.
#[derive(Drop)]
pub(crate) struct AskPeriodState<Q> {
    pub(crate) question: Q,
}

impl<V: Verifier, Q: Question<PeriodState<V>>> Event<Period<V>> for AskPeriodState<Q> {
    type Reply = Q::Reply;

    ghost answers = { λ before start story reply event.
        FindsThere after (IsCheckedHistory (rules V.may_accept V.may_refuse))
        (λ state answer. Q.finds before.question state answer event.question) start story reply };

    ghost entry_of = { λ before reply event. None };

    fn apply(&mut self, state: &mut Period<V>) -> Q::Reply {
        self.question.ask(&state.period_state)
    }
}

/// A question is asked of a pool.
#[derive(Drop)]
pub(crate) struct AskPool<Q> {
    pub(crate) question: Q,
}

impl<V: Verifier, Q: Question<Pool<V>>> Event<Reserve<V>> for AskPool<Q> {
    type Reply = Q::Reply;

    ghost answers = { λ before start story reply event.
        FindsThere stock_after (AreKept (rules V.may_accept V.may_refuse))
        (λ pool answer. Q.finds before.question pool answer event.question) start story reply };

    ghost entry_of = { λ before reply event. None };

    fn apply(&mut self, state: &mut Reserve<V>) -> Q::Reply {
        self.question.ask(&state.pool)
    }
}
