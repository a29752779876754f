// Turns of several threads, and how a lock is closed.
ghost use Rattle.std.specs.Prelude.{◌≡◌, IfOk, []};
ghost use Rattle.period_lock.specs.Turns.{AreOf, IsOf};

use crate::notes::{Count, Note, Notes, notes_in_order};
use period_lock::{Pass, Shared, Storied};
use std::alloc::Global;
use std::sync::Wait;
use std::test::Fail;
use std::thread;
use std::thread::Threads;

const TURNS: u64 = 2000;

/// Takes the turns of one thread.
fn note_all<R: Wait>(rt: &R, shared: &Shared<Notes>, pass: &mut Pass<Notes>, who: u64)
    requires { IsOf shared.now pass.old }
    ensures { IsOf shared.now pass.new }
{
    for what in 0..TURNS {
        shared.turn(rt, pass, &mut Note { who, what });
    }
}

/// Takes the turns of each pass, four threads at a time.
fn note_by_threads<R: Threads + Wait + Sync>(
    rt: &R,
    shared: &Shared<Notes>,
    passes: &mut [Pass<Notes>],
)
    requires { AreOf shared.now passes.old }
    ensures { AreOf shared.now passes.new }
{
    thread::for_each_mut(
        rt,
        passes,
        4,
        &|who, pass| note_all(rt, shared, pass, who as u64),
    );
}

/// Notes for which there is room.
fn notes(alloc: Global, room: usize) -> Result<Notes, Fail>
    ensures { IfOk result (λ notes. notes.list.items ≡ []) }
{
    Ok(Notes {
        list: Vec::with_capacity(alloc, room)?,
    })
}

/// Whether the front of each pass lies between the notes of one thread and those of all.
fn fronts_are_within(passes: &[Pass<Notes>], most: u64) -> bool {
    passes
        .iter()
        .all(|pass| TURNS <= pass.front() && pass.front() <= most)
}

/// Whether so many have each their notes, in order.
fn have_all(list: &[(u64, u64)], count: u64) -> bool {
    (0..count).all(|who| notes_in_order(list, who) == Some(TURNS as usize))
}

#[test]
fn seventeen_passes_leave_one_list(rt: HostRuntime) -> Result<(), Fail> {
    let (shared, mut passes) = Shared::new(rt.alloc(), notes(rt.alloc(), 34000)?, 17)?;
    note_by_threads(&rt, &shared, &mut passes);
    if passes.len() != 17 || !fronts_are_within(&passes, 34000) {
        return Err(Fail::new("other passes"));
    }
    let Ok(notes) = shared.close(passes) else {
        return Err(Fail::new("a pass is missing"));
    };
    if notes.list.len() != 34000 || !have_all(&notes.list, 17) {
        return Err(Fail::new("other notes"));
    }
    Ok(())
}

/// Closes without the last pass, which is refused, and then with it.
fn close_after_a_refusal(shared: Shared<Notes>, passes: Vec<Pass<Notes>>) -> Option<Notes>
    requires { AreOf shared passes.items }
{
    let mut left = passes;
    let Some(missing) = left.pop() else {
        return None;
    };
    let Err((lock, back)) = shared.close(left) else {
        return None;
    };
    let mut all = back;
    match all.push(missing) {
        Ok(()) => lock.close(all).ok(),
        Err(_) => None,
    }
}

#[test]
fn a_lock_without_one_pass_is_handed_back_whole(rt: HostRuntime) -> Result<(), Fail> {
    let (shared, mut passes) = Shared::new(rt.alloc(), notes(rt.alloc(), 0)?, 3)?;
    note_by_threads(&rt, &shared, &mut passes);
    match close_after_a_refusal(shared, passes) {
        Some(notes) if notes.list.len() == 6000 => Ok(()),
        _ => Err(Fail::new("not refused, or not closed")),
    }
}

#[test]
fn a_turn_without_a_change_leaves_the_front(rt: HostRuntime) -> Result<(), Fail> {
    let (shared, mut passes) = Shared::new(rt.alloc(), notes(rt.alloc(), 0)?, 2)?;
    let mut other = passes.pop().ok_or("two passes")?;
    let mut one = passes.pop().ok_or("two passes")?;
    let noted = shared.turn(&rt, &mut one, &mut Note { who: 0, what: 5 });
    if !noted || (one.front(), other.front()) != (1, 0) {
        return Err(Fail::new("another front"));
    }
    let count = shared.turn(&rt, &mut other, &mut Count);
    if (count, one.front(), other.front()) != (1, 1, 1) {
        return Err(Fail::new("another front"));
    }
    Ok(())
}

/// Any lock may be shared by threads, and any pass sent to one, where the value may be sent.
fn crosses<T: Storied + Send>(shared: &Shared<T>, pass: &Pass<T>) {
    shares(shared);
    sends(pass);
}

fn shares<X: Sync + Send>(_: &X) {}

fn sends<X: Send>(_: &X) {}
