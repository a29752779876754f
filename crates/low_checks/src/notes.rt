// A list of notes as the value of a lock.
ghost use Rattle.std.specs.Prelude.{◌≡◌, Some, None, length};
ghost use mathlib.Core.Bool.{cond};

use period_lock::{Event, Storied};

/// Who noted what, in order.
#[derive(Drop)]
pub struct Notes {
    pub list: Vec<(u64, u64)>,
}

impl Storied for Notes {
    type Start = ();

    type Entry = (u64, u64);

    ghost stands = { λ notes start story. notes.list.items ≡ story };

    ghost start_of = { λ notes. tt };

    ghost front_of = { λ start. 0 };

    fn front(&self) -> u64 {
        self.list.len() as u64
    }
}

/// Notes something, where there is room.
#[derive(Drop)]
pub struct Note {
    pub who: u64,
    pub what: u64,
}

impl Event<Notes> for Note {
    type Reply = bool;

    ghost answers = { λ before start story reply after. after ≡ before };

    ghost entry_of = { λ before reply after. cond reply (Some (before.who, before.what)) None };

    fn apply(&mut self, state: &mut Notes) -> bool {
        state.list.push((self.who, self.what)).is_ok()
    }
}

/// Counts the notes.
#[derive(Drop)]
pub struct Count;

impl Event<Notes> for Count {
    type Reply = u64;

    ghost answers = { λ before start story reply after. reply ≡ length story };

    ghost entry_of = { λ before reply after. None };

    fn apply(&mut self, state: &mut Notes) -> u64 {
        state.list.len() as u64
    }
}

/// How many notes someone has, where they are numbered from 0 on.
pub fn notes_in_order(list: &[(u64, u64)], who: u64) -> Option<usize> {
    let mut count = 0;
    for note in list {
        if note.0 == who {
            if note.1 != count as u64 {
                return None;
            }
            count += 1;
        }
    }
    Some(count)
}
