// What stands behind the last vote that an input may have.
ghost use Rattle.std.specs.{Prelude.{◌≡◌, ◌++◌, ◌+◌, ◌<◌, ◌^◌, [], length, IfOk, IfSome, OnOk}, Option.option_map};
ghost use Rattle.compute_command.specs.Beyonds as terms;
ghost use Rattle.blank_lines.specs.Behind.{fault_behind};
ghost use Rattle.compute_command.specs.{Beyonds.{EndsBeyond, HasTooMany}, Furthers.IsFurther};

use crate::most_votes::item_too_many;
use dir_bytes::Memory;
use dirdoc_grammar::{Cursor, Take};
use frame_terms::{FrameFault, FrameReason};
use item_terms::NO_LIMIT;
use std::alloc::Global;
use std::marker::Model;

/// The bytes behind the last vote that an input may have. Contracts see it as these bytes.
#[derive(Drop)]
pub(crate) struct Beyond {
    bytes: Vec<u8>,
    cursor: Cursor,
}

impl Model for Beyond {
    ghost use Rattle.std.specs.Prelude.{List, ℕ};
    ghost use Rattle.compute_command.specs.Beyonds.{ReadsFront};

    ghost Value = { List ℕ };

    ghost view = { λ s. s.bytes.items };

    ghost invariant = { λ s. ReadsFront s.bytes.items s.cursor };
}

/// Why what a reader gives first is no end of the input.
fn fault_of(taken: Take<'_>) -> Option<FrameFault>
    ensures { result ≡ terms.fault_of taken.entry }
{
    match taken {
        Take::Item(item) => Some(item_too_many(&item)),
        Take::Fault(fault) => Some(FrameFault {
            place: fault.place,
            reason: FrameReason::Doc(fault.reason),
        }),
        Take::NotYet | Take::End => None,
    }
}

/// A fault so many bytes further on.
fn further(start: u64, fault: Option<FrameFault>) -> Option<FrameFault>
    requires { IfSome fault (λ own. start + own.place < 2 ^ 64) }
    ensures { result ≡ option_map (fault_behind start) fault }
{
    match fault {
        Some(fault) => Some(FrameFault {
            place: start + fault.place,
            reason: fault.reason,
        }),
        None => None,
    }
}

impl Beyond {
    /// No byte has come yet.
    pub(crate) fn new(alloc: Global) -> Beyond
        ensures { result ≡ [] }
    {
        Beyond {
            bytes: Vec::new(alloc),
            cursor: Cursor::new(NO_LIMIT),
        }
    }

    /// Takes a piece, and tells why the bytes are no end of the input, if that is known whatever follows, where they
    /// stand behind so many others.
    ///
    /// # Errors
    /// `Memory` is want of memory.
    pub(crate) fn feed(&mut self, start: u64, piece: &[u8]) -> Result<Option<FrameFault>, Memory>
        requires { start + length self.old + length piece.now < 2 ^ 61 }
        ensures bytes { OnOk result (self.new ≡ self.old ++ piece.now) }
        ensures fault { IfOk result (λ known. IfSome known (λ fault. IsFurther start (λ own. HasTooMany self.new own) fault)) }
    {
        self.bytes.extend_from_slice(piece)?;
        let mut cursor = self.cursor;
        match cursor.take(&self.bytes, false) {
            Take::NotYet => {
                self.cursor = cursor;
                Ok(None)
            }
            taken => Ok(further(start, fault_of(taken))),
        }
    }

    /// Why the bytes are no end of the input, where no more follow and they stand behind so many others.
    pub(crate) fn finish(self, start: u64) -> Option<FrameFault>
        requires { start + length self < 2 ^ 61 }
        ensures { EndsBeyond start self result }
    {
        let mut cursor = self.cursor;
        further(start, fault_of(cursor.take(&self.bytes, true)))
    }
}
