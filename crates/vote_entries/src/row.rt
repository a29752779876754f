// The row of an entry.
ghost use Rattle.std.specs.Prelude.{◌≡◌, slice_range};
ghost use Rattle.vote_entries.specs.Rows as rows;

use crate::said::{bandwidths_at, ed_at, relay_at};
use dir_values::Digest2;
use frame_terms::{Keyword, Taken};
use frame_values::{Span, Value, text_at, text_if};
use relay_entries::{Bandwidths, EdOpinion, RelayLine};
use vote_frame::VoteValue;

/// Which part of a list is an entry's.
#[derive(Clone, Copy, Debug)]
pub struct Run {
    /// Where it begins.
    pub start: usize,
    /// Where what follows begins.
    pub end: usize,
}

/// What is kept of an `m` line that gives a SHA-256.
#[derive(Clone, Copy, Debug)]
pub struct KeptMicro {
    /// The consensus methods, with commas between them.
    pub methods: Span,
    /// The SHA-256 of the microdescriptor that is made under them.
    pub digest: Digest2,
}

/// What is kept of an entry: numbers, and where its texts stand in the vote's bytes.
#[derive(Clone, Copy, Debug)]
pub struct EntryRow {
    /// The relay.
    pub relay: RelayLine,
    /// Its further addresses, among those of all entries.
    pub addresses: Run,
    /// Its flags.
    pub flags: Span,
    /// Its version.
    pub version: Option<Span>,
    /// The protocols that it speaks.
    pub protocols: Option<Span>,
    /// Its bandwidths.
    pub bandwidths: Option<Bandwidths>,
    /// The ports that it lets out.
    pub policy: Option<Span>,
    /// Its `m` lines that give a SHA-256, among those of all entries.
    pub micros: Run,
    /// Its Ed25519 identity.
    pub ed: EdOpinion,
}

/// The row of an entry with these items, whose addresses and `m` lines stand in these runs.
pub fn row_of(taken: &[Taken<Value<VoteValue>>], addresses: Run, micros: Run) -> EntryRow
    ensures { result ≡ rows.row_of taken.now addresses micros }
{
    EntryRow {
        relay: relay_at(taken),
        addresses,
        flags: text_at(taken, Keyword::S),
        version: text_if(taken, Keyword::V),
        protocols: text_if(taken, Keyword::Pr),
        bandwidths: bandwidths_at(taken),
        policy: text_if(taken, Keyword::P),
        micros,
        ed: ed_at(taken),
    }
}

/// The part of a list that a run names; a run past its end names what there is.
pub fn run_of<T>(list: &[T], run: Run) -> &[T]
    ensures { result.now ≡ slice_range list.now run.start run.end }
{
    let from = run.start.min(list.len());
    let rest = &list[from..];
    let count = run.end.saturating_sub(run.start).min(rest.len());
    &rest[..count]
}
