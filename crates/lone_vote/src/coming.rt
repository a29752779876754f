// What is known of bytes that arrive, as a vote alone.
ghost use Rattle.std.specs.Prelude.{◌≡◌, ◌≤◌, ◌++◌, ℕ, [], List, drop, length, IfOk};
ghost use Rattle.vote_feed.specs.{Blanks.blank_of, Feeding.IsWhole};
ghost use Rattle.lone_vote.specs.{Alone.{IsFound, IsVote}, Coming.{HasCome, IsKnown, IsVoteOf}};

use dir_bytes::Memory;
use frame_terms::ReadRefusal;
use std::alloc::Global;
use vote_doc::Vote;
use vote_feed::{Blank, Fed, VoteFeeder, blank_after};

/// What is known of the bytes that have come, as a vote with nothing but blank lines behind it.
#[derive(Drop)]
enum Known {
    /// They may begin one, and nothing is known of it.
    Coming(VoteFeeder),
    /// They begin with a whole one.
    Whole {
        vote: Vote,
        /// What the bytes behind it are.
        behind: Blank,
    },
    /// They are none, whatever follows.
    Other,
}

/// A vote alone whose bytes arrive: nothing but blank lines may stand behind it. Bytes of which it is known that they are
/// no such vote are let go, and so are those behind the vote.
#[derive(Drop)]
pub struct LoneVote {
    known: Known,
}

/// The vote that whole bytes are.
///
/// # Errors
/// `Memory` is want of memory.
fn whole_vote(feeder: VoteFeeder) -> Result<Vote, Memory>
    requires { IsWhole feeder }
    ensures { IfOk result (λ vote. IsVoteOf feeder vote) }
{
    match feeder.finish() {
        Ok((vote, _)) => Ok(vote),
        Err(ReadRefusal::Memory) => Err(Memory),
        Err(ReadRefusal::Frame(_)) => unreachable!(),
    }
}

/// What the bytes of a piece are that stand behind the first so many.
fn blank_behind(piece: &[u8], taken: usize) -> Blank
    requires { taken ≤ length piece.now }
    ensures { result ≡ blank_of (drop taken piece.now) }
{
    blank_after(Blank::new(), &piece[taken..])
}

/// What is known with a piece more of bytes that begin with what a feeder has taken.
///
/// # Errors
/// `Memory` is want of memory.
fn read_on(feeder: VoteFeeder, piece: &[u8]) -> Result<Known, Memory>
    ensures { IfOk result (λ known. IsKnown (feeder ++ piece.now) known) }
{
    let mut feeder = feeder;
    match feeder.feed(piece)? {
        Fed::All => Ok(Known::Coming(feeder)),
        Fed::Whole { taken } => {
            let vote = whole_vote(feeder)?;
            let behind = blank_behind(piece, taken);
            Ok(Known::Whole { vote, behind })
        }
        Fed::Fault { .. } => Ok(Known::Other),
    }
}

/// What is known with a piece more.
///
/// # Errors
/// `Memory` is want of memory.
fn known_with(known: Known, piece: &[u8]) -> Result<Known, Memory>
    ensures { (bytes : List ℕ) → IsKnown bytes known → IfOk result (λ new. IsKnown (bytes ++ piece.now) new) }
{
    match known {
        Known::Coming(feeder) => read_on(feeder, piece),
        Known::Whole { vote, behind } => {
            let behind = blank_after(behind, piece);
            Ok(Known::Whole { vote, behind })
        }
        Known::Other => Ok(Known::Other),
    }
}

/// The vote that the bytes are of which this is known, where no more follow, if they are one.
fn vote_at_end(known: Known) -> Option<Vote>
    ensures { (bytes : List ℕ) → IsKnown bytes known → IsFound (IsVote bytes) result }
{
    match known {
        Known::Coming(_) => None,
        Known::Whole { vote, behind } => { if behind.is_lines() { Some(vote) } else { None } }
        Known::Other => None,
    }
}

impl LoneVote {
    /// No byte has come yet.
    ///
    /// # Errors
    /// `Memory` is want of memory.
    pub fn new(alloc: Global) -> Result<LoneVote, Memory>
        ensures { IfOk result (λ lone. HasCome [] lone) }
    {
        let known = Known::Coming(VoteFeeder::new(alloc)?);
        Ok(LoneVote { known })
    }

    /// With a piece more. A piece of bytes that are no such vote, whatever follows, is let go.
    ///
    /// # Errors
    /// `Memory` is want of memory.
    pub fn take(self, piece: &[u8]) -> Result<LoneVote, Memory>
        ensures { (bytes : List ℕ) → HasCome bytes self → IfOk result (λ lone. HasCome (bytes ++ piece.now) lone) }
    {
        let known = known_with(self.known, piece)?;
        Ok(LoneVote { known })
    }

    /// The vote that the bytes are, where no more follow, if they are one.
    pub fn end(self) -> Option<Vote>
        ensures { (bytes : List ℕ) → HasCome bytes self → IsFound (IsVote bytes) result }
    {
        vote_at_end(self.known)
    }
}
