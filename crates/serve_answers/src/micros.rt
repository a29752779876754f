// The microdescriptors of the pool.
ghost use Rattle.std.specs.Prelude.{◌≡◌, ◌++◌, ◌<◌, All, IfOk, OnOk, MatchResult, length};
ghost use Rattle.http_words.specs.Found as found;
ghost use Rattle.serve_answers.specs.Documents as lists;
ghost use Rattle.serve_answers.specs.Places as lending;

use crate::places::places;
use dir_bytes::{Memory, Text};
use http_words::unless_empty;
use key_port::Verifier;
use serve_board::Question;
use std::alloc::Global;
use vote_pool::{Pool, PoolEntry};

/// Whether a microdescriptor of an entry has a digest.
fn has_digest<V: Verifier>(entry: &PoolEntry<V>, asked: &[u8; 32]) -> bool
    ensures { result ≡ lists.has_digest asked.now entry.now }
{
    entry.micro_digest().0 == *asked || entry.family_digest().0 == *asked
}

/// The text of the first microdescriptor of an entry that has it.
fn text_with<'a, V: Verifier>(entry: &'a PoolEntry<V>, asked: &[u8; 32]) -> &'a [u8]
    ensures { result.now ≡ lists.text_with asked.now entry.now }
{
    if entry.micro_digest().0 == *asked {
        entry.micro()
    } else {
        entry.family_micro()
    }
}

/// Appends the first microdescriptor with a digest among those at places, if there is one.
fn push_micro<V: Verifier>(
    out: &mut Vec<u8>,
    pool: &Pool<V>,
    places: &[usize],
    asked: &[u8; 32],
) -> Result<(), Memory>
    requires { All (λ place. place < length pool.now.descriptors) places.now }
    ensures { OnOk result (out.new.items ≡ out.old.items ++ lists.micro_with (lending.at_places pool.now.descriptors places.now) asked.now) }
{
    'micros: for place in places {
        let entry = pool.entry(*place);
        if has_digest(entry, asked) {
            out.extend_from_slice(text_with(entry, asked))?;
            return Ok(());
        }
    }
    Ok(())
}

/// The microdescriptors with digests, in the order of these.
fn micros<V: Verifier>(alloc: Global, pool: &Pool<V>, asked: &[[u8; 32]]) -> Result<Vec<u8>, Memory>
    ensures { IfOk result (λ bytes. bytes.items ≡ lists.micros_with pool.now.descriptors asked.now) }
{
    let places = places(alloc, pool, asked)?;
    let mut out = Vec::new(alloc);
    'asked: for digest in asked {
        push_micro(&mut out, pool, &places, digest)?;
    }
    Ok(out)
}

/// What are the microdescriptors with digests?
#[derive(Drop)]
pub(crate) struct AskMicros {
    pub(crate) alloc: Global,
    pub(crate) asked: Vec<[u8; 32]>,
}

impl<V: Verifier> Question<Pool<V>> for AskMicros {
    type Reply = Result<Option<Text>, Memory>;

    ghost finds = { λ before pool reply then.
        MatchResult reply (λ text. text ≡ found.unless_empty (lists.micros_with pool.descriptors before.asked.items)) (λ _. Unit {0}) };

    fn ask(&mut self, value: &Pool<V>) -> Result<Option<Text>, Memory> {
        Ok(unless_empty(micros(self.alloc, value, &self.asked)?))
    }
}
