// The descriptors of the pool.
ghost use Rattle.std.specs.Prelude.{◌≡◌, IfOk, MatchResult};
ghost use Rattle.vote_pool.specs.Pools.{descriptor_for};
ghost use Rattle.http_words.specs.Found as found;
ghost use Rattle.serve_answers.specs.Documents as lists;

use dir_bytes::{Memory, Text};
use dir_values::Fingerprint;
use http_words::unless_empty;
use key_port::Verifier;
use serve_board::Question;
use std::alloc::Global;
use vote_pool::Pool;

/// All descriptors.
fn descriptors<V: Verifier>(alloc: Global, pool: &Pool<V>) -> Result<Vec<u8>, Memory>
    ensures { IfOk result (λ bytes. bytes.items ≡ lists.descriptors_of pool.now.descriptors) }
{
    let mut out = Vec::new(alloc);
    'descriptors: for i in 0..pool.len() {
        out.extend_from_slice(pool.entry(i).descriptor().text.as_slice())?;
    }
    Ok(out)
}

/// The descriptor of a relay.
fn descriptor<V: Verifier>(
    alloc: Global,
    pool: &Pool<V>,
    relay: &Fingerprint,
) -> Result<Vec<u8>, Memory>
    ensures { IfOk result (λ bytes. bytes.items ≡ lists.descriptor_if (descriptor_for pool.now.descriptors relay.now)) }
{
    'descriptors: for i in 0..pool.len() {
        let descriptor = pool.entry(i).descriptor();
        if descriptor.identity.is_same(relay) {
            return Ok(Vec::from_slice(alloc, descriptor.text.as_slice())?);
        }
    }
    Ok(Vec::new(alloc))
}

/// What are all descriptors?
#[derive(Drop)]
pub(crate) struct AskAllDescriptors {
    pub(crate) alloc: Global,
}

impl<V: Verifier> Question<Pool<V>> for AskAllDescriptors {
    type Reply = Result<Option<Text>, Memory>;

    ghost finds = { λ before pool reply then.
        MatchResult reply (λ text. text ≡ found.unless_empty (lists.descriptors_of pool.descriptors)) (λ _. Unit {0}) };

    fn ask(&mut self, value: &Pool<V>) -> Result<Option<Text>, Memory> {
        Ok(unless_empty(descriptors(self.alloc, value)?))
    }
}

/// What is the descriptor of a relay?
#[derive(Drop)]
pub(crate) struct AskDescriptor {
    pub(crate) alloc: Global,
    pub(crate) relay: Fingerprint,
}

impl<V: Verifier> Question<Pool<V>> for AskDescriptor {
    type Reply = Result<Option<Text>, Memory>;

    ghost finds = { λ before pool reply then.
        MatchResult reply (λ text. text ≡ found.unless_empty (lists.descriptor_if (descriptor_for pool.descriptors before.relay))) (λ _. Unit {0}) };

    fn ask(&mut self, value: &Pool<V>) -> Result<Option<Text>, Memory> {
        Ok(unless_empty(descriptor(self.alloc, value, &self.relay)?))
    }
}
