// What a consensus says of a relay.
ghost use Rattle.std.specs.Prelude.{◌≡◌, ◌<◌, ◌^◌, IfOk, length};
ghost use Rattle.consensus_doc.specs.Drafts as drafts;

use crate::preamble::flags_at;
use crate::says::{bandwidth_at, micro_digest_at, relay_at};
use consensus_frame::ConsensusValue;
use consensus_terms::{Flavour, Routerline};
use dir_bytes::{Memory, Text};
use frame_terms::{Keyword, Taken};
use frame_values::{Value, copy_part, copy_part_if, moment, text_if};
use std::alloc::Global;

/// The text of an item, where it has one.
fn copy_text(
    alloc: Global,
    bytes: &[u8],
    taken: &[Taken<Value<ConsensusValue>>],
    keyword: Keyword,
) -> Result<Option<Text>, Memory>
    ensures { IfOk result (λ text. text ≡ drafts.text_at bytes.now taken.now keyword) }
{
    copy_part_if(alloc, bytes, text_if(taken, keyword))
}

/// The summary of the exit policy, in the ns flavour.
fn summary_of(
    alloc: Global,
    flavour: Flavour,
    bytes: &[u8],
    taken: &[Taken<Value<ConsensusValue>>],
) -> Result<Option<Text>, Memory>
    ensures { IfOk result (λ text. text ≡ drafts.summary_of flavour bytes.now taken.now) }
{
    match flavour {
        Flavour::Ns => copy_text(alloc, bytes, taken, Keyword::P),
        Flavour::Microdesc => Ok(None),
    }
}

/// What a relay's section says.
///
/// # Errors
/// `Memory` is want of memory.
pub(crate) fn router_of(
    alloc: Global,
    flavour: Flavour,
    bytes: &[u8],
    taken: &[Taken<Value<ConsensusValue>>],
) -> Result<Routerline, Memory>
    requires { length bytes.now < 2 ^ 62 }
    ensures { IfOk result (λ router. router ≡ drafts.router_of flavour bytes.now taken.now) }
{
    let relay = relay_at(taken);
    Ok(Routerline {
        nickname: copy_part(alloc, bytes, relay.nickname)?,
        identity: relay.identity,
        digest: relay.digest,
        published: moment(relay.published),
        ip: relay.ip,
        or_port: relay.or_port,
        dir_port: relay.dir_port,
        a: copy_text(alloc, bytes, taken, Keyword::A)?,
        m: micro_digest_at(taken),
        flags: flags_at(alloc, bytes, taken, Keyword::S)?,
        v: copy_text(alloc, bytes, taken, Keyword::V)?,
        pr: copy_text(alloc, bytes, taken, Keyword::Pr)?,
        w: bandwidth_at(taken),
        p: summary_of(alloc, flavour, bytes, taken)?,
    })
}
