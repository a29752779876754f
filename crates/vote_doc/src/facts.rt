// What a vote says, in values of its own.
ghost use Rattle.std.specs.Prelude.{◌≡◌, ◌<◌, ◌^◌, IfOk, length, option_map};
ghost use Rattle.dir_values.specs.Numbers.{numbers_in};
ghost use Rattle.frame_values.specs.Parts as parts;
ghost use Rattle.vote_doc.specs.Facts as facts;

use crate::head_values::values_of;
use crate::kept::Kept;
use crate::vote::Vote;
use dir_bytes::{Memory, Seq};
use dir_values::numbers_in;
use frame_values::{Span, copy_part, copy_part_if, moment, part};
use std::alloc::Global;
use vote_terms::VoteFacts;

/// The numbers of a text, where there is one.
fn numbers_if(alloc: Global, bytes: &[u8], span: Option<Span>) -> Result<Option<Seq<u32>>, Memory>
    requires { length bytes.now < 2 ^ 62 }
    ensures { IfOk result (λ numbers. numbers ≡ option_map numbers_in (option_map (parts.part bytes.now) span)) }
{
    match span {
        Some(span) => Ok(Some(numbers_in(alloc, part(bytes, span))?)),
        None => Ok(None),
    }
}

/// What the vote says of which this was kept.
fn facts_of(alloc: Global, bytes: &[u8], kept: &Kept) -> Result<VoteFacts, Memory>
    requires { length bytes.now < 2 ^ 62 }
    ensures { IfOk result (λ found. found ≡ facts.facts_of bytes.now kept.now) }
{
    let head = &kept.head;
    let values = values_of(alloc, bytes, head)?;
    Ok(VoteFacts {
        methods: numbers_if(alloc, bytes, head.methods)?,
        published: moment(head.published),
        valid_after: moment(head.valid_after),
        fresh_until: moment(head.fresh_until),
        valid_until: moment(head.valid_until),
        vote_seconds: head.vote_seconds,
        dist_seconds: head.dist_seconds,
        known_flags: values.known_flags,
        flag_thresholds: copy_part_if(alloc, bytes, head.flag_thresholds)?,
        lists: values.lists,
        nickname: copy_part(alloc, bytes, head.source.nickname)?,
        identity: head.source.identity,
        address: copy_part(alloc, bytes, head.source.address)?,
        ip: head.source.ip,
        dir_port: head.source.dir_port,
        or_port: head.source.or_port,
        contact: copy_part_if(alloc, bytes, head.contact)?,
        random_previous: head.random_previous,
        random_current: head.random_current,
        certificate: values.certificate,
        entries: kept.entries.facts(alloc, bytes)?,
        signature: values.signature,
    })
}

impl Vote {
    /// What the vote says, in values of its own.
    ///
    /// # Errors
    /// `Memory` is want of memory.
    pub fn facts(&self, alloc: Global) -> Result<VoteFacts, Memory>
        ensures { IfOk result (λ found. found ≡ self.now.says) }
    {
        facts_of(alloc, &self.bytes, &self.kept)
    }
}
