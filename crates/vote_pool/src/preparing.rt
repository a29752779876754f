// What is made of a descriptor before it is kept.
ghost use Rattle.std.specs.Prelude.{◌≡◌, IfOk};
ghost use Rattle.vote_pool.specs.Summaries as summaries;

use crate::entry::{FamilyMicro, PoolEntry, Prepared};
use crate::kept::kept_of;
use descriptor_doc::{CheckedDescriptor, Descriptor};
use dir_bytes::{Memory, Text};
use dir_values::PortSummary;
use exit_summary::summary;
use key_port::Verifier;
use micro_desc::{digest, make, make_with_families, write};
use std::alloc::Global;
use std::snapshot::Snapshot;

/// The text of the microdescriptor of a descriptor and a summary of its exit policy, by the methods before 35, with no more
/// room than it has bytes.
///
/// # Errors
/// `Memory` is want of memory.
fn micro_text(alloc: Global, descriptor: &Descriptor, ports: &PortSummary) -> Result<Text, Memory>
    ensures { IfOk result (λ text. text ≡ summaries.micro_text_with descriptor.now ports.now) }
{
    let micro = make(alloc, descriptor, ports)?;
    let mut text = write(alloc, &micro)?;
    text.shrink_to_fit();
    Ok(Text::new(text))
}

/// The text and the digest of the microdescriptor with families of a descriptor and a summary of its exit policy, where there is
/// one, with no more room than it has bytes.
///
/// # Errors
/// `Memory` is want of memory.
fn family_micro(
    alloc: Global,
    descriptor: &Descriptor,
    ports: &PortSummary,
) -> Result<Option<FamilyMicro>, Memory>
    ensures { IfOk result (λ family. family ≡ summaries.family_micro_with descriptor.now ports.now) }
{
    let Some(micro) = make_with_families(alloc, descriptor, ports)? else {
        return Ok(None);
    };
    let mut text = write(alloc, &micro)?;
    text.shrink_to_fit();
    let digest = digest(&text);
    Ok(Some(FamilyMicro {
        text: Text::new(text),
        digest,
    }))
}

/// The same summary, with no more room than its ranges take.
fn fitted(summary: PortSummary) -> PortSummary
    ensures { result ≡ summary }
{
    let accept = summary.accept();
    let mut ranges = summary.into_ranges();
    ranges.shrink_to_fit();
    PortSummary::new(accept, ranges)
}

/// A descriptor that was checked, with the summary of its exit policy, the text and the digest of its microdescriptor, and those
/// of the one with families, where there is one.
///
/// # Errors
/// `Memory` is want of memory.
pub fn prepare<V: Verifier>(
    alloc: Global,
    checked: CheckedDescriptor<V>,
) -> Result<PoolEntry<V>, Memory>
    ensures { IfOk result (λ entry. entry ≡ checked) }
{
    let summary = fitted(summary(alloc, checked.descriptor().policy.items())?);
    let micro = micro_text(alloc, checked.descriptor(), &summary)?;
    let micro_digest = digest(micro.as_bytes());
    let family = family_micro(alloc, checked.descriptor(), &summary)?;
    let descriptor = Snapshot::of(checked.descriptor());
    let prepared = Box::new(
        alloc,
        Prepared {
            kept: kept_of(checked.into_descriptor()),
            summary,
            micro,
            micro_digest,
            family,
        },
    )?;
    Ok(PoolEntry::new(prepared, descriptor))
}
