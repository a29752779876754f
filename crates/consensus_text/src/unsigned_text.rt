// The text of a consensus without its signatures, and how long it is.
ghost use Rattle.std.specs.Prelude.{◌≡◌, ◌+◌, ◌≤◌, ◌++◌, IfOk, length, vec_len, vec_capacity};
ghost use Rattle.text_page.specs.Pages.{counted_length};
ghost use Rattle.consensus_terms.specs.{Moments.HasMoments, declared.flavour.Flavour.TheVariants.{Ns, Microdesc}};
ghost use Rattle.consensus_terms.specs.Texts as texts;

use crate::body::put_unsigned;
use consensus_terms::{Consensus, Flavour};
use dir_bytes::Memory;
use std::alloc::Global;
use std::mem;
use text_page::Page;

/// How many bytes the text of a consensus has without signatures, in a flavour. None where it has 2^64 or more. It takes no
/// memory.
#[tactic(auto, using(text_page::proofs::Pages::whole))]
pub fn unsigned_len(consensus: &Consensus, flavour: Flavour) -> Option<usize>
    requires { HasMoments consensus.now.facts }
    ensures { result ≡ counted_length (texts.unsigned flavour consensus.now) }
{
    let mut page = Page::counting();
    put_unsigned(&mut page, flavour, consensus);
    page.count()
}

/// Appends the text of a consensus without signatures, in a flavour (dir-spec, "Vote and consensus status document
/// formats"), for which there is room. It takes no memory.
#[tactic(auto, using(text_page::proofs::Pages::whole))]
pub fn write_unsigned(consensus: &Consensus, flavour: Flavour, out: &mut Vec<u8>)
    requires moments { HasMoments consensus.now.facts }
    requires room { vec_len out.old + length (texts.unsigned flavour consensus.now) ≤ vec_capacity out.old }
    ensures text { out.new.items ≡ out.old.items ++ texts.unsigned flavour consensus.now }
    ensures capacity { vec_capacity out.old ≤ vec_capacity out.new }
{
    let empty = Vec::new(*out.allocator());
    let mut page = Page::filling(mem::replace(out, empty));
    put_unsigned(&mut page, flavour, consensus);
    match page.into_bytes() {
        Some(bytes) => *out = bytes,
        None => unreachable!(),
    }
}

/// The text of a consensus without signatures, in a flavour. Memory is reserved once, for the whole text.
///
/// # Errors
/// `Memory` is want of memory.
pub fn unsigned(alloc: Global, consensus: &Consensus, flavour: Flavour) -> Result<Vec<u8>, Memory>
    requires { HasMoments consensus.now.facts }
    ensures { IfOk result (λ text. text.items ≡ texts.unsigned flavour consensus.now) }
{
    let Some(count) = unsigned_len(consensus, flavour) else {
        return Err(Memory);
    };
    let mut text = Vec::new(alloc);
    text.try_reserve(count)?;
    write_unsigned(consensus, flavour, &mut text);
    Ok(text)
}

/// The texts of a consensus without signatures in both flavours, the ns flavour first. Memory is reserved once, for both.
///
/// # Errors
/// `Memory` is want of memory.
pub fn unsigned_both(alloc: Global, consensus: &Consensus) -> Result<Vec<u8>, Memory>
    requires { HasMoments consensus.now.facts }
    ensures { IfOk result (λ text. text.items ≡ texts.unsigned Ns consensus.now ++ texts.unsigned Microdesc consensus.now) }
{
    let Some(count) = len_of_both(consensus) else {
        return Err(Memory);
    };
    let mut text = Vec::new(alloc);
    text.try_reserve(count)?;
    write_unsigned(consensus, Flavour::Ns, &mut text);
    write_unsigned(consensus, Flavour::Microdesc, &mut text);
    Ok(text)
}

/// How many bytes the texts of both flavours have. None where they have 2^64 or more.
fn len_of_both(consensus: &Consensus) -> Option<usize>
    requires { HasMoments consensus.now.facts }
    ensures { result ≡ counted_length (texts.unsigned Ns consensus.now ++ texts.unsigned Microdesc consensus.now) }
{
    let mut page = Page::counting();
    put_unsigned(&mut page, Flavour::Ns, consensus);
    put_unsigned(&mut page, Flavour::Microdesc, consensus);
    page.count()
}
