// Writing a server descriptor.
ghost use Rattle.std.specs.Prelude.{◌≡◌, ◌++◌, IfOk, OnOk, OnErr, take, vec_len};
ghost use Rattle.dirdoc_grammar.specs.Writing.{items_text};
ghost use Rattle.descriptor_text.specs.Texts as texts;

use crate::items::{
    push_addresses, push_certificate_if, push_ed_signature_if, push_family_if, push_fingerprint_if,
    push_hibernating_if, push_key_if, push_mark_if, push_object_if, push_policy, push_summary_if,
    push_uptime_if,
};
use crate::lines::{push_bandwidth, push_router};
use descriptor_doc::Descriptor;
use dir_bytes::Memory;
use frame_terms::Keyword;
use frame_values::{push_bare, push_if, push_timed, push_with_object};
use std::alloc::Global;

/// The relay, and its Ed25519 identity.
#[tactic(auto, using(frame_values::proofs::ItemsTexts::sections))]
fn push_names(
    out: &mut Vec<u8>,
    alloc: Global,
    rest: &mut Vec<u8>,
    descriptor: &Descriptor,
) -> Result<(), Memory>
    ensures ok { OnOk result (out.new.items ≡ out.old.items ++ items_text (texts.name_items descriptor.now)) }
    ensures err { OnErr result (take (vec_len out.old) out.new.items ≡ out.old.items) }
{
    rest.clear();
    push_router(rest, &descriptor.router)?;
    push_bare(out, Keyword::Router, rest)?;
    push_certificate_if(out, alloc, &descriptor.identity_ed25519)?;
    let key = &descriptor.master_key_ed25519;
    push_key_if(out, rest, Keyword::MasterKeyEd25519, key)
}

/// What the relay runs on, when the descriptor was made, and the relay's RSA identity.
#[tactic(auto, using(frame_values::proofs::ItemsTexts::sections))]
fn push_origin(
    out: &mut Vec<u8>,
    alloc: Global,
    rest: &mut Vec<u8>,
    descriptor: &Descriptor,
) -> Result<(), Memory>
    ensures ok { OnOk result (out.new.items ≡ out.old.items ++ items_text (texts.origin_items descriptor.now)) }
    ensures err { OnErr result (take (vec_len out.old) out.new.items ≡ out.old.items) }
{
    push_if(out, Keyword::Platform, &descriptor.platform)?;
    push_timed(out, alloc, Keyword::Published, descriptor.published)?;
    push_fingerprint_if(out, rest, &descriptor.fingerprint)
}

/// For how long the relay runs, what it can carry, and whether it rests.
#[tactic(auto, using(frame_values::proofs::ItemsTexts::sections))]
fn push_state(out: &mut Vec<u8>, rest: &mut Vec<u8>, descriptor: &Descriptor) -> Result<(), Memory>
    ensures ok { OnOk result (out.new.items ≡ out.old.items ++ items_text (texts.state_items descriptor.now)) }
    ensures err { OnErr result (take (vec_len out.old) out.new.items ≡ out.old.items) }
{
    push_uptime_if(out, rest, descriptor.uptime)?;
    rest.clear();
    push_bandwidth(rest, &descriptor.bandwidth)?;
    push_bare(out, Keyword::Bandwidth, rest)?;
    push_hibernating_if(out, descriptor.hibernating)
}

/// The relay's keys.
fn push_keys(out: &mut Vec<u8>, rest: &mut Vec<u8>, descriptor: &Descriptor) -> Result<(), Memory>
    ensures ok { OnOk result (out.new.items ≡ out.old.items ++ items_text (texts.key_items descriptor.now)) }
    ensures err { OnErr result (take (vec_len out.old) out.new.items ≡ out.old.items) }
{
    let words = b"RSA PUBLIC KEY";
    push_object_if(out, Keyword::OnionKey, words, &descriptor.onion_key)?;
    push_with_object(
        out,
        Keyword::SigningKey,
        b"",
        words,
        &descriptor.signing_key,
    )?;
    push_key_if(out, rest, Keyword::NtorOnionKey, &descriptor.ntor_onion_key)?;
    Ok(())
}

/// The relay's exit policy, and the summary of that for IPv6.
fn push_exits(out: &mut Vec<u8>, rest: &mut Vec<u8>, descriptor: &Descriptor) -> Result<(), Memory>
    ensures ok { OnOk result (out.new.items ≡ out.old.items ++ items_text (texts.exit_items descriptor.now)) }
    ensures err { OnErr result (take (vec_len out.old) out.new.items ≡ out.old.items) }
{
    push_policy(out, rest, descriptor.policy.items())?;
    push_summary_if(out, rest, &descriptor.ipv6_policy)?;
    Ok(())
}

/// The relay's family and its further addresses.
#[tactic(auto, using(frame_values::proofs::ItemsTexts::sections))]
fn push_reached(
    out: &mut Vec<u8>,
    rest: &mut Vec<u8>,
    descriptor: &Descriptor,
) -> Result<(), Memory>
    ensures ok { OnOk result (out.new.items ≡ out.old.items ++ items_text (texts.address_items descriptor.now)) }
    ensures err { OnErr result (take (vec_len out.old) out.new.items ≡ out.old.items) }
{
    push_family_if(out, rest, &descriptor.family)?;
    push_addresses(out, descriptor.or_addresses.as_slice())
}

/// Whether the relay answers directory requests over its onion routing port, its protocols and its operator.
#[tactic(auto, using(frame_values::proofs::ItemsTexts::sections))]
fn push_service(out: &mut Vec<u8>, descriptor: &Descriptor) -> Result<(), Memory>
    ensures ok { OnOk result (out.new.items ≡ out.old.items ++ items_text (texts.service_items descriptor.now)) }
    ensures err { OnErr result (take (vec_len out.old) out.new.items ≡ out.old.items) }
{
    let answers = descriptor.tunnelled_dir_server;
    push_mark_if(out, Keyword::TunnelledDirServer, answers)?;
    push_if(out, Keyword::Proto, &descriptor.proto)?;
    push_if(out, Keyword::Contact, &descriptor.contact)
}

/// The signatures.
fn push_signatures(
    out: &mut Vec<u8>,
    rest: &mut Vec<u8>,
    descriptor: &Descriptor,
) -> Result<(), Memory>
    ensures ok { OnOk result (out.new.items ≡ out.old.items ++ items_text (texts.signature_items descriptor.now)) }
    ensures err { OnErr result (take (vec_len out.old) out.new.items ≡ out.old.items) }
{
    push_ed_signature_if(out, rest, &descriptor.router_sig_ed25519)?;
    push_with_object(
        out,
        Keyword::RouterSignature,
        b"",
        b"SIGNATURE",
        &descriptor.router_signature,
    )?;
    Ok(())
}

/// The items before the exit policy.
fn push_front(
    out: &mut Vec<u8>,
    alloc: Global,
    rest: &mut Vec<u8>,
    descriptor: &Descriptor,
) -> Result<(), Memory>
    ensures ok { OnOk result (out.new.items ≡ out.old.items ++ items_text (texts.front_items descriptor.now)) }
    ensures err { OnErr result (take (vec_len out.old) out.new.items ≡ out.old.items) }
{
    push_names(out, alloc, rest, descriptor)?;
    push_origin(out, alloc, rest, descriptor)?;
    push_state(out, rest, descriptor)?;
    push_keys(out, rest, descriptor)?;
    Ok(())
}

/// The items from the exit policy on.
fn push_back(out: &mut Vec<u8>, rest: &mut Vec<u8>, descriptor: &Descriptor) -> Result<(), Memory>
    ensures ok { OnOk result (out.new.items ≡ out.old.items ++ items_text (texts.back_items descriptor.now)) }
    ensures err { OnErr result (take (vec_len out.old) out.new.items ≡ out.old.items) }
{
    push_exits(out, rest, descriptor)?;
    push_reached(out, rest, descriptor)?;
    push_service(out, descriptor)?;
    push_signatures(out, rest, descriptor)?;
    Ok(())
}

/// The canonical text of a server descriptor that says this (dir-spec, "Server descriptor format"): its items in the order
/// of the table, with single spaces, numbers without leading zeros, digits in upper case, base64 without `=`, objects in
/// lines of 64; the items of the exit policy in their order. A moment past the calendar is written as its last one. What is
/// computed from a text that was read does not matter: `identity`, `digest`, `text`, and what an Ed25519 signature is made
/// over. Of an Ed25519 certificate what its bytes say does not matter, but `covered` and the signature.
///
/// # Errors
/// `Memory` is want of memory.
pub fn write(alloc: Global, descriptor: &Descriptor) -> Result<Vec<u8>, Memory>
    ensures { IfOk result (λ text. text.items ≡ texts.descriptor_text descriptor.now) }
{
    let mut out = Vec::new(alloc);
    let mut rest = Vec::new(alloc);
    push_front(&mut out, alloc, &mut rest, descriptor)?;
    push_back(&mut out, &mut rest, descriptor)?;
    Ok(out)
}
