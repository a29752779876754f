// Writing a vote.
ghost use Rattle.std.specs.Prelude.{◌≡◌, ◌++◌, IfOk, OnOk, OnErr, take, vec_len, option_map};
ghost use Rattle.dirdoc_grammar.specs.Writing.{item_text, items_text};
ghost use Rattle.dir_values.specs.Numbers.{numbers_text};
ghost use Rattle.frame_values.specs.Items as items;
ghost use Rattle.authority_certs.specs.Texts.{cert_text};
ghost use Rattle.value_groups.specs.Values.{random_text};
ghost use Rattle.vote_text.specs.Texts as texts;

use crate::entry::push_entries;
use crate::lists::{push_params, push_protocols, push_versions};
use authority_certs::Cert;
use dir_bytes::{Memory, push_address, push_decimal, push_hex_upper};
use dir_values::{Algorithm, push_numbers};
use frame_terms::Keyword;
use frame_values::{push_bare, push_if, push_timed, push_with_object};
use std::alloc::Global;
use value_groups::SharedRandom;
use vote_terms::{SignatureFacts, VoteFacts};

/// The item of a vote's methods, where it names them.
fn push_methods(out: &mut Vec<u8>, alloc: Global, facts: &VoteFacts) -> Result<(), Memory>
    ensures ok { OnOk result (out.new.items ≡ out.old.items ++ items_text (items.item_if Keyword.ConsensusMethods (option_map numbers_text facts.now.methods))) }
    ensures err { OnErr result (take (vec_len out.old) out.new.items ≡ out.old.items) }
{
    let Some(methods) = &facts.methods else {
        return Ok(());
    };
    let mut rest = Vec::new(alloc);
    push_numbers(&mut rest, methods.as_slice())?;
    push_bare(out, Keyword::ConsensusMethods, &rest)
}

/// What the document is, and its methods.
fn push_kind(out: &mut Vec<u8>, alloc: Global, facts: &VoteFacts) -> Result<(), Memory>
    ensures ok { OnOk result (out.new.items ≡ out.old.items ++ items_text (texts.kind_items facts.now)) }
    ensures err { OnErr result (take (vec_len out.old) out.new.items ≡ out.old.items) }
{
    push_bare(out, Keyword::NetworkStatusVersion, b"3")?;
    push_bare(out, Keyword::VoteStatus, b"vote")?;
    push_methods(out, alloc, facts)
}

/// The item of the two delays.
fn push_delays(out: &mut Vec<u8>, alloc: Global, facts: &VoteFacts) -> Result<(), Memory>
    ensures ok { OnOk result (out.new.items ≡ out.old.items ++ item_text (items.bare Keyword.VotingDelay (texts.delays_text facts.now))) }
    ensures err { OnErr result (take (vec_len out.old) out.new.items ≡ out.old.items) }
{
    let mut rest = Vec::new(alloc);
    push_decimal(&mut rest, facts.vote_seconds as u64)?;
    rest.push(b' ')?;
    push_decimal(&mut rest, facts.dist_seconds as u64)?;
    push_bare(out, Keyword::VotingDelay, &rest)
}

/// The times.
fn push_times(out: &mut Vec<u8>, alloc: Global, facts: &VoteFacts) -> Result<(), Memory>
    ensures ok { OnOk result (out.new.items ≡ out.old.items ++ items_text (texts.time_items facts.now)) }
    ensures err { OnErr result (take (vec_len out.old) out.new.items ≡ out.old.items) }
{
    push_timed(out, alloc, Keyword::Published, facts.published)?;
    push_timed(out, alloc, Keyword::ValidAfter, facts.valid_after)?;
    push_timed(out, alloc, Keyword::FreshUntil, facts.fresh_until)?;
    push_timed(out, alloc, Keyword::ValidUntil, facts.valid_until)?;
    push_delays(out, alloc, facts)?;
    Ok(())
}

/// The flags.
fn push_flags(out: &mut Vec<u8>, alloc: Global, facts: &VoteFacts) -> Result<(), Memory>
    ensures ok { OnOk result (out.new.items ≡ out.old.items ++ items_text (texts.flag_items facts.now)) }
    ensures err { OnErr result (take (vec_len out.old) out.new.items ≡ out.old.items) }
{
    let mut rest = Vec::new(alloc);
    facts.known_flags.push(&mut rest)?;
    push_bare(out, Keyword::KnownFlags, &rest)?;
    push_if(out, Keyword::FlagThresholds, &facts.flag_thresholds)
}

/// The preamble.
pub(crate) fn push_preamble(
    out: &mut Vec<u8>,
    alloc: Global,
    facts: &VoteFacts,
) -> Result<(), Memory>
    ensures ok { OnOk result (out.new.items ≡ out.old.items ++ items_text (texts.preamble_items facts.now)) }
    ensures err { OnErr result (take (vec_len out.old) out.new.items ≡ out.old.items) }
{
    push_kind(out, alloc, facts)?;
    push_times(out, alloc, facts)?;
    push_versions(out, alloc, &facts.lists)?;
    push_flags(out, alloc, facts)?;
    push_protocols(out, alloc, &facts.lists)?;
    push_params(out, alloc, &facts.lists.params)?;
    Ok(())
}

/// The authority's names.
fn push_names(rest: &mut Vec<u8>, facts: &VoteFacts) -> Result<(), Memory>
    ensures ok { OnOk result (rest.new.items ≡ rest.old.items ++ texts.names_text facts.now) }
    ensures err { OnErr result (take (vec_len rest.old) rest.new.items ≡ rest.old.items) }
{
    rest.extend_from_slice(facts.nickname.as_bytes())?;
    rest.push(b' ')?;
    push_hex_upper(rest, &facts.identity.0)?;
    rest.push(b' ')?;
    rest.extend_from_slice(facts.address.as_bytes())?;
    Ok(())
}

/// The authority's IPv4 address and ports.
fn push_ports(rest: &mut Vec<u8>, facts: &VoteFacts) -> Result<(), Memory>
    ensures ok { OnOk result (rest.new.items ≡ rest.old.items ++ texts.ports_text facts.now) }
    ensures err { OnErr result (take (vec_len rest.old) rest.new.items ≡ rest.old.items) }
{
    push_address(rest, facts.ip)?;
    rest.push(b' ')?;
    push_decimal(rest, facts.dir_port as u64)?;
    rest.push(b' ')?;
    push_decimal(rest, facts.or_port as u64)
}

/// Who the authority is.
fn push_source(rest: &mut Vec<u8>, facts: &VoteFacts) -> Result<(), Memory>
    ensures ok { OnOk result (rest.new.items ≡ rest.old.items ++ texts.source_text facts.now) }
    ensures err { OnErr result (take (vec_len rest.old) rest.new.items ≡ rest.old.items) }
{
    push_names(rest, facts)?;
    rest.push(b' ')?;
    push_ports(rest, facts)
}

/// The item of a shared random value, where there is one.
fn push_random_if(
    out: &mut Vec<u8>,
    alloc: Global,
    keyword: Keyword,
    random: &Option<SharedRandom>,
) -> Result<(), Memory>
    ensures ok { OnOk result (out.new.items ≡ out.old.items ++ items_text (items.item_if keyword (option_map random_text random.now))) }
    ensures err { OnErr result (take (vec_len out.old) out.new.items ≡ out.old.items) }
{
    let Some(random) = random else {
        return Ok(());
    };
    let mut rest = Vec::new(alloc);
    random.push(&mut rest)?;
    push_bare(out, keyword, &rest)
}

/// The shared random values.
fn push_randoms(out: &mut Vec<u8>, alloc: Global, facts: &VoteFacts) -> Result<(), Memory>
    ensures ok { OnOk result (out.new.items ≡ out.old.items ++ items_text (texts.random_items facts.now)) }
    ensures err { OnErr result (take (vec_len out.old) out.new.items ≡ out.old.items) }
{
    push_random_if(
        out,
        alloc,
        Keyword::SharedRandPreviousValue,
        &facts.random_previous,
    )?;
    push_random_if(
        out,
        alloc,
        Keyword::SharedRandCurrentValue,
        &facts.random_current,
    )
}

/// The authority, and the shared random values.
pub(crate) fn push_authority(
    out: &mut Vec<u8>,
    alloc: Global,
    facts: &VoteFacts,
) -> Result<(), Memory>
    ensures ok { OnOk result (out.new.items ≡ out.old.items ++ items_text (texts.authority_items facts.now)) }
    ensures err { OnErr result (take (vec_len out.old) out.new.items ≡ out.old.items) }
{
    let mut rest = Vec::new(alloc);
    push_source(&mut rest, facts)?;
    push_bare(out, Keyword::DirSource, &rest)?;
    push_if(out, Keyword::Contact, &facts.contact)?;
    push_randoms(out, alloc, facts)
}

/// The authority's certificate.
fn push_certificate(out: &mut Vec<u8>, alloc: Global, cert: &Cert) -> Result<(), Memory>
    ensures ok { OnOk result (out.new.items ≡ out.old.items ++ cert_text cert.now) }
    ensures err { OnErr result (take (vec_len out.old) out.new.items ≡ out.old.items) }
{
    let text = authority_certs::write(alloc, cert)?;
    out.extend_from_slice(&text)?;
    Ok(())
}

/// The name of an algorithm and a space; SHA-1 is not named.
fn algorithm_text(algorithm: Algorithm) -> &'static [u8]
    ensures { result.now ≡ texts.algorithm_text algorithm }
{
    match algorithm {
        Algorithm::Sha1 => b"",
        Algorithm::Sha256 => b"sha256 ",
    }
}

/// By whom a vote is signed, and with which key.
fn push_signer(rest: &mut Vec<u8>, signature: &SignatureFacts) -> Result<(), Memory>
    ensures ok { OnOk result (rest.new.items ≡ rest.old.items ++ texts.signer_text signature.now) }
    ensures err { OnErr result (take (vec_len rest.old) rest.new.items ≡ rest.old.items) }
{
    rest.extend_from_slice(algorithm_text(signature.algorithm))?;
    push_hex_upper(rest, &signature.identity.0)?;
    rest.push(b' ')?;
    push_hex_upper(rest, &signature.key_digest.0)
}

/// The footer.
fn push_footer(out: &mut Vec<u8>, alloc: Global, signature: &SignatureFacts) -> Result<(), Memory>
    ensures ok { OnOk result (out.new.items ≡ out.old.items ++ items_text (texts.footer_items signature.now)) }
    ensures err { OnErr result (take (vec_len out.old) out.new.items ≡ out.old.items) }
{
    push_bare(out, Keyword::DirectoryFooter, b"")?;
    let mut rest = Vec::new(alloc);
    push_signer(&mut rest, signature)?;
    push_with_object(
        out,
        Keyword::DirectorySignature,
        &rest,
        b"SIGNATURE",
        &signature.signature,
    )?;
    Ok(())
}

/// The canonical text of a vote that says this: its items in the order of dir-spec's tables, with single spaces, flags
/// by their bytes, numbers without leading zeros, digits in upper case, objects in lines of 64. A moment past the
/// calendar is written as its last one.
///
/// # Errors
/// `Memory` is want of memory.
#[tactic(auto, using(frame_values::proofs::ItemsTexts::sections))]
pub fn write(alloc: Global, facts: &VoteFacts) -> Result<Vec<u8>, Memory>
    ensures { IfOk result (λ text. text.items ≡ texts.vote_text facts.now) }
{
    let mut out = Vec::new(alloc);
    push_preamble(&mut out, alloc, facts)?;
    push_authority(&mut out, alloc, facts)?;
    push_certificate(&mut out, alloc, &facts.certificate)?;
    let mut rest = Vec::new(alloc);
    push_entries(&mut out, &mut rest, facts.entries.as_slice())?;
    push_footer(&mut out, alloc, &facts.signature)?;
    Ok(out)
}
