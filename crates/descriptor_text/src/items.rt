// Writing the items of a server descriptor that may be left out or stand several times. Each line is put together in one
// vector, `rest`, which is used again and again.
ghost use Rattle.std.specs.{Prelude.{◌≡◌, ◌++◌, IfOk, OnOk, OnErr, codes, map, option_map, take, vec_len}, Fmt.decimal};
ghost use Rattle.dir_bytes.specs.FieldTexts.{base64_text};
ghost use Rattle.dir_values.specs.Ports.{summary_text};
ghost use Rattle.dirdoc_grammar.specs.Writing.{items_text};
ghost use Rattle.frame_values.specs.Items as items;
ghost use Rattle.descriptor_text.specs.Lines as lines;
ghost use Rattle.descriptor_text.specs.Texts as texts;

use crate::lines::{hibernating_text, push_groups};
use descriptor_doc::{EdCert, EdSignature};
use descriptor_frame::push_names;
use dir_bytes::{Memory, Seq, Text, push_base64, push_decimal};
use dir_values::{Fingerprint, PolicyItem, PortSummary};
use exit_summary::push_item;
use frame_terms::Keyword;
use frame_values::{push_bare, push_with_object};
use std::alloc::Global;

/// The item of an object, where there is one.
pub(crate) fn push_object_if(
    out: &mut Vec<u8>,
    keyword: Keyword,
    words: &[u8],
    bytes: &Option<Text>,
) -> Result<(), Memory>
    ensures ok { OnOk result (out.new.items ≡ out.old.items ++ items_text (texts.object_if keyword words.now bytes.now)) }
    ensures err { OnErr result (take (vec_len out.old) out.new.items ≡ out.old.items) }
{
    match bytes {
        Some(bytes) => push_with_object(out, keyword, b"", words, bytes),
        None => Ok(()),
    }
}

/// The bytes of an Ed25519 certificate.
fn certificate_bytes(alloc: Global, certificate: &EdCert) -> Result<Text, Memory>
    ensures { IfOk result (λ bytes. bytes ≡ texts.certificate_bytes certificate.now) }
{
    let mut bytes = Vec::new(alloc);
    bytes.extend_from_slice(certificate.covered.as_bytes())?;
    bytes.extend_from_slice(&certificate.signature)?;
    Ok(Text::new(bytes))
}

/// The item of an Ed25519 certificate, where there is one.
pub(crate) fn push_certificate_if(
    out: &mut Vec<u8>,
    alloc: Global,
    certificate: &Option<EdCert>,
) -> Result<(), Memory>
    ensures ok { OnOk result (out.new.items ≡ out.old.items ++ items_text (texts.object_if Keyword.IdentityEd25519 (codes "ED25519 CERT") (option_map texts.certificate_bytes certificate.now))) }
    ensures err { OnErr result (take (vec_len out.old) out.new.items ≡ out.old.items) }
{
    let Some(certificate) = certificate else {
        return Ok(());
    };
    let bytes = certificate_bytes(alloc, certificate)?;
    let words = b"ED25519 CERT";
    push_with_object(out, Keyword::IdentityEd25519, b"", words, &bytes)?;
    Ok(())
}

/// The item of a key of 32 bytes, where there is one.
pub(crate) fn push_key_if(
    out: &mut Vec<u8>,
    rest: &mut Vec<u8>,
    keyword: Keyword,
    key: &Option<[u8; 32]>,
) -> Result<(), Memory>
    ensures ok { OnOk result (out.new.items ≡ out.old.items ++ items_text (items.item_if keyword (option_map base64_text key.now))) }
    ensures err { OnErr result (take (vec_len out.old) out.new.items ≡ out.old.items) }
{
    let Some(key) = key else {
        return Ok(());
    };
    rest.clear();
    push_base64(rest, key)?;
    push_bare(out, keyword, rest)
}

/// The item of an identity, where it is said.
pub(crate) fn push_fingerprint_if(
    out: &mut Vec<u8>,
    rest: &mut Vec<u8>,
    identity: &Option<Fingerprint>,
) -> Result<(), Memory>
    ensures ok { OnOk result (out.new.items ≡ out.old.items ++ items_text (items.item_if Keyword.Fingerprint (option_map lines.groups_text identity.now))) }
    ensures err { OnErr result (take (vec_len out.old) out.new.items ≡ out.old.items) }
{
    let Some(identity) = identity else {
        return Ok(());
    };
    rest.clear();
    push_groups(rest, identity)?;
    push_bare(out, Keyword::Fingerprint, rest)
}

/// The item of the seconds for which a relay runs, where they are said.
pub(crate) fn push_uptime_if(
    out: &mut Vec<u8>,
    rest: &mut Vec<u8>,
    uptime: Option<u64>,
) -> Result<(), Memory>
    ensures ok { OnOk result (out.new.items ≡ out.old.items ++ items_text (items.item_if Keyword.Uptime (option_map decimal uptime))) }
    ensures err { OnErr result (take (vec_len out.old) out.new.items ≡ out.old.items) }
{
    let Some(seconds) = uptime else {
        return Ok(());
    };
    rest.clear();
    push_decimal(rest, seconds)?;
    push_bare(out, Keyword::Uptime, rest)
}

/// The item that says whether a relay rests, where it is said.
pub(crate) fn push_hibernating_if(
    out: &mut Vec<u8>,
    hibernating: Option<bool>,
) -> Result<(), Memory>
    ensures ok { OnOk result (out.new.items ≡ out.old.items ++ items_text (items.item_if Keyword.Hibernating (option_map lines.hibernating_text hibernating))) }
    ensures err { OnErr result (take (vec_len out.old) out.new.items ≡ out.old.items) }
{
    match hibernating {
        Some(rests) => push_bare(out, Keyword::Hibernating, hibernating_text(rests)),
        None => Ok(()),
    }
}

/// What an item of a policy does.
fn policy_keyword(accept: bool) -> Keyword
    ensures { result ≡ texts.policy_keyword accept }
{
    if accept {
        Keyword::Accept
    } else {
        Keyword::Reject
    }
}

/// The items of an exit policy.
pub(crate) fn push_policy(
    out: &mut Vec<u8>,
    rest: &mut Vec<u8>,
    policy: &[PolicyItem],
) -> Result<(), Memory>
    ensures ok { OnOk result (out.new.items ≡ out.old.items ++ items_text (map texts.policy_item policy.now)) }
    ensures err { OnErr result (take (vec_len out.old) out.new.items ≡ out.old.items) }
{
    'policy: for item in policy {
        rest.clear();
        push_item(rest, *item)?;
        push_bare(out, policy_keyword(item.accept), rest)?;
    }
    Ok(())
}

/// The item of a summary of ports, where there is one.
pub(crate) fn push_summary_if(
    out: &mut Vec<u8>,
    rest: &mut Vec<u8>,
    summary: &Option<PortSummary>,
) -> Result<(), Memory>
    ensures ok { OnOk result (out.new.items ≡ out.old.items ++ items_text (items.item_if Keyword.Ipv6Policy (option_map summary_text summary.now))) }
    ensures err { OnErr result (take (vec_len out.old) out.new.items ≡ out.old.items) }
{
    let Some(summary) = summary else {
        return Ok(());
    };
    rest.clear();
    summary.push(rest)?;
    push_bare(out, Keyword::Ipv6Policy, rest)
}

/// The item of a family, where it is said.
pub(crate) fn push_family_if(
    out: &mut Vec<u8>,
    rest: &mut Vec<u8>,
    family: &Option<Seq<Text>>,
) -> Result<(), Memory>
    ensures ok { OnOk result (out.new.items ≡ out.old.items ++ items_text (items.item_if Keyword.Family (option_map lines.family_text family.now))) }
    ensures err { OnErr result (take (vec_len out.old) out.new.items ≡ out.old.items) }
{
    let Some(family) = family else {
        return Ok(());
    };
    rest.clear();
    push_names(rest, family.as_slice())?;
    push_bare(out, Keyword::Family, rest)
}

/// The items of further addresses.
pub(crate) fn push_addresses(out: &mut Vec<u8>, addresses: &[Text]) -> Result<(), Memory>
    ensures ok { OnOk result (out.new.items ≡ out.old.items ++ items_text (map (items.bare Keyword.OrAddress) addresses.now)) }
    ensures err { OnErr result (take (vec_len out.old) out.new.items ≡ out.old.items) }
{
    'addresses: for address in addresses {
        push_bare(out, Keyword::OrAddress, address.as_bytes())?;
    }
    Ok(())
}

/// An item without arguments, where something holds.
pub(crate) fn push_mark_if(out: &mut Vec<u8>, keyword: Keyword, holds: bool) -> Result<(), Memory>
    ensures ok { OnOk result (out.new.items ≡ out.old.items ++ items_text (texts.mark_if keyword holds)) }
    ensures err { OnErr result (take (vec_len out.old) out.new.items ≡ out.old.items) }
{
    if holds {
        push_bare(out, keyword, b"")
    } else {
        Ok(())
    }
}

/// The item of an Ed25519 signature, where there is one.
pub(crate) fn push_ed_signature_if(
    out: &mut Vec<u8>,
    rest: &mut Vec<u8>,
    signature: &Option<EdSignature>,
) -> Result<(), Memory>
    ensures ok { OnOk result (out.new.items ≡ out.old.items ++ items_text (items.item_if Keyword.RouterSigEd25519 (option_map lines.ed_signature_text signature.now))) }
    ensures err { OnErr result (take (vec_len out.old) out.new.items ≡ out.old.items) }
{
    let Some(signature) = signature else {
        return Ok(());
    };
    rest.clear();
    push_base64(rest, &signature.signature)?;
    push_bare(out, Keyword::RouterSigEd25519, rest)
}
