// Writing what a vote says of relays. Each line is put together in one vector, `rest`, which is used again and again.
ghost use Rattle.std.specs.Prelude.{◌≡◌, ◌++◌, OnOk, OnErr, take, vec_len, option_map};
ghost use Rattle.dirdoc_grammar.specs.Writing.{items_text};
ghost use Rattle.frame_values.specs.Items as items;
ghost use Rattle.relay_entries.specs.Texts.{bandwidths_text, ed_text};
ghost use Rattle.vote_text.specs.Entries as texts;

use dir_bytes::{Memory, Text, push_base64};
use frame_terms::Keyword;
use frame_values::{push_bare, push_if};
use relay_entries::{Bandwidths, EdOpinion, push_bandwidths, push_micro, push_named, push_reached};
use vote_terms::{EntryFacts, MicroFacts};

/// The item of the relay itself.
fn push_relay(out: &mut Vec<u8>, rest: &mut Vec<u8>, entry: &EntryFacts) -> Result<(), Memory>
    ensures ok { OnOk result (out.new.items ≡ out.old.items ++ items_text (texts.relay_items entry.now)) }
    ensures err { OnErr result (take (vec_len out.old) out.new.items ≡ out.old.items) }
{
    rest.clear();
    push_named(rest, entry.nickname.as_bytes(), &entry.identity)?;
    rest.push(b' ')?;
    entry.digest.push(rest)?;
    rest.push(b' ')?;
    push_reached(
        rest,
        entry.published,
        entry.ip,
        entry.or_port,
        entry.dir_port,
    )?;
    push_bare(out, Keyword::R, rest)
}

/// An item for each text.
fn push_each(out: &mut Vec<u8>, keyword: Keyword, list: &[Text]) -> Result<(), Memory>
    ensures ok { OnOk result (out.new.items ≡ out.old.items ++ items_text (texts.items_each keyword list.now)) }
    ensures err { OnErr result (take (vec_len out.old) out.new.items ≡ out.old.items) }
{
    'texts: for text in list {
        push_bare(out, keyword, text.as_bytes())?;
    }
    Ok(())
}

/// The item of the flags.
fn push_flags(out: &mut Vec<u8>, rest: &mut Vec<u8>, entry: &EntryFacts) -> Result<(), Memory>
    ensures ok { OnOk result (out.new.items ≡ out.old.items ++ items_text (texts.flag_items entry.now)) }
    ensures err { OnErr result (take (vec_len out.old) out.new.items ≡ out.old.items) }
{
    rest.clear();
    entry.flags.push(rest)?;
    push_bare(out, Keyword::S, rest)
}

/// The item of the bandwidths, where there are any.
fn push_bandwidths_if(
    out: &mut Vec<u8>,
    rest: &mut Vec<u8>,
    bandwidths: Option<Bandwidths>,
) -> Result<(), Memory>
    ensures ok { OnOk result (out.new.items ≡ out.old.items ++ items_text (items.item_if Keyword.W (option_map bandwidths_text bandwidths))) }
    ensures err { OnErr result (take (vec_len out.old) out.new.items ≡ out.old.items) }
{
    let Some(w) = bandwidths else {
        return Ok(());
    };
    rest.clear();
    push_bandwidths(rest, w)?;
    push_bare(out, Keyword::W, rest)
}

/// The items of the microdescriptors.
fn push_micros(out: &mut Vec<u8>, rest: &mut Vec<u8>, lines: &[MicroFacts]) -> Result<(), Memory>
    ensures ok { OnOk result (out.new.items ≡ out.old.items ++ items_text (texts.micro_items lines.now)) }
    ensures err { OnErr result (take (vec_len out.old) out.new.items ≡ out.old.items) }
{
    'lines: for line in lines {
        rest.clear();
        push_micro(rest, line.methods.as_slice(), line.digest)?;
        push_bare(out, Keyword::M, rest)?;
    }
    Ok(())
}

/// The item of the opinion of its Ed25519 identity, where there is one.
fn push_ed(out: &mut Vec<u8>, rest: &mut Vec<u8>, opinion: &EdOpinion) -> Result<(), Memory>
    ensures ok { OnOk result (out.new.items ≡ out.old.items ++ items_text (items.item_if Keyword.Id (ed_text opinion.now))) }
    ensures err { OnErr result (take (vec_len out.old) out.new.items ≡ out.old.items) }
{
    match opinion {
        EdOpinion::Absent => Ok(()),
        EdOpinion::None => push_bare(out, Keyword::Id, b"ed25519 none"),
        EdOpinion::Key(key) => {
            rest.clear();
            rest.extend_from_slice(b"ed25519 ")?;
            push_base64(rest, key)?;
            push_bare(out, Keyword::Id, rest)
        }
    }
}

/// The items of an entry, one after the other.
fn push_entry(out: &mut Vec<u8>, rest: &mut Vec<u8>, entry: &EntryFacts) -> Result<(), Memory>
    ensures ok { OnOk result (out.new.items ≡ out.old.items ++ items_text (texts.entry_items entry.now)) }
    ensures err { OnErr result (take (vec_len out.old) out.new.items ≡ out.old.items) }
{
    push_relay(out, rest, entry)?;
    push_each(out, Keyword::A, entry.addresses.as_slice())?;
    push_flags(out, rest, entry)?;
    push_if(out, Keyword::V, &entry.version)?;
    push_if(out, Keyword::Pr, &entry.protocols)?;
    push_bandwidths_if(out, rest, entry.bandwidths)?;
    push_if(out, Keyword::P, &entry.policy)?;
    push_micros(out, rest, entry.micros.as_slice())?;
    push_ed(out, rest, &entry.ed)?;
    Ok(())
}

/// Appends the items of entries, one after the other.
pub fn push_entries(
    out: &mut Vec<u8>,
    rest: &mut Vec<u8>,
    entries: &[EntryFacts],
) -> Result<(), Memory>
    ensures ok { OnOk result (out.new.items ≡ out.old.items ++ items_text (texts.entries_items entries.now)) }
    ensures err { OnErr result (take (vec_len out.old) out.new.items ≡ out.old.items) }
{
    'entries: for entry in entries {
        push_entry(out, rest, entry)?;
    }
    Ok(())
}
