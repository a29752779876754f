// The lines of a relay.
ghost use Rattle.std.specs.{Prelude.{◌≡◌, ◌++◌, OnOk}, List.flat_map};
ghost use Rattle.health_report.specs.Lines as lines;

use crate::lines::push_identity;
use crate::opinion::Opinion;
use crate::opinions::flags_set;
use dir_bytes::{Memory, Text, push_hex_upper};
use std::alloc::Global;

/// Appends the authorities of opinions.
fn push_authorities(out: &mut Vec<u8>, opinions: &[Opinion]) -> Result<(), Memory>
    ensures { OnOk result (out.new.items ≡ out.old.items ++ flat_map lines.authority_word opinions.now) }
{
    'opinions: for opinion in opinions {
        push_identity(out, &opinion.authority.0)?;
    }
    Ok(())
}

/// Appends the authority of an opinion that sets a flag.
fn push_if_set(out: &mut Vec<u8>, opinion: &Opinion, flag: &[u8]) -> Result<(), Memory>
    ensures { OnOk result (out.new.items ≡ out.old.items ++ lines.setting_word flag.now opinion.now) }
{
    if opinion.flags.contains(flag) {
        return push_identity(out, &opinion.authority.0);
    }
    Ok(())
}

/// Appends the authorities of the opinions that set a flag.
fn push_setting(out: &mut Vec<u8>, opinions: &[Opinion], flag: &[u8]) -> Result<(), Memory>
    ensures { OnOk result (out.new.items ≡ out.old.items ++ flat_map (lines.setting_word flag.now) opinions.now) }
{
    'opinions: for opinion in opinions {
        push_if_set(out, opinion, flag)?;
    }
    Ok(())
}

/// Whether the consensus lists a relay, as a word.
fn state_word(listed: bool) -> &'static [u8]
    ensures { result.now ≡ lines.state_word listed }
{
    if listed { b" in" } else { b" out" }
}

/// Appends the line of a relay.
#[tactic(auto, unfolding(crate::specs::Lines::relay_line))]
fn push_relay_line(
    out: &mut Vec<u8>,
    listed: bool,
    identity: &[u8],
    opinions: &[Opinion],
) -> Result<(), Memory>
    ensures { OnOk result (out.new.items ≡ out.old.items ++ lines.relay_line listed identity.now opinions.now) }
{
    out.extend_from_slice(b"relay ")?;
    push_hex_upper(out, identity)?;
    out.extend_from_slice(state_word(listed))?;
    push_authorities(out, opinions)?;
    out.push(b'\n')?;
    Ok(())
}

/// Appends the line of a flag of a relay.
#[tactic(auto, unfolding(crate::specs::Lines::flag_line))]
fn push_flag(
    out: &mut Vec<u8>,
    identity: &[u8],
    opinions: &[Opinion],
    flag: &[u8],
) -> Result<(), Memory>
    ensures { OnOk result (out.new.items ≡ out.old.items ++ lines.flag_line identity.now opinions.now flag.now) }
{
    out.extend_from_slice(b"flag ")?;
    push_hex_upper(out, identity)?;
    out.push(b' ')?;
    out.extend_from_slice(flag)?;
    push_setting(out, opinions, flag)?;
    out.push(b'\n')?;
    Ok(())
}

/// Appends the lines of these flags of a relay.
fn push_flags(
    out: &mut Vec<u8>,
    identity: &[u8],
    opinions: &[Opinion],
    flags: &[Text],
) -> Result<(), Memory>
    ensures { OnOk result (out.new.items ≡ out.old.items ++ flat_map (lines.flag_line identity.now opinions.now) flags.now) }
{
    'flags: for flag in flags {
        push_flag(out, identity, opinions, flag.as_bytes())?;
    }
    Ok(())
}

/// Appends the lines of a relay and of its flags.
#[tactic(auto, unfolding(crate::specs::Lines::relay_lines))]
pub(crate) fn push_relay(
    alloc: Global,
    out: &mut Vec<u8>,
    listed: bool,
    identity: &[u8],
    opinions: &[Opinion],
) -> Result<(), Memory>
    ensures { OnOk result (out.new.items ≡ out.old.items ++ lines.relay_lines listed identity.now opinions.now) }
{
    push_relay_line(out, listed, identity, opinions)?;
    let flags = flags_set(alloc, opinions)?;
    push_flags(out, identity, opinions, &flags)
}
