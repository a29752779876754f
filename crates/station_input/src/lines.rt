// What the lines of a station input say.
ghost use Rattle.std.specs.Prelude.{◌≡◌};
ghost use Rattle.dirdoc_grammar.specs.Seen.{seen_item, IsInside};
ghost use Rattle.station_input.specs.Lines as lines;

use crate::fields::{bandwidth, long_number, new_identity, peer, ruling};
use crate::frame_said::{MeasuredRelay, MemberLine, ScheduleLine};
use crate::identity_set::IdentitySet;
use crate::source::fits_line;
use dir_values::number_of;
use dirdoc_grammar::Item;
use flag_rules::{Measured, OperatorRule};
use frame_values::{DirSource, arguments_of, field, fingerprint, source_of, take_argument};

/// Who the own authority is, whose line in a vote is one that a vote may have.
pub(crate) fn own_of(item: &Item<'_>) -> Result<DirSource, u64>
    requires { IsInside item.now }
    ensures { result ≡ lines.own_of (seen_item item.now) }
{
    let mut arguments = arguments_of(item);
    let nickname = take_argument(&mut arguments, item.place);
    let _ = take_argument(&mut arguments, item.place);
    let host = take_argument(&mut arguments, item.place);
    let source = source_of(item)?;
    if fits_line(nickname.text, host.text, &source) {
        Ok(source)
    } else {
        Err(item.place)
    }
}

/// When the authority votes.
pub(crate) fn schedule_of(item: &Item<'_>) -> Result<ScheduleLine, u64>
    requires { IsInside item.now }
    ensures { result ≡ lines.schedule_of (seen_item item.now) }
{
    let mut arguments = arguments_of(item);
    let first = take_argument(&mut arguments, item.place);
    let second = take_argument(&mut arguments, item.place);
    let third = take_argument(&mut arguments, item.place);
    let interval = field(&first, long_number(first.text))?;
    let vote = field(&second, long_number(second.text))?;
    let dist = field(&third, long_number(third.text))?;
    Ok(ScheduleLine {
        interval,
        vote,
        dist,
    })
}

/// An authority of the network.
pub(crate) fn member_of(item: &Item<'_>) -> Result<MemberLine, u64>
    requires { IsInside item.now }
    ensures { result ≡ lines.member_of (seen_item item.now) }
{
    let mut arguments = arguments_of(item);
    let first = take_argument(&mut arguments, item.place);
    let second = take_argument(&mut arguments, item.place);
    let identity = field(&first, fingerprint(first.text))?;
    let address = field(&second, peer(&second))?;
    Ok(MemberLine {
        identity,
        peer: address,
    })
}

/// What the operator rules of a relay of which none of the rules before speaks.
pub(crate) fn rule_of(earlier: &IdentitySet, item: &Item<'_>) -> Result<OperatorRule, u64>
    requires { IsInside item.now }
    ensures { result ≡ lines.rule_of earlier.now (seen_item item.now) }
{
    let mut arguments = arguments_of(item);
    let first = take_argument(&mut arguments, item.place);
    let second = take_argument(&mut arguments, item.place);
    let ruled = field(&first, ruling(first.text))?;
    let identity = field(&second, new_identity(earlier, second.text))?;
    Ok(OperatorRule {
        identity,
        ruling: ruled,
    })
}

/// What was measured of a relay of which none of the lines before speaks.
pub(crate) fn measured_of(earlier: &IdentitySet, item: &Item<'_>) -> Result<MeasuredRelay, u64>
    requires { IsInside item.now }
    ensures { result ≡ lines.measured_of earlier.now (seen_item item.now) }
{
    let mut arguments = arguments_of(item);
    let first = take_argument(&mut arguments, item.place);
    let second = take_argument(&mut arguments, item.place);
    let third = take_argument(&mut arguments, item.place);
    let fourth = take_argument(&mut arguments, item.place);
    let fifth = take_argument(&mut arguments, item.place);
    let sixth = take_argument(&mut arguments, item.place);
    let identity = field(&first, new_identity(earlier, first.text))?;
    let reached_at = field(&second, long_number(second.text))?;
    let wmtbf = field(&third, long_number(third.text))?;
    let wfu_ppm = field(&fourth, number_of(fourth.text))?;
    let known_for = field(&fifth, long_number(fifth.text))?;
    let kb = field(&sixth, bandwidth(sixth.text))?;
    Ok(MeasuredRelay {
        identity,
        measured: Measured {
            reached_at,
            wmtbf,
            wfu_ppm,
            known_for,
            kb,
        },
    })
}
