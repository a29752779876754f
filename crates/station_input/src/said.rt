// What items of a station input alone say.
ghost use Rattle.std.specs.Prelude.{◌≡◌, ◌++◌, OnOk};
ghost use Rattle.frame_values.specs.Values.{item_at};
ghost use Rattle.station_input.specs.Saying as saying;

use crate::frame_said::{MeasuredRelay, MemberLine, ScheduleLine, StationValue};
use dir_bytes::Seq;
use dir_values::Fingerprint;
use flag_rules::OperatorRule;
use frame_terms::{Keyword, Taken};
use frame_values::{DirSource, Value, nowhere, own_at};
use std::alloc::AllocError;

/// An authority of which nothing is known.
pub(crate) fn no_source() -> DirSource
    ensures { result ≡ saying.no_source }
{
    DirSource {
        nickname: nowhere(),
        identity: Fingerprint([0; 20]),
        address: nowhere(),
        ip: 0,
        dir_port: 0,
        or_port: 0,
    }
}

/// The own authority.
pub(crate) fn source_at(taken: &[Taken<Value<StationValue>>]) -> DirSource
    ensures { result ≡ saying.source_in (item_at taken.now Keyword.Own) }
{
    match own_at(taken, Keyword::Own) {
        Some(StationValue::Source(source)) => source,
        _ => no_source(),
    }
}

/// No schedule.
pub(crate) fn no_schedule() -> ScheduleLine
    ensures { result ≡ saying.no_schedule }
{
    ScheduleLine {
        interval: 0,
        vote: 0,
        dist: 0,
    }
}

/// The schedule.
pub(crate) fn schedule_at(taken: &[Taken<Value<StationValue>>]) -> ScheduleLine
    ensures { result ≡ saying.schedule_in (item_at taken.now Keyword.Schedule) }
{
    match own_at(taken, Keyword::Schedule) {
        Some(StationValue::Schedule(schedule)) => schedule,
        _ => no_schedule(),
    }
}

/// The authority that a value speaks of, if it speaks of one.
fn member_if(value: Value<StationValue>) -> Option<MemberLine>
    ensures { result ≡ saying.member_if value }
{
    match value {
        Value::Own(StationValue::Member(member)) => Some(member),
        _ => None,
    }
}

/// Adds the authorities of the network.
///
/// # Errors
/// There was no memory.
pub(crate) fn push_members(
    out: &mut Seq<MemberLine>,
    taken: &[Taken<Value<StationValue>>],
) -> Result<(), AllocError>
    ensures { OnOk result (out.new ≡ out.old ++ saying.members_in taken.now) }
{
    for one in taken {
        if let Some(member) = member_if(one.value) {
            out.push(member)?;
        }
    }
    Ok(())
}

/// The rule that a value is, if it is one.
fn rule_if(value: Value<StationValue>) -> Option<OperatorRule>
    ensures { result ≡ saying.rule_if value }
{
    match value {
        Value::Own(StationValue::Rule(rule)) => Some(rule),
        _ => None,
    }
}

/// Adds the rules of the operator.
///
/// # Errors
/// There was no memory.
pub(crate) fn push_rules(
    out: &mut Seq<OperatorRule>,
    taken: &[Taken<Value<StationValue>>],
) -> Result<(), AllocError>
    ensures { OnOk result (out.new ≡ out.old ++ saying.rules_in taken.now) }
{
    for one in taken {
        if let Some(rule) = rule_if(one.value) {
            out.push(rule)?;
        }
    }
    Ok(())
}

/// The measured relay that a value speaks of, if it speaks of one.
fn measured_if(value: Value<StationValue>) -> Option<MeasuredRelay>
    ensures { result ≡ saying.measured_if value }
{
    match value {
        Value::Own(StationValue::Measured(relay)) => Some(relay),
        _ => None,
    }
}

/// Adds what was measured of relays.
///
/// # Errors
/// There was no memory.
pub(crate) fn push_measured(
    out: &mut Seq<MeasuredRelay>,
    taken: &[Taken<Value<StationValue>>],
) -> Result<(), AllocError>
    ensures { OnOk result (out.new ≡ out.old ++ saying.measured_in taken.now) }
{
    for one in taken {
        if let Some(relay) = measured_if(one.value) {
            out.push(relay)?;
        }
    }
    Ok(())
}
