// What the items of a station input say.
ghost use Rattle.std.specs.Prelude.{◌≡◌};
ghost use Rattle.dirdoc_grammar.specs.Seen.{seen_item, IsInside};
ghost use Rattle.frame_reader.specs.Giving as giving;
ghost use Rattle.frame_reader.specs.Giving.{Gives};
ghost use Rattle.frame_values.specs.Faults as faults;
ghost use Rattle.station_input.specs.Tables as tables;

use crate::across::Across;
use crate::frame::StationKind;
use crate::frame_said::StationValue;
use crate::lines::{measured_of, member_of, own_of, rule_of, schedule_of};
use authority_certs::{CertKind, cert_value};
use dirdoc_grammar::Item;
use frame_reader::given;
use frame_terms::{FrameFault, Limit, ReadRefusal};
use frame_values::{Value, at_place, literal, rest_of, too_many};
use value_groups::{params_of, protocols_of, versions_of};

/// A value, or the refusal at the place of what is wrong.
fn at<V>(value: Result<V, u64>) -> Result<V, ReadRefusal>
    ensures { result ≡ giving.given_result (faults.at_place value) }
{
    given(at_place(value))
}

/// What an item of the kind `Source` says.
fn source_value(item: &Item<'_>) -> Result<Value<StationValue>, u64>
    requires { IsInside item.now }
    ensures { result ≡ tables.source_value (seen_item item.now) }
{
    Ok(Value::Own(StationValue::Source(own_of(item)?)))
}

/// What an item of the kind `Schedule` says.
fn schedule_value(item: &Item<'_>) -> Result<Value<StationValue>, u64>
    requires { IsInside item.now }
    ensures { result ≡ tables.schedule_value (seen_item item.now) }
{
    Ok(Value::Own(StationValue::Schedule(schedule_of(item)?)))
}

/// What an item of the kind `Member` says.
fn member_value(item: &Item<'_>) -> Result<Value<StationValue>, u64>
    requires { IsInside item.now }
    ensures { result ≡ tables.member_value (seen_item item.now) }
{
    Ok(Value::Own(StationValue::Member(member_of(item)?)))
}

/// What an item of the kind `Rule` says.
fn rule_value(across: &Across, item: &Item<'_>) -> Result<Value<StationValue>, u64>
    requires { IsInside item.now }
    ensures { result ≡ tables.rule_value across.now (seen_item item.now) }
{
    Ok(Value::Own(StationValue::Rule(rule_of(&across.ruled, item)?)))
}

/// What an item of the kind `Measured` says.
fn measured_value(across: &Across, item: &Item<'_>) -> Result<Value<StationValue>, u64>
    requires { IsInside item.now }
    ensures { result ≡ tables.measured_value across.now (seen_item item.now) }
{
    let relay = measured_of(&across.measured, item)?;
    Ok(Value::Own(StationValue::Measured(relay)))
}

/// What an item of a certificate says.
fn certificate_value(kind: CertKind, item: &Item<'_>) -> Result<Value<StationValue>, ReadRefusal>
    requires { IsInside item.now }
    ensures { result ≡ giving.given_result (faults.at_place (tables.certificate_value kind (seen_item item.now))) }
{
    at(cert_value(kind, item))
}

/// What an item says, or the place of what is wrong. A kind that says much is read in a function of its own, so that the
/// room for it is taken for such items alone.
pub(crate) fn value_at(
    across: &Across,
    kind: StationKind,
    item: &Item<'_>,
) -> Result<Value<StationValue>, ReadRefusal>
    requires { IsInside item.now }
    ensures { Gives (faults.at_place (tables.value_at across.now kind (seen_item item.now))) result }
{
    match kind {
        StationKind::Version => {
            at(literal(b"1", item))?;
            Ok(Value::Nothing)
        }
        StationKind::Source => at(source_value(item)),
        StationKind::Rest => Ok(Value::Text(rest_of(item))),
        StationKind::Schedule => at(schedule_value(item)),
        StationKind::Member => at(member_value(item)),
        StationKind::Versions => Ok(Value::Text(at(versions_of(item))?)),
        StationKind::Protocols => Ok(Value::Text(at(protocols_of(item))?)),
        StationKind::Params => Ok(Value::Text(params_of(across.ruled.alloc(), item)?)),
        StationKind::Rule => at(rule_value(across, item)),
        StationKind::Measured => at(measured_value(across, item)),
        StationKind::Nothing => Ok(Value::Nothing),
        StationKind::Certificate(kind) => certificate_value(kind, item),
    }
}

/// The fault of an item that has too many arguments for its kind.
pub(crate) fn over_limit(kind: StationKind, item: &Item<'_>) -> Result<(), FrameFault>
    requires { IsInside item.now }
    ensures { result ≡ tables.over_limit kind (seen_item item.now) }
{
    match kind {
        StationKind::Params => too_many(Limit::Params, item),
        _ => Ok(()),
    }
}
