// What an authority begins with, of what its station is given and the descriptors behind it.
ghost use Rattle.std.specs.Prelude.{◌≡◌, ◌≤◌, ◌<◌, ◌^◌, Err, IfErr, IfOk, length};
ghost use Rattle.dir_bytes.specs.Causes.{Rose};
ghost use Rattle.key_port.specs.Answers.{rules};
ghost use Rattle.authority_certs.specs.Checks.{IsCertified};
ghost use Rattle.serve_command.specs.{Private.{CanBeginBy, StopsFor}, Starting.{RefusesCertificate, RefusesStation}};

use crate::refusal::ServeRefusal;
use crate::told::{cert_refused, of_order, of_pool, station_stop};
use authority_certs::{Cert, CertAnswer, check};
use bytes::Bytes;
use daemon_words::Stop;
use key_port::Verifier;
use station_commands::{StationRefusal, period_of, pool_of, schedule_of};
use station_input::StationFacts;
use std::alloc::Global;
use vote_pool::Pool;
use vote_schedule::Config;

/// Whether the own certificate holds when the period begins.
fn check_own<V: Verifier>(
    certificate: &Cert,
    at: u64,
    verifier: &mut V,
) -> Result<(), Stop<ServeRefusal>>
    ensures holds { IfOk result (λ held. IsCertified (rules V.may_accept V.may_refuse) at certificate.now) }
    ensures stops { IfErr result (λ why.
        StopsFor (RefusesCertificate (rules V.may_accept V.may_refuse) at certificate.now) why) }
    ensures fault { result ≡ Err (Stop.Refused ServeRefusal.Verifier)
        → Rose (V.faults verifier.old) (V.faults verifier.new) }
    ensures faults { V.faults verifier.old ≤ V.faults verifier.new }
    ensures told { V.faults verifier.old < V.faults verifier.new → result ≡ Err (Stop.Refused ServeRefusal.Verifier) }
{
    match check(certificate, at, verifier) {
        CertAnswer::Checked => Ok(()),
        found => Err(Stop::Refused(cert_refused(found))),
    }
}

/// The schedule of a station, and the pool of the descriptors that stand in the input from a place on, where the own
/// certificate holds when the next period begins at the moment `now`.
///
/// # Errors
/// `Refused` by the first that applies: the roster, the schedule, the own authority; the first fault of a descriptor,
/// or the first that does not hold, in their order; a full pool; no period any more; the own certificate. `Verifier`
/// stands where the descriptor or the certificate stands of which it was asked. `Memory` is want of memory.
pub(crate) fn beginning_of<V: Verifier>(
    alloc: Global,
    bytes: &Bytes,
    station: &StationFacts,
    used: usize,
    now: u64,
    verifier: &mut V,
) -> Result<(Config, Pool<V>), Stop<ServeRefusal>>
    requires short { length bytes.now < 2 ^ 61 }
    requires within { used ≤ length bytes.now }
    ensures begins { IfOk result (λ begun.
        CanBeginBy (rules V.may_accept V.may_refuse) now station.now used bytes.now begun.0 begun.1) }
    ensures stops { IfErr result (λ why.
        StopsFor (RefusesStation (rules V.may_accept V.may_refuse) now station.now used bytes.now) why) }
    ensures fault { result ≡ Err (Stop.Refused ServeRefusal.Verifier)
        → Rose (V.faults verifier.old) (V.faults verifier.new) }
    ensures faults { V.faults verifier.old ≤ V.faults verifier.new }
    ensures told { V.faults verifier.old < V.faults verifier.new → result ≡ Err (Stop.Refused ServeRefusal.Verifier) }
{
    let schedule = match schedule_of(alloc, station) {
        Ok(schedule) => schedule,
        Err(why) => return Err(of_order(why)),
    };
    let pool = match pool_of(alloc, station.newest, bytes, used, verifier) {
        Ok(pool) => pool,
        Err(why) => return Err(of_pool(why)),
    };
    let Some(valid_after) = period_of(&schedule, now) else {
        return Err(station_stop(StationRefusal::EndOfTime));
    };
    check_own(&station.certificate, valid_after, verifier)?;
    Ok((schedule, pool))
}
