// How a refusal of a call is told as the command's.
ghost use Rattle.std.specs.Prelude.{◌≡◌};
ghost use Rattle.serve_command.specs.Told as told;

use crate::refusal::ServeRefusal;
use authority_certs::CertAnswer;
use daemon_words::Stop;
use frame_terms::FrameFault;
use station_commands::{BandwidthRefusal, OrderWord, PoolRefusal, StationRefusal, cert_word};

/// That the station can make no vote.
pub(crate) fn station_stop(why: StationRefusal) -> Stop<ServeRefusal>
    ensures { result ≡ told.station_stop why }
{
    Stop::Refused(ServeRefusal::Station(why))
}

/// That the input gives no bandwidth file that counts.
pub(crate) fn of_file(stop: Stop<BandwidthRefusal>) -> Stop<ServeRefusal>
    ensures { result ≡ told.of_file stop }
{
    match stop {
        Stop::Refused(why) => Stop::Refused(ServeRefusal::File(why)),
        Stop::Memory => Stop::Memory,
    }
}

/// That what a station is given does not stand there.
pub(crate) fn of_fault(stop: Stop<FrameFault>) -> Stop<ServeRefusal>
    ensures { result ≡ told.of_fault stop }
{
    match stop {
        Stop::Refused(fault) => station_stop(StationRefusal::Fault(fault)),
        Stop::Memory => Stop::Memory,
    }
}

/// That what a station is given is out of order.
pub(crate) fn of_order(stop: Stop<OrderWord>) -> Stop<ServeRefusal>
    ensures { result ≡ told.of_order stop }
{
    match stop {
        Stop::Refused(word) => station_stop(StationRefusal::Order(word)),
        Stop::Memory => Stop::Memory,
    }
}

/// That the descriptors make no pool.
pub(crate) fn of_pool(stop: Stop<PoolRefusal>) -> Stop<ServeRefusal>
    ensures { result ≡ told.of_pool stop }
{
    match stop {
        Stop::Refused(PoolRefusal::Fault(fault)) => station_stop(StationRefusal::NoDescriptor(
            fault,
        )),
        Stop::Refused(PoolRefusal::Descriptor { number, word }) => {
            station_stop(StationRefusal::Descriptor { number, word })
        }
        Stop::Refused(PoolRefusal::Full) => station_stop(StationRefusal::PoolFull),
        Stop::Refused(PoolRefusal::Verifier) => Stop::Refused(ServeRefusal::Verifier),
        Stop::Memory => Stop::Memory,
    }
}

/// That the own certificate does not hold; it is not asked of one that does.
pub(crate) fn cert_refused(answer: CertAnswer) -> ServeRefusal
    ensures { result ≡ told.cert_refused answer }
{
    match cert_word(answer) {
        Some(word) => ServeRefusal::Station(StationRefusal::OwnCert(word)),
        None => ServeRefusal::Verifier,
    }
}
