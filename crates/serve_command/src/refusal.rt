// Why no authority serves.
use station_commands::{BandwidthRefusal, StationRefusal};

/// Why `serve` starts no authority.
#[derive(Clone, Copy, Debug, PartialEq, Eq)]
pub enum ServeRefusal {
    /// The input gives no bandwidth file that counts, where one has to stand in front.
    File(BandwidthRefusal),
    /// The station can make no vote.
    Station(StationRefusal),
    /// The verifier failed, and it is not known whether what it was asked of holds.
    Verifier,
}
