// Where the first fault of a descriptor, and of what a station is given, stands.
ghost use Rattle.station_laws.specs.Within.{DescriptorFaultsStandWithin, StationFaultsStandWithin};

/// A law: the first fault of a server descriptor stands within its bytes.
pub fn descriptor_faults_stand_within()
    ensures { DescriptorFaultsStandWithin }
{}

/// A law: the first fault of what a station is given stands within its bytes.
pub fn station_faults_stand_within()
    ensures { StationFaultsStandWithin }
{}
