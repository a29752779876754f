// Where the first fault of a document stands.
ghost use Rattle.frame_terms.specs.Tables.{Tables};
ghost use Rattle.fault_places.specs.Within.{FirstFaultsStandWithin};

/// A law: the first fault of a document stands within its bytes, where what is wrong with an item does.
pub fn first_faults_stand_within<S, K, V, X>()
    ensures { (tables : Tables S K V X) → FirstFaultsStandWithin tables }
{}
