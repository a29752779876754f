// Where the first fault of a consensus, of a microdescriptor and of a certificate stands.
ghost use Rattle.document_faults.specs.Within.{CertFaultsStandWithin, ConsensusFaultsStandWithin};
ghost use Rattle.document_faults.specs.Within.{MicroFaultsStandWithin};

/// A law: the first fault of a consensus stands within its bytes.
pub fn consensus_faults_stand_within()
    ensures { ConsensusFaultsStandWithin }
{}

/// A law: the first fault of a microdescriptor stands within its bytes.
pub fn micro_faults_stand_within()
    ensures { MicroFaultsStandWithin }
{}

/// A law: the first fault of a certificate stands within its bytes.
pub fn cert_faults_stand_within()
    ensures { CertFaultsStandWithin }
{}
