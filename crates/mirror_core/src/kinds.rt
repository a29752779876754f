// The kinds of documents that a mirror reads one behind the other.
ghost use Rattle.authority_certs.specs.Reading.{cert_of};
ghost use Rattle.micro_desc.specs.Reading.{micro_of};

use crate::inputs::Kind;
use authority_certs::Cert;
use frame_terms::ReadRefusal;
use micro_desc::Micro;
use std::alloc::Global;

/// Key certificates.
#[derive(Clone, Copy)]
pub(crate) struct Certs;

impl Kind for Certs {
    type Document = Cert;

    ghost document_of = { cert_of };

    fn read(&self, alloc: Global, bytes: &[u8]) -> Result<(Cert, usize), ReadRefusal> {
        authority_certs::read(alloc, bytes)
    }
}

/// Microdescriptors.
#[derive(Clone, Copy)]
pub(crate) struct Micros;

impl Kind for Micros {
    type Document = Micro;

    ghost document_of = { micro_of };

    fn read(&self, alloc: Global, bytes: &[u8]) -> Result<(Micro, usize), ReadRefusal> {
        micro_desc::read(alloc, bytes)
    }
}
