// A key certificate, as the commands see it.
ghost use Rattle.authority_certs.specs.{Reading.{cert_of, max_cert}, Texts.cert_text};

use crate::one::Document;
use authority_certs::{Cert, CertFrame};
use bytes::Bytes;
use dir_bytes::Memory;
use frame_terms::{FrameFault, ReadRefusal};
use std::alloc::Global;

impl Document for Cert {
    type Format = CertFrame;

    ghost read_of = { cert_of };

    ghost fault_of = { λ bytes fault. fault };

    ghost is_fit = { λ cert. Unit {0} };

    ghost text_of = { cert_text };

    ghost front_of = { λ bytes. 0 };

    ghost LIMIT = { max_cert };

    const LIMIT: u64 = 65_536;

    fn front(_: &[u8]) -> usize {
        0
    }

    fn frame(_: Global, _: &[u8]) -> CertFrame {
        CertFrame
    }

    fn read(alloc: Global, bytes: &Bytes) -> Result<(Cert, usize), ReadRefusal> {
        authority_certs::read(alloc, bytes)
    }

    fn fault(_: &[u8], fault: FrameFault) -> FrameFault {
        fault
    }

    fn write(&self, alloc: Global) -> Result<Vec<u8>, Memory> {
        authority_certs::write(alloc, self)
    }
}
