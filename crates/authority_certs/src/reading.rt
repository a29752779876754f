// Reading a certificate.
ghost use Rattle.std.specs.Prelude.{◌<◌, ◌^◌, length};
ghost use Rattle.authority_certs.specs.{Heads.head_with, Reading.ReadsCert};

use crate::cert::Cert;
use crate::frame::CertFrame;
use crate::head::{CertHead, cert_at, head_of, no_head};
use dirdoc_grammar::Items;
use frame_reader::{Facts, read_document};
use frame_terms::{ReadRefusal, Taken};
use frame_values::Value;
use std::alloc::{AllocError, Global};

/// How many bytes a certificate may have.
const MAX_CERT: u64 = 65_536;

impl Facts<CertFrame> for CertHead {
    ghost with = { head_with };

    fn close(&mut self, _: (), taken: &[Taken<Value<()>>]) -> Result<(), AllocError> {
        *self = head_of(taken);
        Ok(())
    }
}

/// The certificate that the bytes begin with, behind blank lines if there are some, and how many bytes that are: it
/// ends with the object of its `dir-key-certification`.
///
/// # Errors
/// `Frame` is the first fault of the certificate: what is wrong and at which byte. `Memory` is want of memory.
pub fn read(alloc: Global, bytes: &[u8]) -> Result<(Cert, usize), ReadRefusal>
    requires { length bytes.now < 2 ^ 62 }
    ensures { ReadsCert bytes.now result }
{
    let mut items = Items::new(bytes, MAX_CERT);
    let mut head = no_head();
    let length = bytes.len() as u64;
    let used = read_document(alloc, CertFrame, &mut items, length, &mut head)?;
    match cert_at(alloc, bytes, &head) {
        Ok(cert) => Ok((cert, used as usize)),
        Err(_) => Err(ReadRefusal::Memory),
    }
}
