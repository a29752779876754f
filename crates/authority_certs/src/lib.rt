//! Key certificates: reading and writing them, and when one holds.
#![tactic(auto)]

mod cert;
mod checking;
mod frame;
mod head;
mod reading;
mod writing;

pub use cert::Cert;
pub use checking::{CertAnswer, check};
pub use frame::{CertFrame, CertKind, cert_shape, cert_value};
pub use head::{CertHead, cert_at, head_of, no_head};
pub use reading::read;
pub use writing::write;
