//! Verifiers and signers: a key service behind a socket, and a named test scheme. No arithmetic of keys stands here.
#![tactic(auto)]

mod asking;
mod dial;
mod laws;
mod request;
mod service_end;
mod service_keys;
mod sign_lines;
mod signer;
mod signing;
mod test_keys;
mod unix_dial;
mod verifier;

pub use asking::exchange;
pub use dial::Dial;
pub use laws::{test_signatures_are_accepted, test_signatures_are_accepted_or_refused};
pub use request::request_fits;
pub use service_end::ServiceEnd;
pub use service_keys::ServiceKeys;
pub use sign_lines::sign_request_fits;
pub use signer::{SignAnswer, Signer};
pub use signing::exchange_signing;
pub use test_keys::TestKeys;
pub use unix_dial::UnixDial;
pub use verifier::{KeyKind, Verifier, VerifyAnswer};
