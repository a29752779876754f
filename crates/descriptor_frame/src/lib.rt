//! The frame of a server descriptor: its items and what they say (dir-spec, "Server descriptor format"). Certificates
//! of Ed25519 keys, byte by byte (cert-spec, "Document formats"). The canonical form of a relay's family (dir-spec,
//! "Computing microdescriptors", the `family` line).
#![tactic(auto)]

mod certificate;
mod extensions;
mod family;
mod fields;
mod frame;
mod laws;
mod lines;
mod member;
mod said;
mod text;

pub use certificate::{EdCert, is_certificate};
pub use family::canonical_family;
pub use fields::key;
pub use frame::DescriptorFrame;
pub use laws::{families_ascend, families_have_their_names};
pub use lines::{key_of, ports_of};
pub use said::{BandwidthLine, DescriptorKind, DescriptorValue, RouterLine};
pub use text::push_names;
