//! Server descriptors: reading them, with the certificates of a relay's families, and when one holds.
#![tactic(auto)]

mod checked;
mod checking;
mod descriptor;
mod families;
mod head;
mod kept;
mod reading;
mod says;
mod values;

pub use checked::CheckedDescriptor;
pub use checking::{DescriptorRefusal, check};
pub use descriptor::{Descriptor, EdSignature, Router};
pub use descriptor_frame::{BandwidthLine, EdCert};
pub use head::{Head, head_of};
pub use kept::Kept;
pub use reading::{front_of, read, read_under};
pub use values::{decode_if, ports_if, words_if};
