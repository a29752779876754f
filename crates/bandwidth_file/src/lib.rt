//! Bandwidth files, as scanners write them: the measured bandwidths of relays. A bandwidth file that stands in front of
//! other input, up to a line that ends it.
#![tactic(auto)]

mod ends;
mod feeder;
mod file;
mod front;
mod items;
mod line;
mod reading;
mod refusal;
mod relays;
mod said;
mod section;
mod text;

pub use feeder::BandFeeder;
pub use file::{BandFile, Header};
pub use front::{Front, read_front};
pub use reading::read;
pub use refusal::{BandFault, BandReason, BandRefusal};
pub use relays::Relays;
pub use text::write;
