//! Values of the directory protocol that several kinds of document share.
#![tactic(auto)]

mod algorithm;
mod arguments;
mod digest;
mod flag_list;
mod flag_set;
mod nickname;
mod number;
mod number_list;
mod parts;
mod policy;
mod port_list;
mod port_range;
mod port_summary;
mod refusal;
mod roster;
mod tor_version;
mod word_set;

pub use algorithm::Algorithm;
pub use arguments::{Argument, Arguments, arguments_are_words};
pub use digest::{Digest1, Digest2, Fingerprint};
pub use flag_list::{first_wrong_flag, is_name};
pub use flag_set::{FlagSet, sets_ascend, sets_have_their_flags};
pub use nickname::is_nickname;
pub use number::{number_of, port_of};
pub use number_list::{numbers_in, push_numbers, wrong_number};
pub use parts::{after, before, has};
pub use policy::{Net, PolicyItem};
pub use port_range::PortRange;
pub use port_summary::{PortSummary, ports_are_read_again};
pub use refusal::ValueRefusal;
pub use roster::{Roster, RosterFault};
pub use tor_version::{TorVersion, compare_named};
pub use word_set::WordSet;
