//! The period of an authority as plain values: its states, what comes to it, what it answers, and in `specs/` what each
//! event does. Signatures of a period: what they are checked against, and one that was checked (dir-spec, "Serving and
//! fetching detached signatures"). Signatures of a flavour that an authority holds: one for each authority, and how
//! many of a roster signed.
#![tactic(auto)]

mod answer;
mod change;
mod checked_sig;
mod entry;
mod event;
mod name;
mod short_bytes;
mod signature;
mod signature_lines;
mod stage;
mod state;
mod view;
mod vote;

pub use answer::{Advance, Answer, Offer, SignIn};
pub use change::{Change, ChangeKind};
pub use checked_sig::CheckedSig;
pub use entry::Entry;
pub use event::{Event, Signing, Via};
pub use name::Name;
pub use short_bytes::ShortBytes;
pub use signature::OfferedSignature;
pub use signature_lines::{has_line, own_line, put_line, signers_in};
pub use stage::Stage;
pub use state::State;
pub use view::PeriodView;
pub use vote::OfferedVote;
