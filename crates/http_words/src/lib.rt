//! What a directory authority is asked over HTTP, and what it answers besides documents: paths, codes and words. What
//! comes of a request over HTTP, as it is told, whatever answers it.
#![tactic(auto)]

mod asked;
mod connection;
mod digest_list;
mod found;
mod outcome;
mod paths;
mod replies;
mod word;

pub use asked::{Asked, Form, asked_by};
pub use connection::{ConnStatus, tell, tell_shortage};
pub use digest_list::{DIGEST_LIMIT, read_digests};
pub use found::unless_empty;
pub use outcome::Outcome;
pub use paths::behind;
pub use replies::{Reply, SIGNATURES_RESPONSE_LIMIT, VOTE_RESPONSE_LIMIT, reply_to};
pub use word::Word;
