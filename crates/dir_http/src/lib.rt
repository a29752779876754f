//! HTTP as a directory authority speaks it: requests that are read, responses that are written, and what is asked of
//! peers.
#![tactic(auto)]

mod answer_front;
mod arrival;
mod body;
mod fault;
mod fetching;
mod front;
mod gate;
mod head;
mod law;
mod length;
mod link;
mod memory_gate;
mod memory_link;
mod request;
mod response;
mod watch;

pub use arrival::missing;
pub use body::BodyReader;
pub use fault::HttpFault;
pub use fetching::{FetchFault, POST_LIMIT, fetch, is_response, post};
pub use gate::{Gate, GateAnswer, ListenAnswer};
pub use head::{HEAD_LIMIT, Head, read_head};
pub use law::a_whole_head_is_seen;
pub use length::{Announcement, Method2, path_limit};
pub use link::{Link, LinkAnswer};
pub use memory_gate::MemoryGate;
pub use memory_link::{Exchange, MemoryLink};
pub use request::{Request, read_request, read_rest};
pub use response::{Response, WriteRefusal, write_response};
