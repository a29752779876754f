//! Connections over TCP: a gate that listens and a link that asks, each within limits of time.
#![tactic(auto)]

mod arrived;
mod deadline;
mod departures;
mod leaving;
mod tcp_gate;
mod tcp_link;
mod timed;
mod traffic;
mod waiting;
mod waiting_room;

pub use arrived::ArrivedSource;
pub use leaving::LeavingSink;
pub use tcp_gate::TcpGate;
pub use tcp_link::TcpLink;
