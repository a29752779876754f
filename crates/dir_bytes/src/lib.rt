//! Bytes that come in and go out: sources, sinks and clocks, lists that contracts see, and the texts of values.
#![tactic(auto)]

mod adapters;
mod address;
mod append;
mod clock;
mod digests;
mod fault;
mod hex_bytes;
mod laws;
mod memory_clock;
mod memory_sink;
mod memory_source;
mod moments;
mod numbers;
mod reading;
mod seq;
mod sink;
mod source;
mod text;
mod writing;

pub use adapters::{StdSink, StdSource, SystemClock};
pub use address::{push_address, read_address};
pub use clock::{Clock, LAST_MOMENT};
pub use digests::{push_base64, push_hex_upper, read_base64, read_hex};
pub use fault::{BadField, Memory};
pub use hex_bytes::{hex_bytes_are_read_again, is_hex, read_hex_bytes};
pub use laws::{
    address_is_read_again, base64_is_read_again, clock_is_read_again, date_is_read_again,
    hex_is_read_again, moment_is_read_again, number_is_read_again, signed_is_read_again,
};
pub use memory_clock::MemoryClock;
pub use memory_sink::MemorySink;
pub use memory_source::MemorySource;
pub use moments::{push_time, read_date, read_time, read_time_of_day};
pub use numbers::{push_decimal, push_i32, read_i32, read_u16, read_u32, read_u64};
pub use reading::{ReadAllFault, read_all};
pub use seq::Seq;
pub use sink::{Sink, WriteAnswer};
pub use source::{ReadAnswer, Source};
pub use text::Text;
pub use writing::{WriteAll, write_all};
