// Summaries of ports.
ghost use Rattle.std.specs.Prelude.{◌≡◌, ◌+◌, ◌≤◌, ◌++◌, IsTrue, IsOk, OnOk, OnErr, length, vec_len, vec_capacity};
ghost use Rattle.dir_values.specs.Ports as ports;
ghost use Rattle.dir_values.specs.Refusals.{Reads};

use crate::arguments::Arguments;
use crate::port_list::{in_ranges, push_ranges, range_list};
use crate::port_range::PortRange;
use crate::refusal::ValueRefusal;
use dir_bytes::Memory;
use std::alloc::Global;
use std::marker::Model;

/// Which ports are accepted: those of some ranges, which ascend and are apart, or all others. Its text is `accept` or
/// `reject` and the ranges with commas between them (dir-spec, the `p` line).
#[derive(Debug, Drop)]
pub struct PortSummary {
    accept: bool,
    ranges: Vec<PortRange>,
}

impl Model for PortSummary {
    ghost use Rattle.std.specs.Prelude.{IsTrue};
    ghost use Rattle.dir_values.specs.Ports.{Ports, are_ranges};

    ghost Value = { Ports };

    ghost view = { λ s. record { accept = s.accept; ranges = s.ranges.items } };

    ghost invariant = { λ s. IsTrue (are_ranges s.ranges.items) };
}

impl PortSummary {
    /// The ports of the ranges where `accept` is true, and all others where it is not.
    pub fn new(accept: bool, ranges: Vec<PortRange>) -> PortSummary
        requires { IsTrue (ports.are_ranges ranges.items) }
        ensures { result ≡ record { accept = accept; ranges = ranges.items } }
    {
        PortSummary { accept, ranges }
    }

    /// Whether the ports of the ranges are the ones that are accepted.
    pub fn accept(&self) -> bool
        ensures { result ≡ self.now.accept }
    {
        self.accept
    }

    /// The ranges, ascending.
    pub fn ranges(&self) -> &[PortRange]
        ensures value { result.now ≡ self.now.ranges }
        ensures apart { IsTrue (ports.are_ranges self.now.ranges) }
    {
        self.ranges.as_slice()
    }

    /// The ranges, ascending, as they were handed in.
    pub fn into_ranges(self) -> Vec<PortRange>
        ensures value { result.items ≡ self.ranges }
        ensures apart { IsTrue (ports.are_ranges self.ranges) }
    {
        self.ranges
    }

    /// Whether a port is accepted.
    pub fn accepts(&self, port: u16) -> bool
        ensures { result ≡ ports.accepts self.now port }
    {
        let inside = in_ranges(&self.ranges, port);
        if self.accept { inside } else { !inside }
    }

    /// The ports that the text spells. More than two arguments are read, and the further ones ignored.
    ///
    /// # Errors
    /// `BadValue` where the word or the list of ranges is not of its form, at its first byte, and where one is missing, at the
    /// end of the text. `Memory` is want of memory.
    pub fn read(alloc: Global, text: &[u8]) -> Result<PortSummary, ValueRefusal>
        ensures { Reads (ports.port_summary text.now) result }
    {
        let end = text.len() as u64;
        let mut arguments = Arguments::at(0, text);
        let Some(word) = arguments.next() else {
            return Err(ValueRefusal::BadValue { place: end });
        };
        let Some(accept) = accept_of(word.text) else {
            return Err(ValueRefusal::BadValue { place: word.place });
        };
        let Some(list) = arguments.next() else {
            return Err(ValueRefusal::BadValue { place: end });
        };
        match range_list(alloc, list.text)? {
            Some(ranges) => Ok(PortSummary { accept, ranges }),
            None => Err(ValueRefusal::BadValue { place: list.place }),
        }
    }

    /// Appends the text. Without memory `out` stays as it was.
    ///
    /// # Errors
    /// `Memory` is want of memory.
    pub fn push(&self, out: &mut Vec<u8>) -> Result<(), Memory>
        ensures ok { OnOk result (out.new.items ≡ out.old.items ++ ports.summary_text self.now) }
        ensures err { OnErr result (out.new.items ≡ out.old.items) }
        ensures room { vec_len out.old + length (ports.summary_text self.now) ≤ vec_capacity out.old → IsOk result }
        ensures capacity { vec_capacity out.old ≤ vec_capacity out.new }
    {
        let before = out.len();
        match push_ranges(self.accept, &self.ranges, out) {
            Ok(()) => Ok(()),
            Err(refused) => {
                out.truncate(before);
                Err(refused)
            }
        }
    }
}

/// Whether the word says that ports are accepted, if it is one that says what is done with them.
fn accept_of(word: &[u8]) -> Option<bool>
    ensures { result ≡ ports.accept_of word.now }
{
    if word == b"accept".as_slice() {
        Some(true)
    } else if word == b"reject".as_slice() {
        Some(false)
    } else {
        None
    }
}

/// A law: what is written of ports is read again as they are.
pub fn ports_are_read_again()
    ensures { ports.PortsAreReadAgain }
{}
