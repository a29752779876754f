// Reading a bandwidth file, line by line.
ghost use Rattle.std.specs.Prelude.{◌≡◌, ◌+◌, ◌<◌, ◌^◌, ◌++◌, ◌∷◌, [], List, ℕ, None, IfErr, IfOk, OnOk, length};
ghost use Rattle.item_terms.specs.Lines.{Line, lines, size};
ghost use Rattle.bandwidth_file.specs.{declared.said.Row.Row, Files.IsBandFile, Refusals.RefusedAs, Lending.Holds};
ghost use Rattle.bandwidth_file.specs.Lending.{HasRows, Keeps, line_seen};
ghost use Rattle.bandwidth_file.specs.Files as files;
ghost use Rattle.bandwidth_file.specs.Lines as its;
ghost use Rattle.bandwidth_file.specs.Lending as lending;

use crate::file::{BandFile, Header};
use crate::line::{LineText, first_line, is_blank_line, line_fault, size_of};
use crate::refusal::{BandReason, BandRefusal, at, refused};
use crate::relays::Relays;
use crate::said::{Row, Said, filled_line};
use crate::section::{Section, next_section};
use dir_bytes::{Memory, Seq, Text};
use dir_values::{Fingerprint, after, before};
use std::alloc::Global;

/// The identities that a file may have.
const MAX_RELAYS: usize = 65_535;

/// What was read so far of a bandwidth file.
#[derive(Drop)]
pub(crate) struct Reading {
    pub(crate) section: Section,
    pub(crate) timestamp: u64,
    pub(crate) headers: Vec<Header>,
    pub(crate) relays: Relays,
}

/// What some bytes say as a bandwidth file.
///
/// # Errors
/// `Fault` is the first fault. `Memory` is want of memory.
pub fn read(alloc: Global, bytes: &[u8]) -> Result<BandFile, BandRefusal>
    ensures file { IfOk result (λ file. IsBandFile bytes.now file) }
    ensures fault { IfErr result (λ refusal. RefusedAs (files.first_fault (lines bytes.now)) refusal) }
{
    let mut reading = Reading::new(alloc);
    let mut place = 0usize;
    'lines: while place < bytes.len() {
        let line = first_line(&bytes[place..]);
        reading.take(alloc, place as u64, line)?;
        place += size_of(line) as usize;
    }
    reading.end(place as u64)
}

impl Reading {
    /// No line was read yet.
    fn new(alloc: Global) -> Reading
        ensures { Holds [] result }
    {
        Reading {
            section: Section::Time,
            timestamp: 0,
            headers: Vec::new(alloc),
            relays: Relays::new(alloc),
        }
    }

    /// Takes the next line, which begins at this place.
    ///
    /// # Errors
    /// `Fault` is what is wrong with it. `Memory` is want of memory.
    fn take(&mut self, alloc: Global, place: u64, line: LineText<'_>) -> Result<(), BandRefusal>
        requires { place + size (line_seen line) < 2 ^ 64 }
        ensures ok { (before : List Line) → place ≡ its.place_of before → Holds before self.old
            → OnOk result (Holds (before ++ line_seen line.entry ∷ []) self.new) }
        ensures err { (before : List Line) → place ≡ its.place_of before → Holds before self.old
            → IfErr result (λ refusal. RefusedAs (files.fault_of before (line_seen line.entry)) refusal) }
    {
        let said = said_by(self.section, place, line);
        self.keep(alloc, place, line.text, said)?;
        if !is_blank_line(line.text) {
            self.section = next_section(self.section, line.text);
        }
        Ok(())
    }

    /// Keeps what the line at this place says.
    ///
    /// # Errors
    /// `Fault` is what is wrong with it. `Memory` is want of memory.
    fn keep(
        &mut self,
        alloc: Global,
        place: u64,
        text: &[u8],
        said: Said,
    ) -> Result<(), BandRefusal>
        ensures ok { (rows : List Row) → HasRows rows self.old.relays
            → OnOk result (Keeps rows place text.now said self.old self.new) }
        ensures err { (rows : List Row) → HasRows rows self.old.relays
            → IfErr result (λ refusal. RefusedAs (files.fault_in rows place said) refusal) }
    {
        match said {
            Said::Wrong { fault } => return Err(refused(fault)),
            Said::Nothing => {}
            Said::Time { timestamp } => self.timestamp = timestamp,
            Said::Header => {
                let header = header_of(alloc, text)?;
                push_header(&mut self.headers, header)?;
            }
            Said::Relay { row } => put_row(&mut self.relays, place, row)?,
        }
        Ok(())
    }

    /// No more lines follow: the input ends at this place.
    ///
    /// # Errors
    /// `Fault`: there was no line that gives the time.
    fn end(self, place: u64) -> Result<BandFile, BandRefusal>
        ensures ok { (bytes : List ℕ) → place ≡ its.place_of (lines bytes) → Holds (lines bytes) self
            → IfOk result (λ file. IsBandFile bytes file) }
        ensures err { (bytes : List ℕ) → place ≡ its.place_of (lines bytes) → Holds (lines bytes) self
            → IfErr result (λ refusal. RefusedAs (files.first_fault (lines bytes)) refusal) }
    {
        if self.section == Section::Time {
            return Err(refused(at(place, BandReason::Timestamp)));
        }
        Ok(BandFile {
            timestamp: self.timestamp,
            headers: Seq::new(self.headers),
            relays: self.relays,
        })
    }
}

/// Takes the row of the relay line at this place.
///
/// # Errors
/// `Fault`: there would be too many identities. `Memory` is want of memory.
fn put_row(relays: &mut Relays, place: u64, row: Row) -> Result<(), BandRefusal>
    ensures ok { (rows : List Row) → HasRows rows relays.old
        → OnOk result ((files.many_fault rows place row ≡ None) × HasRows (rows ++ row ∷ []) relays.new) }
    ensures err { (rows : List Row) → HasRows rows relays.old
        → IfErr result (λ refusal. RefusedAs (files.many_fault rows place row) refusal) }
{
    if is_over(relays, &row.identity) {
        return Err(refused(at(place, BandReason::TooMany)));
    }
    relays.put(row)?;
    Ok(())
}

/// Whether there would be too many identities with one more, and this is one more. It is looked up where it matters alone.
fn is_over(relays: &Relays, identity: &Fingerprint) -> bool
    ensures { result ≡ lending.is_over relays.now identity.now }
{
    relays.len() == MAX_RELAYS && relays.get(identity).is_none()
}

/// What a line of a section says.
fn said_by(section: Section, place: u64, line: LineText<'_>) -> Said
    requires { place + size (line_seen line) < 2 ^ 64 }
    ensures { result ≡ files.said_if (its.line_fault place (line_seen line.entry)) section place line.entry.text.now }
{
    if let Some(fault) = line_fault(place, line) {
        return Said::Wrong { fault };
    }
    if is_blank_line(line.text) {
        return Said::Nothing;
    }
    filled_line(section, place, line.text)
}

/// The header of a line with a `=`.
fn header_of(alloc: Global, text: &[u8]) -> Result<Header, Memory>
    ensures { IfOk result (λ header. header ≡ files.header_of text.now) }
{
    let key = Text::copy_of(alloc, before(text, b'='))?;
    let value = Text::copy_of(alloc, after(text, b'='))?;
    Ok(Header { key, value })
}

/// Puts a header behind others.
///
/// # Errors
/// `Memory` is want of memory.
fn push_header(headers: &mut Vec<Header>, header: Header) -> Result<(), Memory>
    ensures { OnOk result (headers.new.items ≡ headers.old.items ++ header ∷ []) }
{
    headers.push(header)?;
    Ok(())
}
