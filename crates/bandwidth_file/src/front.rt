// Reading the bandwidth file in front of other input.
ghost use Rattle.std.specs.Prelude.{◌≡◌, ◌+◌, ◌≤◌, length, IfErr, IfOk, Some};
ghost use Rattle.item_terms.specs.Lines.{lines};
ghost use Rattle.bandwidth_file.specs.{Files.first_fault, Lines.at, Refusals.RefusedAs, Fronts.{IsFront, end_place}};
ghost use Rattle.bandwidth_file.specs.Fronts.{end_size, front_fault, open_fault};

use crate::ends::{END_SIZE, end_place};
use crate::file::BandFile;
use crate::reading::read;
use crate::refusal::{BandReason, BandRefusal};
use std::alloc::Global;

/// A bandwidth file in front of other input.
#[derive(Drop)]
pub struct Front {
    /// What it says.
    pub file: BandFile,
    /// The place behind the line that ends it, in bytes.
    pub used: usize,
}

/// The bandwidth file that an input begins with, up to the first line `end-bandwidth-file`.
///
/// # Errors
/// `Fault` is the first fault of the file, with its place. Where that line does not come the whole input is looked at, and where it has
/// no fault the reason is `Unterminated`, at the input's length. `Memory` is want of memory.
pub fn read_front(alloc: Global, bytes: &[u8]) -> Result<Front, BandRefusal>
    ensures front { IfOk result (λ front. IsFront bytes.now front.file front.used) }
    ensures within { IfOk result (λ front. front.used ≤ length bytes.now) }
    ensures fault { IfErr result (λ refusal. RefusedAs (front_fault bytes.now) refusal) }
{
    match end_place(bytes) {
        Some(place) => front_before(alloc, bytes, place),
        None => Err(not_ended(alloc, bytes)),
    }
}

/// The bandwidth file before the line that ends it, which begins at this place.
///
/// # Errors
/// `Fault` is its first fault. `Memory` is want of memory.
fn front_before(alloc: Global, bytes: &[u8], place: usize) -> Result<Front, BandRefusal>
    requires ends { end_place bytes.now ≡ Some place }
    requires within { place + end_size ≤ length bytes.now }
    ensures front { IfOk result (λ front. IsFront bytes.now front.file front.used) }
    ensures within { IfOk result (λ front. front.used ≤ length bytes.now) }
    ensures fault { IfErr result (λ refusal. RefusedAs (front_fault bytes.now) refusal) }
{
    match read(alloc, &bytes[..place]) {
        Ok(file) => Ok(Front {
            file,
            used: place + END_SIZE,
        }),
        Err(refusal) => Err(refusal),
    }
}

/// Why an input is refused in which no line ends the bandwidth file.
fn not_ended(alloc: Global, bytes: &[u8]) -> BandRefusal
    ensures { RefusedAs (open_fault bytes.now) result }
{
    match read(alloc, bytes) {
        Ok(_file) => unterminated(bytes),
        Err(BandRefusal::Memory) => BandRefusal::Memory,
        Err(BandRefusal::Fault { place, reason }) => match reason {
            BandReason::Timestamp => without_time(bytes, place),
            _ => BandRefusal::Fault { place, reason },
        },
    }
}

/// Why it is refused where it lacks its time, as is found at this place: at the place of its first line, or, where there is no
/// line, at its end, which is no more than that it goes on.
fn without_time(bytes: &[u8], place: u64) -> BandRefusal
    requires { first_fault (lines bytes.now) ≡ Some (at place BandReason.Timestamp) }
    ensures { RefusedAs (open_fault bytes.now) result }
{
    if place == bytes.len() as u64 {
        unterminated(bytes)
    } else {
        BandRefusal::Fault {
            place,
            reason: BandReason::Timestamp,
        }
    }
}

/// An input is at fault where it ends.
fn unterminated(bytes: &[u8]) -> BandRefusal
    ensures { result ≡ BandRefusal.Fault (length bytes.now) BandReason.Unterminated }
{
    BandRefusal::Fault {
        place: bytes.len() as u64,
        reason: BandReason::Unterminated,
    }
}
