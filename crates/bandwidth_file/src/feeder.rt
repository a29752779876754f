// Bandwidth files that arrive in pieces.
ghost use Rattle.std.specs.Prelude.{◌≡◌, [], ◌++◌, IfErr, IfOk, OnOk, OnErr};
ghost use Rattle.item_terms.specs.Lines.{lines};
ghost use Rattle.bandwidth_file.specs.{Files.{IsBandFile, first_fault}, Refusals.RefusedAs};

use crate::file::BandFile;
use crate::reading::read;
use crate::refusal::BandRefusal;
use dir_bytes::Memory;
use std::alloc::Global;
use std::marker::Model;

/// The bytes of a bandwidth file, as far as they have come. Contracts see them as the list of them.
#[derive(Drop)]
pub struct BandFeeder {
    alloc: Global,
    bytes: Vec<u8>,
}

impl Model for BandFeeder {
    ghost use Rattle.std.specs.Prelude.{List, ℕ};

    ghost Value = { List ℕ };

    ghost view = { λ s. s.bytes.items };
}

impl BandFeeder {
    /// No byte has come yet.
    ///
    /// # Errors
    /// `Memory` is want of memory.
    pub fn new(alloc: Global) -> Result<BandFeeder, Memory>
        ensures { IfOk result (λ feeder. feeder ≡ []) }
    {
        Ok(BandFeeder {
            alloc,
            bytes: Vec::new(alloc),
        })
    }

    /// Takes a piece of any length. Without memory all stays as it was.
    ///
    /// # Errors
    /// `Memory` is want of memory.
    pub fn feed(&mut self, piece: &[u8]) -> Result<(), Memory>
        ensures ok { OnOk result (self.new ≡ self.old ++ piece.now) }
        ensures err { OnErr result (self.new ≡ self.old) }
    {
        self.bytes.extend_from_slice(piece)?;
        Ok(())
    }

    /// What the bytes say that have come. Each line is looked at once, however it came.
    ///
    /// # Errors
    /// `Fault` is the first fault. `Memory` is want of memory.
    pub fn finish(self) -> Result<BandFile, BandRefusal>
        ensures file { IfOk result (λ file. IsBandFile self file) }
        ensures fault { IfErr result (λ refusal. RefusedAs (first_fault (lines self)) refusal) }
    {
        read(self.alloc, &self.bytes)
    }
}
