// A document's items, read whole and in pieces.
ghost use Rattle.std.specs.Prelude.{◌≡◌, ◌<◌, ◌^◌, length};

use crate::texts::push_item;
use anyhow::Result;
use dirdoc_grammar::{DocFault, Item, Items, Take};
use item_feeder::Feeder;
use std::alloc::{AllocError, Global};

/// What a reader gave of a document.
#[derive(Drop)]
pub struct Reading {
    /// How many items.
    pub items: u64,
    /// How many of them before it was known that no more bytes follow.
    pub early: u64,
    /// The items, with their places.
    pub text: Vec<u8>,
    /// The first fault.
    pub fault: Option<DocFault>,
}

fn nothing(alloc: Global) -> Reading {
    Reading {
        items: 0,
        early: 0,
        text: Vec::new(alloc),
        fault: None,
    }
}

fn take(alloc: Global, reading: &mut Reading, item: &Item<'_>) -> Result<(), AllocError> {
    reading.items = reading.items.saturating_add(1);
    push_item(alloc, &mut reading.text, item)
}

/// What `Items` gives.
pub fn whole(alloc: Global, bytes: &[u8], limit: u64) -> Result<Reading>
    requires { length bytes.now < 2 ^ 62 }
{
    let mut reading = nothing(alloc);
    let mut items = Items::new(bytes, limit);
    for _ in 0..u64::MAX {
        match items.next() {
            Ok(Some(item)) => take(alloc, &mut reading, &item)?,
            Ok(None) => break,
            Err(fault) => {
                reading.fault = Some(fault);
                break;
            }
        }
    }
    Ok(reading)
}

// Takes all that is known.
fn drain(alloc: Global, feeder: &mut Feeder, reading: &mut Reading) -> Result<()>
    ensures { feeder.new.finished ≡ feeder.old.finished }
{
    'items: for _ in 0..u64::MAX {
        match feeder.look() {
            Take::Item(item) => {
                take(alloc, reading, &item)?;
                let after = item.after;
                feeder.pass(after);
            }
            Take::Fault(fault) => {
                reading.fault = Some(fault);
                break;
            }
            Take::NotYet | Take::End => break,
        }
    }
    Ok(())
}

/// What a `Feeder` gives that is fed pieces of this size.
pub fn in_pieces(alloc: Global, bytes: &[u8], limit: u64, size: usize) -> Result<Reading>
    requires some { 0 < size }
    requires small { limit < 2 ^ 61 }
{
    let mut reading = nothing(alloc);
    let mut feeder = Feeder::new(alloc, limit);
    'pieces: for piece in bytes.chunks(size) {
        feeder.feed(piece)?;
        drain(alloc, &mut feeder, &mut reading)?;
    }
    reading.early = reading.items;
    feeder.finish();
    drain(alloc, &mut feeder, &mut reading)?;
    Ok(reading)
}
