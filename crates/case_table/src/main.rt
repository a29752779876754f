//! Worked cases of the program: runs over forms in memory, each with what it is to give.
#![tactic(auto)]

mod case;
mod differences;
mod folder;
mod forms;
mod gates;
mod input;
mod mirrors;
mod outside;
mod runs;
mod serving;
mod table;
mod texts;
mod wanted;
mod worker;

use anyhow::Result;
use table::{Tally, run_table};

fn main(rt: HostRuntime) -> Result<()> {
    let mut tally = Tally { right: 0, all: 0 };
    for name in rt.lines(rt.alloc()) {
        run_table(&rt, &rt, name?.as_str(), &mut tally)?;
    }
    let Tally { right, all } = tally;
    println!(rt; "{right} of {all} cases as wanted")?;
    Ok(())
}
