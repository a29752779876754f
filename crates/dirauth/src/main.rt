//! The program `dirauth`: a directory authority's tool. The one crate that touches the real runtime.
#![tactic(auto)]

mod program;

use std::process::ExitCode;

fn main(rt: HostRuntime) -> ExitCode {
    program::program(&rt, &rt)
}
