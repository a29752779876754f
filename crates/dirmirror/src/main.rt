//! The program `dirmirror`: a mirror of what directory authorities signed. It touches the real runtime.
#![tactic(auto)]

mod program;

use std::process::ExitCode;

fn main(rt: HostRuntime) -> ExitCode {
    program::program(&rt, &rt)
}
