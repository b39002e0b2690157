//! The program `epc`: the words after its name are a command, standard input and output and the file system are the
//! outside, and standard error takes the report. Its exit status is the status of the command.
//!
//! It stands on ep_system, whose `carry_out` does all of it, and through that on ep_drive, whose `epc` promises what
//! a command does to the outside, which report it makes and which status it has. Nothing is decided here.
//!
//! Open crates/ep_drive/src/top.rt first, and then crates/ep_system/src/call.rt for how the system becomes the
//! outside of that call. The files args and stdout have a run that the gate compares.
#![tactic(auto)]

use ep_system::carry_out;
use std::process::ExitCode;

fn main(rt: HostRuntime) -> ExitCode {
    ExitCode::from(carry_out(&rt, rt.stdin(), rt.stdout(), rt.stderr()) as u8)
}
