//! The program `epc` with its report on standard output in place of standard error, so that the gate, which compares
//! standard output and the exit status, sees a report and a status that is not 0.
//!
//! It stands on ep_system, as crates/epc does, and differs from that program in the word that names the stream. Open
//! crates/epc/src/main.rt first. The files args, stdout and status have the run of a text that is refused.
#![tactic(auto)]

use ep_system::carry_out;
use std::process::ExitCode;

fn main(rt: HostRuntime) -> ExitCode {
    ExitCode::from(carry_out(&rt, rt.stdin(), rt.stdout(), rt.stdout()) as u8)
}
