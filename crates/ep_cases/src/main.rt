//! Carries out the cases of the tables whose names stand in standard input, one a line, and prints a line for each
//! case that differs from what its table wants and a last line with the counts. docs/CASES.md says how a table is
//! written; the tables stand in the folder data.
//!
//! Each case is a call of `epc` of ep_drive over the objects in memory of ep_outside. The program promises nothing
//! but that it is safe and ends.
//!
//! Open case.rt first, which says what a case is; then row.rt for cases of one line, table.rt for the lines of a
//! table, and judge.rt for how a case is carried out and compared.
#![tactic(auto)]

mod answer;
mod case;
mod judge;
mod outside;
mod row;
mod spelling;
mod table;
mod tally;
mod words;

use std::io;
use tally::Tally;

fn main(rt: HostRuntime) -> io::Result<()> {
    let mut tally = Tally::new();
    for name in rt.lines(rt.alloc()) {
        table::carry_out(&rt, name?.as_str(), &mut tally)?;
    }
    println!(rt; "cases {}, differ {}", tally.cases, tally.differ)
}
