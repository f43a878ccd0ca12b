//! Runs the rows of the files that the arguments name, and writes a line for each that differs from what it says
//! is due, and how many there are. README.md says what a row is.
#![tactic(auto)]

mod answer;
mod blocks;
mod due;
mod question;
mod repeats;
mod second;
mod sections;
mod tally;
mod varied;

use crate::blocks::run_blocks;
use crate::tally::Tally;
use std::alloc::AllocError;
use std::rt::Files;
use std::{env, fs, io};

/// Runs the rows of the file of this name.
fn run_file(
    rt: &(impl Files + AllocGlobal),
    tally: &mut Tally,
    name: &str,
) -> Result<(), io::Error> {
    let text = fs::read_to_string(rt, name)?;
    tally.open(name)?;
    run_blocks(tally, text.as_str())?;
    Ok(())
}

fn main(rt: HostRuntime) -> io::Result<()> {
    let mut tally = Tally::new(rt.alloc());
    for name in env::args(&rt)?.skip(1) {
        run_file(&rt, &mut tally, name.as_str())?;
    }
    let told = tally.told();
    let rows = tally.rows();
    let wrong = tally.wrong();
    println!(rt; "{told}{rows} rows, {wrong} differ")
}
