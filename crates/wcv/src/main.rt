//! Validates the component that standard input lists or holds, or lists it, and writes to standard output.
#![tactic(auto)]

use std::alloc::Global;
use std::env::{Env, FillError};
use std::io;
use std::process::ExitCode;
use wcv_core::OutOfMemory;
use wcv_main::{ReadAdapter, Status, Words, WriteAdapter, run};

/// A word that is longer is no command.
const LONGEST_WORD: usize = 512;

/// The words after the program's name. One that is no text, or is too long, is handed on as the empty
/// word, which is no command.
fn read_words(rt: &impl Env, alloc: Global) -> Result<Words, OutOfMemory> {
    let mut words = Words::new(alloc);
    let mut buffer = [0u8; LONGEST_WORD];
    for k in 1..usize::MAX {
        match rt.arg(k, &mut buffer) {
            Ok(count) => words.push(std::str::from_utf8(&buffer[..count]).unwrap_or(""))?,
            Err(FillError::NotPresent) => break,
            Err(_) => words.push("")?,
        }
    }
    Ok(words)
}

fn main(rt: HostRuntime) -> ExitCode {
    let status = match read_words(&rt, rt.alloc()) {
        Ok(words) => {
            let mut source = ReadAdapter::new(rt.reader());
            let mut sink = WriteAdapter::new(io::writer(&rt));
            run(rt.alloc(), &words, &mut source, &mut sink)
        }
        Err(OutOfMemory) => Status::Memory,
    };
    ExitCode::from(status.code())
}
