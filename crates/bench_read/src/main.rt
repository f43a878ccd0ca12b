//! Reads standard input to its end and reads it as a listing, or by the word `parse` parses it as JSON, and nothing
//! more. What the reading of a listing costs is measured against the bare parse.
#![tactic(auto)]

use serde_json::Value;
use std::env::Env;
use std::io;
use std::io::Read;
use wcv_listing::read_listing;

fn main(rt: HostRuntime) -> io::Result<()> {
    let mut bytes = Vec::new(rt.alloc());
    let count = rt.reader().read_to_end(&mut bytes)?;
    let mut word = [0u8; 5];
    let _ = rt.arg(1, &mut word);
    if word == *b"parse" {
        let is_json = Value::from_slice(rt.alloc(), &bytes).is_ok();
        println!(rt; "{count} bytes, JSON: {is_json}")
    } else {
        let is_listing = read_listing(rt.alloc(), &bytes).is_ok();
        println!(rt; "{count} bytes, a listing: {is_listing}")
    }
}
