// The adapters over readers and writers, and a run that meets no fault.
use crate::fakes::{Reads, Writes};
use crate::streams::{LISTING, asked};
use std::alloc::Global;
use wcv_main::{Failed, ReadAdapter, Sink, Source, WriteAdapter, status_of_bytes};

/// Whether `x` is read, then a fault comes, then `y`, and then the end.
fn reads_go_on(calls: &'static [u8]) -> bool {
    let mut source = ReadAdapter::new(Reads {
        calls,
        bytes: b"xy",
    });
    let mut into = [0u8; 3];
    let counts = [
        source.read(&mut into),
        source.read(&mut into),
        source.read(&mut into),
        source.read(&mut into),
    ];
    [
        counts == [Ok(1), Err(Failed), Ok(1), Ok(0)],
        into == *b"y\0\0",
        source.faults() == 1,
    ] == [true; 3]
}

/// Whether no byte is taken of none, then nine bytes of eleven are taken, then a fault comes, and then the two that
/// are left are taken.
fn writes_go_on(calls: &'static [u8], taken: &mut Vec<u8>) -> bool {
    let mut sink = WriteAdapter::new(Writes { calls, taken });
    let counts = [
        sink.write(b""),
        sink.write(b"abcdefghijk"),
        sink.write(b"jk"),
        sink.write(b"jk"),
    ];
    [
        counts == [Ok(0), Ok(9), Err(Failed), Ok(2)],
        sink.faults() == 1,
    ] == [true; 2]
}

/// So where each byte is taken once.
fn all_is_taken(alloc: Global, calls: &'static [u8]) -> bool {
    let mut taken = Vec::new(alloc);
    let counts = writes_go_on(calls, &mut taken);
    [counts, taken.as_slice() == &b"abcdefghijk"[..]] == [true; 2]
}

/// The status of a run over the text, or 9 where there is no memory for it.
fn status(alloc: Global, text: &str) -> u8 {
    match text.as_bytes().to_vec(alloc) {
        Ok(bytes) => status_of_bytes(alloc, &asked(alloc), bytes).code(),
        Err(_) => 9,
    }
}

#[test]
fn a_reader_goes_on_after_a_fault(rt: HostRuntime) {
    assert!(rt; reads_go_on(b"1!1"));
}

#[test]
fn an_interrupted_read_is_tried_again(rt: HostRuntime) {
    assert!(rt; reads_go_on(b"~~1~!1"));
}

#[test]
fn a_writer_goes_on_after_a_fault(rt: HostRuntime) {
    assert!(rt; all_is_taken(rt.alloc(), b"9!"));
}

#[test]
fn an_interrupted_write_is_tried_again(rt: HostRuntime) {
    assert!(rt; all_is_taken(rt.alloc(), b"~~9~!"));
}

#[test]
fn a_full_writer_is_a_fault(rt: HostRuntime) {
    assert!(rt; all_is_taken(rt.alloc(), b"90"));
}

#[test]
fn steady_runs_have_their_status(rt: HostRuntime) {
    assert_eq!(rt; status(rt.alloc(), LISTING), 0);
    assert_eq!(rt; status(rt.alloc(), ""), 3);
}
