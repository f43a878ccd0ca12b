// Whole runs over a reader and a writer that take few bytes a call and fail once.
use crate::fakes::{Reads, Writes};
use std::alloc::Global;
use wcv_main::{ReadAdapter, Words, WriteAdapter, run};

/// A function type, its import, and an export of the import.
pub const LISTING: &str = r#"{"version":1,"items":[
{"at":0,"type":{"func":{"params":[["x","u32"],["y","string"]],"result":"bool"}}},
{"at":1,"import":{"name":"f","type":{"func":0}}},
{"at":2,"export":{"name":"g","sort":"func","index":0}}],"end":99}"#;

const ANSWER: &str = r#"accepted
core-types 0
core-funcs 0
core-tags 0
core-modules 0
core-instances 0
core-memories 0
core-tables 0
core-globals 0
types 1
funcs 2
values 0
instances 0
components 0
0: func {"x" u32, "y" string} -> bool
import "f" func 0
export "g" func 0
"#;

/// The word that asks for a validation.
pub fn asked(alloc: Global) -> Words {
    let mut words = Words::new(alloc);
    let _ = words.push("validate");
    words
}

/// The status of a run over ends whose calls are these.
fn streamed(
    words: &Words,
    reads: &'static [u8],
    writes: &'static [u8],
    taken: &mut Vec<u8>,
    alloc: Global,
) -> u8 {
    let mut source = ReadAdapter::new(Reads {
        calls: reads,
        bytes: LISTING.as_bytes(),
    });
    let mut sink = WriteAdapter::new(Writes {
        calls: writes,
        taken,
    });
    run(alloc, words, &mut source, &mut sink).code()
}

/// Whether it is that one, with that text.
fn ends_with(
    alloc: Global,
    reads: &'static [u8],
    writes: &'static [u8],
    code: u8,
    text: &str,
) -> bool {
    let words = asked(alloc);
    let mut taken = Vec::new(alloc);
    let status = streamed(&words, reads, writes, &mut taken, alloc);
    [status == code, taken.as_slice() == text.as_bytes()] == [true; 2]
}

#[test]
fn streams_may_fail_in_their_middle(rt: HostRuntime) {
    let ends = [
        ends_with(rt.alloc(), b"111", b"", 0, ANSWER),
        ends_with(rt.alloc(), b"9999!", b"", 4, ""),
        // Two writes of nine bytes each, and a third that fails.
        ends_with(rt.alloc(), b"", b"99!", 5, "accepted\ncore-type"),
    ];
    assert_eq!(rt; ends, [true; 3]);
}
