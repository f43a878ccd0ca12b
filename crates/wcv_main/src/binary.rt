// What is due with a component binary.
ghost use Rattle.std.specs.Prelude.{◌≡◌, List, ℕ, string_bytes, IfOk};
ghost use Rattle.serde_json.specs.Written.{compact_text};
ghost use Rattle.wcv_syntax.specs.View.{entries};
ghost use Rattle.wcv_main.specs.declared.reading.Reading.TheVariants as reads;
ghost use Rattle.wcv_main.specs.Due.{due_of_short, due_of_class, IsFaultText};
ghost use Rattle.wcv_bytes.specs.Faults.{class_of};
ghost use Rattle.wcv_write.specs.Indices.{numbers};
ghost use Rattle.wcv_write.specs.Listing.{listing_data};
ghost use Rattle.wcv_main.specs.Report.{line};
ghost use Rattle.wcv_main.specs.Answers.{Ends, Finishes};

use crate::ends::Sink;
use crate::items::answer_items;
use crate::refusal::{finish, finish_bytes};
use crate::status::Status;
use std::alloc::{AllocError, Global};
use wcv_binary::{Binary, BinaryError, BinaryFault, Class, read_binary, read_binary_within};
use wcv_core::{OutOfMemory, WasmFeatures};
use wcv_listing::Listing;
use wcv_write::write_listing;

// How deep components and declared types may stand in each other where a listing is written, the last of them not
// counted. JSON nests 127 levels: each of them takes three, the root two, and what stands in an item at most nine.
const MAX_LISTED_DEPTH: usize = 37;

// The byte at which reading did not go on, and what was expected there.
fn fault_message(alloc: Global, bytes: &[u8], fault: BinaryFault) -> Result<String, AllocError> {
    let mut message = String::new(alloc);
    match bytes.get(fault.at as usize) {
        Some(byte) => write!(message, "byte 0x{byte:02x}, expected ")?,
        None => message.push_str("the bytes end here, expected ")?,
    }
    message.push_str(fault.why.expected())?;
    Ok(message)
}

// The lines that tell where a binary is not read on, and what was expected.
fn fault_text(
    alloc: Global,
    words: &str,
    bytes: &[u8],
    fault: BinaryFault,
) -> Result<String, AllocError>
    ensures { IfOk result (λ text. IsFaultText words.now fault.at (string_bytes text)) }
{
    let at = fault.at;
    let mut text = format!(in alloc; "{words} at {at}\n")?;
    let message = fault_message(alloc, bytes, fault)?;
    text.push_str(message.as_str())?;
    text.push_str("\n")?;
    Ok(text)
}

// Writes these lines.
fn finish_fault<K: Sink>(
    alloc: Global,
    sink: &mut K,
    words: &str,
    bytes: &[u8],
    fault: BinaryFault,
) -> Status
    ensures { (text : List ℕ) × IsFaultText words.now fault.at text × Finishes result Status.Listing (K.taken sink.old) (K.taken sink.new) text (K.faults sink.old) (K.faults sink.new) }
{
    match fault_text(alloc, words, bytes, fault) {
        Ok(text) => finish(sink, Status::Listing, text.as_str()),
        Err(_) => Status::Memory,
    }
}

// Writes what is due with bytes that are no binary that a listing says.
fn answer_fault<K: Sink>(alloc: Global, sink: &mut K, bytes: &[u8], fault: BinaryFault) -> Status
    ensures { Ends (due_of_class (class_of fault.why) fault.at) result (K.taken sink.old) (K.taken sink.new) (K.faults sink.old) (K.faults sink.new) }
{
    match fault.why.class() {
        Class::Malformed => finish_fault(alloc, sink, "bad binary", bytes, fault),
        Class::Unsupported => finish_fault(alloc, sink, "unsupported", bytes, fault),
        Class::TooMuch => finish(
            sink,
            Status::TooLong,
            "binary has more than 8388608 bytes to keep\n",
        ),
    }
}

/// Writes what is due with the bytes of a binary, not too many, whose component is validated.
pub fn answer_binary<K: Sink>(
    alloc: Global,
    sink: &mut K,
    features: WasmFeatures,
    bytes: &[u8],
) -> Status
    ensures { Ends (due_of_short (reads.Binary features) bytes.now) result (K.taken sink.old) (K.taken sink.new) (K.faults sink.old) (K.faults sink.new) }
{
    match read_binary(alloc, bytes) {
        Ok(binary) => answer_items(
            alloc,
            sink,
            Listing {
                features,
                items: binary.items,
                end: binary.end,
            },
        ),
        Err(BinaryError::Fault(fault)) => answer_fault(alloc, sink, bytes, fault),
        Err(BinaryError::OutOfMemory) => Status::Memory,
    }
}

// The listing of a component, and a line end.
fn listing_text(
    alloc: Global,
    features: Option<WasmFeatures>,
    binary: &Binary,
) -> Result<Vec<u8>, OutOfMemory>
    ensures { IfOk result (λ text. text.items ≡ line (compact_text (listing_data numbers features (entries binary.now.items.items) binary.now.end))) }
{
    let mut text = write_listing(alloc, features, &binary.items, binary.end)?;
    text.push(b'\n')?;
    Ok(text)
}

// Writes it.
fn finish_listing<K: Sink>(
    alloc: Global,
    sink: &mut K,
    features: Option<WasmFeatures>,
    binary: Binary,
) -> Status
    ensures { Finishes result Status.Done (K.taken sink.old) (K.taken sink.new) (line (compact_text (listing_data numbers features (entries binary.items.items) binary.end))) (K.faults sink.old) (K.faults sink.new) }
{
    let text = listing_text(alloc, features, &binary);
    drop(binary);
    match text {
        Ok(text) => finish_bytes(sink, Status::Done, &text),
        Err(OutOfMemory) => Status::Memory,
    }
}

/// Writes what is due with the bytes of a binary, not too many, of which the listing is written.
pub fn answer_to_listing<K: Sink>(
    alloc: Global,
    sink: &mut K,
    features: Option<WasmFeatures>,
    bytes: &[u8],
) -> Status
    ensures { Ends (due_of_short (reads.ToListing features) bytes.now) result (K.taken sink.old) (K.taken sink.new) (K.faults sink.old) (K.faults sink.new) }
{
    match read_binary_within(alloc, MAX_LISTED_DEPTH, bytes) {
        Ok(binary) => finish_listing(alloc, sink, features, binary),
        Err(BinaryError::Fault(fault)) => answer_fault(alloc, sink, bytes, fault),
        Err(BinaryError::OutOfMemory) => Status::Memory,
    }
}
