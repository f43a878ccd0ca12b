// A whole text as the answer, and the text of a refusal.
ghost use Rattle.std.specs.Prelude.{List, ℕ, string_bytes, IfOk};
ghost use Rattle.wcv_core.specs.Refusal.{error_kind, error_offset};
ghost use Rattle.wcv_main.specs.Due.{IsRefusalText};
ghost use Rattle.wcv_main.specs.Answers.{Finishes};

use crate::ends::Sink;
use crate::pump::write_all;
use crate::status::Status;
use std::alloc::{AllocError, Global};
use wcv_core::Error;

/// Writes the bytes, and answers the status, or that a write failed.
pub fn finish_bytes<K: Sink>(sink: &mut K, status: Status, text: &[u8]) -> Status
    ensures { Finishes result status (K.taken sink.old) (K.taken sink.new) text.now (K.faults sink.old) (K.faults sink.new) }
{
    match write_all(sink, text) {
        Ok(()) => status,
        Err(_) => Status::WriteFault,
    }
}

/// Writes the text, and answers the status, or that a write failed.
pub fn finish<K: Sink>(sink: &mut K, status: Status, text: &str) -> Status
    ensures { Finishes result status (K.taken sink.old) (K.taken sink.new) text.now (K.faults sink.old) (K.faults sink.new) }
{
    finish_bytes(sink, status, text.as_bytes())
}

/// The two lines of a refusal.
fn refusal_text(alloc: Global, error: &Error) -> Result<String, AllocError>
    ensures { IfOk result (λ text. IsRefusalText (error_kind error.now) (error_offset error.now) (string_bytes text)) }
{
    let kind = error.kind();
    let offset = error.offset();
    let mut text = format!(in alloc; "refused {kind} at {offset}\n")?;
    let message = error.to_string(alloc)?;
    text.push_str(message.as_str())?;
    text.push_str("\n")?;
    Ok(text)
}

/// Writes the two lines of a refusal.
pub fn refuse<K: Sink>(alloc: Global, sink: &mut K, error: &Error) -> Status
    ensures { (text : List ℕ) × IsRefusalText (error_kind error.now) (error_offset error.now) text × Finishes result Status.Refused (K.taken sink.old) (K.taken sink.new) text (K.faults sink.old) (K.faults sink.new) }
{
    match refusal_text(alloc, error) {
        Ok(text) => finish(sink, Status::Refused, text.as_str()),
        Err(_) => Status::Memory,
    }
}
