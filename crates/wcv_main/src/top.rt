// The top call.
ghost use Rattle.std.specs.Prelude.{◌≡◌, ◌+◌, ◌≤◌, ◌<◌, ◌⊎◌, [], true, false, Some};
ghost use Rattle.std.specs.Io.KnownBytes.{Appends, IsAtEnd};
ghost use Rattle.wcv_main.specs.Faults.{Rose};
ghost use Rattle.wcv_main.specs.Pump.{ConsumesAtMost, ConsumesExactly};
ghost use Rattle.wcv_main.specs.Commands.{is_reading, is_command, reading_of as reading_by_words};
ghost use Rattle.wcv_main.specs.declared.reading.Reading.TheVariants as reads;
ghost use Rattle.wcv_main.specs.Due.{due_of_bytes, due_of_long, due_unread, usage};
ghost use Rattle.wcv_main.specs.Answers.{MayStandIn, Answers, Cuts, Ends};

use crate::binary::{answer_binary, answer_to_listing};
use crate::command::made_number;
use crate::ends::{Sink, Source};
use crate::items::answer_text;
use crate::make::make;
use crate::pump::{ReadError, read_all};
use crate::reading::{Reading, reading_of};
use crate::refusal::finish;
use crate::status::Status;
use crate::words::Words;
use std::alloc::Global;
use wcv_core::OutOfMemory;
use wcv_core::limits::MAX_LISTING;

// Writes that the source gave too many bytes.
fn answer_long<K: Sink>(sink: &mut K, reading: Reading) -> Status
    ensures { Ends (due_of_long reading) result (K.taken sink.old) (K.taken sink.new) (K.faults sink.old) (K.faults sink.new) }
{
    let text = match reading {
        Reading::Listing => "listing is longer than 67108864 bytes\n",
        Reading::Binary(_) | Reading::ToListing(_) => "binary is longer than 67108864 bytes\n",
    };
    finish(sink, Status::TooLong, text)
}

// Writes what is due with the bytes that were read.
fn answer<K: Sink>(alloc: Global, sink: &mut K, reading: Reading, bytes: &[u8]) -> Status
    ensures { Ends (due_of_bytes reading bytes.now) result (K.taken sink.old) (K.taken sink.new) (K.faults sink.old) (K.faults sink.new) }
{
    if bytes.len() > MAX_LISTING {
        return answer_long(sink, reading);
    }
    match reading {
        Reading::Listing => answer_text(alloc, sink, bytes),
        Reading::Binary(features) => answer_binary(alloc, sink, features, bytes),
        Reading::ToListing(features) => answer_to_listing(alloc, sink, features, bytes),
    }
}

// Writes what is due for words with which nothing is read.
fn answer_unread<K: Sink>(alloc: Global, words: &Words, sink: &mut K) -> Status
    ensures { Ends (due_unread words.now) result (K.taken sink.old) (K.taken sink.new) (K.faults sink.old) (K.faults sink.new) }
{
    match made_number(words) {
        Some(n) => make(alloc, sink, n),
        None => finish(
            sink,
            Status::Words,
            "usage: wcv validate, wcv link TURNS or wcv make N\n",
        ),
    }
}

/// Runs the program. With the word `validate` it reads a listing from the source to its end, decides whether the
/// component that it lists is valid, and writes the report or the refusal to the sink. With `validate-binary`, and
/// maybe features behind it, it does so with a component binary, and with `list` it writes the listing of one. With
/// `make` and a number it validates the listing that is made for the number, and writes the report without the
/// type. With other words it writes how it is used. It reads nothing but for the first three.
///
/// Every answer but a fault and out of memory is the one that is due for the words and the bytes, and
/// each has its cause in a clause below. What a source or a sink does not tell, no clause speaks of.
pub fn run<S: Source, K: Sink>(alloc: Global, words: &Words, source: &mut S, sink: &mut K) -> Status
    // A status that tells of no fault stands with the text that is due for the words and the bytes.
    ensures answers { Answers words.now (S.left source.old) result (K.taken sink.old) (K.taken sink.new) }
    // Before a write fault, or out of memory, a prefix of a text that is due was written.
    ensures cuts { Cuts words.now (S.left source.old) result (K.taken sink.old) (K.taken sink.new) }
    ensures words { is_command words.now ≡ false → (result ≡ Status.Words) ⊎ MayStandIn result }
    ensures usage { result ≡ Status.Words → (is_command words.now ≡ false) × Appends (K.taken sink.old) (K.taken sink.new) usage }
    ensures unread { is_reading words.now ≡ false → source.new ≡ source.old }
    ensures read_fault { result ≡ Status.ReadFault → (is_reading words.now ≡ true) × Rose (S.faults source.old) (S.faults source.new) × Appends (K.taken sink.old) (K.taken sink.new) [] }
    ensures read_always { S.faults source.old < S.faults source.new → result ≡ Status.ReadFault }
    ensures write_fault { result ≡ Status.WriteFault → Rose (K.faults sink.old) (K.faults sink.new) }
    ensures write_always { K.faults sink.old < K.faults sink.new → result ≡ Status.WriteFault }
    ensures source_later { S.faults source.old ≤ S.faults source.new }
    ensures sink_later { K.faults sink.old ≤ K.faults sink.new }
    ensures bounded { ConsumesAtMost (S.left source.old) (S.left source.new) (MAX_LISTING + 1) }
    // Of a binary there may also be too many bytes to keep.
    ensures too_long { result ≡ Status.TooLong → reading_by_words words.now ≡ Some reads.Listing → ConsumesExactly (S.left source.old) (S.left source.new) (MAX_LISTING + 1) }
    ensures to_the_end { is_reading words.now ≡ true → result ≡ Status.Done → IsAtEnd (S.left source.new) }
{
    let reading = match reading_of(alloc, words) {
        Ok(Some(reading)) => reading,
        Ok(None) => return answer_unread(alloc, words, sink),
        Err(OutOfMemory) => return Status::Memory,
    };
    let bytes = match read_all(alloc, source) {
        Ok(bytes) => bytes,
        Err(ReadError::Failed) => return Status::ReadFault,
        Err(ReadError::Memory) => return Status::Memory,
    };
    answer(alloc, sink, reading, &bytes)
}
