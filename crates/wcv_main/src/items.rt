// What is due with a listing, and with the items of a component.
ghost use Rattle.std.specs.Prelude.{◌≡◌, ◌++◌};
ghost use Rattle.wcv_core.specs.Refusal.{error_kind, error_offset};
ghost use Rattle.wcv_core.specs.declared.features.WasmFeatures.{WasmFeatures};
ghost use Rattle.wcv_syntax.specs.Model.{Items};
ghost use Rattle.wcv_syntax.specs.View.{items_view};
ghost use Rattle.wcv_types.specs.Text.{type_text};
ghost use Rattle.wcv_types.specs.ComponentTrees.{root_tree};
ghost use Rattle.wcv_link.specs.Accepts.{Accepts};
ghost use Rattle.wcv_main.specs.declared.reading.Reading.TheVariants as reads;
ghost use Rattle.wcv_main.specs.Due.{due_of_short, sections, no_shape as no_shape_at};
ghost use Rattle.wcv_main.specs.Report.{report, space_lengths as lengths_of_spaces};
ghost use Rattle.wcv_main.specs.Answers.{Ends, Finishes};

use crate::ends::Sink;
use crate::pump::WriteError;
use crate::refusal::{finish, refuse};
use crate::report_lines::write_report;
use crate::status::Status;
use std::alloc::Global;
use wcv_core::ErrorKind;
use wcv_link::{Accepted, validate_sections};
use wcv_listing::{Listing, ListingError, read_listing};

// Writes the report of a valid root, and answers that all is done, or what failed.
fn accept<K: Sink>(alloc: Global, sink: &mut K, accepted: &Accepted) -> Status
    requires { (features : WasmFeatures) × ((is : Items) × Accepts features is accepted.now) }
    ensures { Finishes result Status.Done (K.taken sink.old) (K.taken sink.new) (report (lengths_of_spaces accepted.now.state.spaces) ++ type_text accepted.now.types.core (root_tree accepted.now.types accepted.now.ty)) (K.faults sink.old) (K.faults sink.new) }
{
    match write_report(alloc, sink, accepted) {
        Ok(()) => Status::Done,
        Err(WriteError::Failed) => Status::WriteFault,
        Err(WriteError::Memory) => Status::Memory,
    }
}

// Writes the report of a valid root that is read no more.
fn accept_last<K: Sink>(alloc: Global, sink: &mut K, accepted: Accepted) -> Status
    requires { (features : WasmFeatures) × ((is : Items) × Accepts features is accepted) }
    ensures { Finishes result Status.Done (K.taken sink.old) (K.taken sink.new) (report (lengths_of_spaces accepted.state.spaces) ++ type_text accepted.types.core (root_tree accepted.types accepted.ty)) (K.faults sink.old) (K.faults sink.new) }
{
    let status = accept(alloc, sink, &accepted);
    drop(accepted);
    status
}

/// Writes what is due with the items of a component.
pub fn answer_items<K: Sink>(alloc: Global, sink: &mut K, listing: Listing) -> Status
    ensures { Ends (sections listing.features (items_view listing.items.items) listing.end) result (K.taken sink.old) (K.taken sink.new) (K.faults sink.old) (K.faults sink.new) }
{
    match validate_sections(alloc, listing.features, listing.items, listing.end) {
        Ok(accepted) => accept_last(alloc, sink, accepted),
        Err(error) => {
            if error.kind() == ErrorKind::OutOfMemory {
                Status::Memory
            } else {
                refuse(alloc, sink, &error)
            }
        }
    }
}

// Writes that JSON is no listing, and where.
fn no_shape<K: Sink>(alloc: Global, sink: &mut K, at: u64) -> Status
    ensures { Ends (no_shape_at at) result (K.taken sink.old) (K.taken sink.new) (K.faults sink.old) (K.faults sink.new) }
{
    match format!(in alloc; "bad listing at {at}\n") {
        Ok(text) => finish(sink, Status::Listing, text.as_str()),
        Err(_) => Status::Memory,
    }
}

/// Writes what is due with the bytes of a listing, not too many.
pub fn answer_text<K: Sink>(alloc: Global, sink: &mut K, bytes: &[u8]) -> Status
    ensures { Ends (due_of_short reads.Listing bytes.now) result (K.taken sink.old) (K.taken sink.new) (K.faults sink.old) (K.faults sink.new) }
{
    match read_listing(alloc, bytes) {
        Ok(listing) => answer_items(alloc, sink, listing),
        Err(ListingError::NotJson) => finish(sink, Status::Listing, "bad listing: not JSON\n"),
        Err(ListingError::BadShape { at }) => no_shape(alloc, sink, at),
        Err(ListingError::OutOfMemory) => Status::Memory,
    }
}
