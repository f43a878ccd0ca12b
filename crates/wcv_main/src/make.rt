// The command `make`: a listing that is made for a number, and what its root comes to.
ghost use Rattle.std.specs.Prelude.{◌≡◌, ◌+◌, ◌*◌, ◌≤◌, ◌++◌, IfOk, codes, string_bytes};
ghost use Rattle.std.specs.Fmt.{decimal};
ghost use Rattle.wcv_core.specs.Features.{default_features};
ghost use Rattle.wcv_syntax.specs.View.{items_view};
ghost use Rattle.wcv_listing.specs.Generated.{generated};
ghost use Rattle.wcv_main.specs.Due.{made};
ghost use Rattle.wcv_main.specs.Report.{line, report, space_lengths as lengths_of_spaces};
ghost use Rattle.wcv_main.specs.Answers.{Ends, Finishes};

use crate::ends::Sink;
use crate::refusal::{finish, refuse};
use crate::report::push_report;
use crate::report_lines::space_lengths;
use crate::status::Status;
use std::alloc::{AllocError, Global};
use wcv_core::ErrorKind;
use wcv_link::{Accepted, validate_sections};
use wcv_listing::{Listing, generate};
use wcv_state::ComponentState;

// That the listing for `n` was made, and how many items its root has in each index space.
fn summary(alloc: Global, n: u32, state: &ComponentState) -> Result<String, AllocError>
    ensures { IfOk result (λ text. string_bytes text ≡ line (codes "made " ++ decimal n) ++ report (lengths_of_spaces state.now.spaces)) }
{
    let mut text = format!(in alloc; "made {n}\n")?;
    push_report(&mut text, &space_lengths(state))?;
    Ok(text)
}

// Writes that, and answers that all is done, or what failed.
fn write_summary<K: Sink>(alloc: Global, sink: &mut K, n: u32, accepted: Accepted) -> Status
    ensures { Finishes result Status.Done (K.taken sink.old) (K.taken sink.new) (line (codes "made " ++ decimal n) ++ report (lengths_of_spaces accepted.state.spaces)) (K.faults sink.old) (K.faults sink.new) }
{
    let text = summary(alloc, n, &accepted.state);
    drop(accepted);
    match text {
        Ok(text) => finish(sink, Status::Done, text.as_str()),
        Err(_) => Status::Memory,
    }
}

// Writes what is due with the listing that was made for `n`.
fn answer_made<K: Sink>(alloc: Global, sink: &mut K, n: u32, listing: Listing) -> Status
    requires { (listing.features ≡ default_features) × (items_view listing.items.items ≡ generated n) × (listing.end ≡ 5 + 3 * n) }
    ensures { Ends (made n) result (K.taken sink.old) (K.taken sink.new) (K.faults sink.old) (K.faults sink.new) }
{
    match validate_sections(alloc, listing.features, listing.items, listing.end) {
        Ok(accepted) => write_summary(alloc, sink, n, accepted),
        Err(error) => {
            if error.kind() == ErrorKind::OutOfMemory {
                Status::Memory
            } else {
                refuse(alloc, sink, &error)
            }
        }
    }
}

/// Makes the listing for `n`, decides whether it is valid, and writes the report without the type, or the
/// refusal.
pub fn make<K: Sink>(alloc: Global, sink: &mut K, n: u32) -> Status
    requires { n ≤ 1000 }
    ensures { Ends (made n) result (K.taken sink.old) (K.taken sink.new) (K.faults sink.old) (K.faults sink.new) }
{
    match generate(alloc, n) {
        Ok(listing) => answer_made(alloc, sink, n, listing),
        Err(_) => Status::Memory,
    }
}
