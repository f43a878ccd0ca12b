// The limit that the adding of canonical functions leaves to its caller.
ghost use Rattle.std.specs.Prelude.{◌≡◌, length, OnOk, IfErr};
ghost use Rattle.std.specs.Option.{option_map};
ghost use Rattle.wcv_syntax.specs.View.{canon_view};
ghost use Rattle.wcv_lower.specs.Canons.{options_in, canon_left};
ghost use Rattle.wcv_lower.specs.Checks.{IsFree};
ghost use Rattle.wcv_spaces.specs.Promises.{MemoryOrCausedBy};

use crate::limits::check_count;
use wcv_core::Refusal;
use wcv_core::limits::MAX_LIST;
use wcv_syntax::CanonicalFunction;

/// How many options a canonical function has, where it has a list of them.
fn option_count(func: &CanonicalFunction) -> Option<usize>
    ensures { result ≡ option_map length (options_in (canon_view func.now)) }
{
    match func {
        CanonicalFunction::Lift { options, .. }
        | CanonicalFunction::Lower { options, .. }
        | CanonicalFunction::TaskReturn { options, .. }
        | CanonicalFunction::StreamRead { options, .. }
        | CanonicalFunction::StreamWrite { options, .. }
        | CanonicalFunction::FutureRead { options, .. }
        | CanonicalFunction::FutureWrite { options, .. }
        | CanonicalFunction::ErrorContextNew { options }
        | CanonicalFunction::ErrorContextDebugMessage { options } => Some(options.len()),
        _ => None,
    }
}

/// Whether the list of options of a canonical function keeps its limit.
pub fn check_canon_limits(func: &CanonicalFunction, offset: u64) -> Result<(), Refusal<'static>>
    ensures ok { OnOk result (IsFree (canon_left (canon_view func.now))) }
    ensures err { IfErr result (MemoryOrCausedBy (canon_left (canon_view func.now)) offset) }
{
    match option_count(func) {
        Some(count) => check_count(count, MAX_LIST, "canonical function", "option", offset),
        None => Ok(()),
    }
}
