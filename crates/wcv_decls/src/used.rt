// Values that are not used.
ghost use Rattle.std.specs.Prelude.{OnOk, IfErr};
ghost use Rattle.wcv_lower.specs.Checks.{IsFree};
ghost use Rattle.wcv_lower.specs.Marks.{unused_checks};
ghost use Rattle.wcv_spaces.specs.Contents.{context_of};
ghost use Rattle.wcv_spaces.specs.Promises.{MemoryOrCausedBy};

use wcv_core::{Error, ErrorKind, Refusal, Why};
use wcv_state::ComponentState;
use wcv_types::TypeAlloc;

/// Whether each value of the component that was read is used.
pub fn check_used(
    state: &ComponentState,
    types: &TypeAlloc,
    offset: u64,
) -> Result<(), Refusal<'static>>
    ensures ok { OnOk result (IsFree (unused_checks (context_of types.now state.now))) }
    ensures err { IfErr result (MemoryOrCausedBy (unused_checks (context_of types.now state.now)) offset) }
{
    let _ = types;
    match state.unused_value() {
        None => Ok(()),
        Some(index) => {
            let why = Why::new("value %1 is not used: each value has to be used once");
            let why = why.numbers([index as u64, 0, 0]);
            Err(Error::new(ErrorKind::Value, offset, why))
        }
    }
}
