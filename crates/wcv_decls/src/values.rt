// Value types, looked up.
ghost use Rattle.std.specs.Prelude.{◌≡◌, Some, OnOk, IfOk, IfErr};
ghost use Rattle.wcv_lower.specs.Checks.{IsFree};
ghost use Rattle.wcv_lower.specs.Values.{option_checks};
ghost use Rattle.wcv_spaces.specs.Contents.{context_of, StateStands};
ghost use Rattle.wcv_spaces.specs.Promises.{MemoryOrCausedBy};
ghost use Rattle.wcv_decls.specs.Resolved.{IsOption};

use wcv_core::Refusal;
use wcv_state::{ComponentState, check_primitive};
use wcv_syntax::ComponentValType as Written;
use wcv_types::{ComponentValType, TypeAlloc};

/// The value type that is written.
#[tactic(auto, using(crate::proofs::LookedUp::primitive_is))]
pub fn resolve(
    ty: Written,
    state: &ComponentState,
    types: &TypeAlloc,
    offset: u64,
) -> Result<ComponentValType, Refusal<'static>>
    requires stands { StateStands types.now state.now }
    ensures ok { IfOk result (λ v. IsOption types.now (context_of types.now state.now) (Some ty) (Some v)) }
    ensures free { OnOk result (IsFree (option_checks state.now.features (context_of types.now state.now) (Some ty))) }
    ensures err { IfErr result (MemoryOrCausedBy (option_checks state.now.features (context_of types.now state.now) (Some ty)) offset) }
{
    let _ = types;
    match ty {
        Written::Primitive(primitive) => {
            check_primitive(primitive, state.features(), offset)?;
            Ok(ComponentValType::Primitive(primitive))
        }
        Written::Ty(index) => Ok(ComponentValType::Ty(state.defined_type_at(index, offset)?)),
    }
}

/// So of one that may be left out.
#[tactic(auto, using(crate::proofs::LookedUp::nothing_is))]
pub fn resolve_option(
    ty: Option<Written>,
    state: &ComponentState,
    types: &TypeAlloc,
    offset: u64,
) -> Result<Option<ComponentValType>, Refusal<'static>>
    requires stands { StateStands types.now state.now }
    ensures ok { IfOk result (IsOption types.now (context_of types.now state.now) ty) }
    ensures free { OnOk result (IsFree (option_checks state.now.features (context_of types.now state.now) ty)) }
    ensures err { IfErr result (MemoryOrCausedBy (option_checks state.now.features (context_of types.now state.now) ty) offset) }
{
    match ty {
        Some(value) => Ok(Some(resolve(value, state, types, offset)?)),
        None => Ok(None),
    }
}
