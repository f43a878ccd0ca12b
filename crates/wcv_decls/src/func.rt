// The nodes of function types.
ghost use Rattle.std.specs.Prelude.{◌≡◌, OnOk, IfOk, IfErr};
ghost use Rattle.wcv_syntax.specs.View.{func_view};
ghost use Rattle.wcv_lower.specs.Checks.{IsFree};
ghost use Rattle.wcv_spaces.specs.Contents.{context_of, StateStands};
ghost use Rattle.wcv_spaces.specs.Promises.{MemoryOrCausedBy};
ghost use Rattle.wcv_types.specs.Standing.{Fits};
ghost use Rattle.wcv_types.specs.declared.arena.Node.TheVariants as node;
ghost use Rattle.wcv_decls.specs.Resolved.{IsFuncShape, func_resolve_checks};

use crate::content::check_borrow;
use crate::lists::resolve_fields;
use crate::values::resolve_option;
use std::alloc::Global;
use wcv_core::Refusal;
use wcv_state::ComponentState;
use wcv_syntax::ComponentFuncType as Written;
use wcv_types::{ComponentFuncType, TypeAlloc};

/// The node of a function type.
pub fn resolve_func(
    alloc: Global,
    func: Written,
    state: &ComponentState,
    types: &TypeAlloc,
    offset: u64,
) -> Result<ComponentFuncType, Refusal<'static>>
    requires stands { StateStands types.now state.now }
    ensures fits { IfOk result (λ s. Fits types.now (node.Func s)) }
    ensures ok { IfOk result (IsFuncShape types.now (context_of types.now state.now) (func_view func)) }
    ensures free { OnOk result (IsFree (func_resolve_checks state.now.features (context_of types.now state.now) (func_view func))) }
    ensures err { IfErr result (MemoryOrCausedBy (func_resolve_checks state.now.features (context_of types.now state.now) (func_view func)) offset) }
{
    let params = resolve_fields(alloc, func.params, state, types, offset)?;
    let gives = resolve_option(func.result, state, types, offset)?;
    check_borrow(&gives, types, "the result of a function", offset)?;
    Ok(ComponentFuncType::over(types, func.async_, params, gives))
}
