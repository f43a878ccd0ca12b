// Nodes that join the arena and the types of a state.
ghost use Rattle.std.specs.Prelude.{◌≡◌, false, OnOk, OnErr, IfErr};
ghost use Rattle.wcv_types.specs.Standing.{Fits};
ghost use Rattle.wcv_types.specs.Unfold.{tree_of, trees};
ghost use Rattle.wcv_types.specs.declared.arena.Node.TheVariants as node;
ghost use Rattle.wcv_lower.specs.Checks.{IsFree};
ghost use Rattle.wcv_lower.specs.Context.{in_types};
ghost use Rattle.wcv_lower.specs.Defined.{size_checks};
ghost use Rattle.wcv_lower.specs.Trees.{tree_reader};
ghost use Rattle.wcv_spaces.specs.Contents.{StateStands};
ghost use Rattle.wcv_spaces.specs.Promises.{MemoryOrCausedBy, Keeps};
ghost use Rattle.wcv_decls.specs.Items.{Stored};

use crate::size::check_size;
use wcv_core::Refusal;
use wcv_state::ComponentState;
use wcv_types::{
    ComponentAnyTypeId, ComponentDefinedType, ComponentDefinedTypeId, ComponentFuncType,
    ComponentFuncTypeId, ComponentValType, TypeAlloc, TypeSort,
};

/// A defined type joins, where it is not too large.
#[tactic(auto, using(crate::proofs::Storing::unchanged))]
pub fn store_defined(
    shape: ComponentDefinedType,
    state: &mut ComponentState,
    types: &mut TypeAlloc,
    offset: u64,
) -> Result<(), Refusal<'static>>
    requires live { state.old.spent ≡ false }
    requires stands { StateStands types.old state.old }
    requires fits { Fits types.old (node.Defined shape) }
    ensures ok { OnOk result (Stored in_types types.old types.new state.old state.new (node.Defined shape)) }
    ensures free { OnOk result (IsFree (size_checks tree_reader (tree_of (trees types.old.nodes) (node.Defined shape)))) }
    ensures err { IfErr result (MemoryOrCausedBy (size_checks tree_reader (tree_of (trees types.old.nodes) (node.Defined shape))) offset) }
    ensures keeps { OnErr result (Keeps types.old types.new state.old state.new) }
{
    let id: ComponentDefinedTypeId = types.push_ty(shape)?;
    let abi = types.abi_info(&ComponentValType::Ty(id));
    check_size(id.info(types), abi.size32, abi.size64, offset)?;
    state.push_type(ComponentAnyTypeId::Defined(id))?;
    Ok(())
}

/// So of a function type, which takes no bytes.
#[tactic(auto, using(crate::proofs::Storing::unchanged))]
pub fn store_func(
    shape: ComponentFuncType,
    state: &mut ComponentState,
    types: &mut TypeAlloc,
    offset: u64,
) -> Result<(), Refusal<'static>>
    requires live { state.old.spent ≡ false }
    requires stands { StateStands types.old state.old }
    requires fits { Fits types.old (node.Func shape) }
    ensures ok { OnOk result (Stored in_types types.old types.new state.old state.new (node.Func shape)) }
    ensures free { OnOk result (IsFree (size_checks tree_reader (tree_of (trees types.old.nodes) (node.Func shape)))) }
    ensures err { IfErr result (MemoryOrCausedBy (size_checks tree_reader (tree_of (trees types.old.nodes) (node.Func shape))) offset) }
    ensures keeps { OnErr result (Keeps types.old types.new state.old state.new) }
{
    let id: ComponentFuncTypeId = types.push_ty(shape)?;
    check_size(id.info(types), 0, 0, offset)?;
    state.push_type(ComponentAnyTypeId::Func(id))?;
    Ok(())
}
