// Types that are made in one step.
ghost use Rattle.std.specs.Prelude.{◌≡◌, true, false, List, OnOk, OnErr, IfErr};
ghost use Rattle.wcv_core.specs.Names.{Place};
ghost use Rattle.wcv_syntax.specs.View.{type_view};
ghost use Rattle.wcv_lower.specs.Checks.{IsFree};
ghost use Rattle.wcv_lower.specs.Names.{Names};
ghost use Rattle.wcv_lower.specs.Trees.{Tree_context, tree_maker};
ghost use Rattle.wcv_lower.specs.Types.{is_plain_type, type_checks};
ghost use Rattle.wcv_spaces.specs.Contents.{stack_of, StateStands};
ghost use Rattle.wcv_spaces.specs.Promises.{MemoryOrCausedBy, Keeps};
ghost use Rattle.wcv_decls.specs.Declaring.{AreReady, StayReady, DeclaresInstance, MemoryOr, SameAround, ReadsType, RefusesType};
ghost use Rattle.wcv_decls.specs.Items.{Declares};
ghost use Rattle.wcv_decls.specs.Stack.{KeepsOn};

use crate::add::add_plain;
use crate::room::check_types;
use wcv_core::Error;
use wcv_state::ComponentState;
use wcv_syntax::ComponentType;
use wcv_types::TypeAlloc;

/// A type that is made in one step joins the types of a state.
#[tactic(auto, using(crate::proofs::Storing::unchanged))]
fn declare(
    ty: ComponentType,
    state: &mut ComponentState,
    types: &mut TypeAlloc,
    offset: u64,
    check_limit: bool,
) -> Result<(), Error>
    requires live { state.old.spent ≡ false }
    requires stands { StateStands types.old state.old }
    requires plain { is_plain_type (type_view ty) ≡ true }
    ensures ok { OnOk result (Declares types.old types.new state.old state.new (type_view ty)) }
    ensures free { OnOk result ((outer : List Tree_context) (n : Names) (p : Place) → IsFree (type_checks check_limit state.old.features (tree_maker n p) (stack_of types.old state.old outer) (type_view ty))) }
    ensures err { IfErr result (λ e. (outer : List Tree_context) (n : Names) (p : Place) → MemoryOrCausedBy (type_checks check_limit state.old.features (tree_maker n p) (stack_of types.old state.old outer) (type_view ty)) offset e) }
    ensures keeps { OnErr result (Keeps types.old types.new state.old state.new) }
{
    check_types(check_limit, state, types, offset)?;
    add_plain(ty, state, types, offset)
}

/// It joins those of the innermost state.
pub fn declare_plain(
    ty: ComponentType,
    components: &mut Vec<ComponentState>,
    types: &mut TypeAlloc,
    offset: u64,
    check_limit: bool,
) -> Result<(), Error>
    requires ready { AreReady types.old components.old.items }
    requires plain { is_plain_type (type_view ty) ≡ true }
    ensures ok { OnOk result (ReadsType check_limit types.old types.new components.old.items components.new.items (type_view ty)) }
    ensures ready { OnOk result (StayReady types.new components.old.items components.new.items) }
    ensures declares { OnOk result (DeclaresInstance types.old components.old.items → DeclaresInstance types.new components.new.items) }
    ensures err { IfErr result (MemoryOr (RefusesType check_limit types.old types.new components.old.items (type_view ty)) offset) }
    ensures around { OnErr result (SameAround components.old.items components.new.items) }
    ensures keeps { KeepsOn types.old types.new components.old.items components.new.items }
{
    let last = components.len() - 1;
    declare(ty, &mut components[last], types, offset, check_limit)
}
