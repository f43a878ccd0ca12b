// Resources that are defined.
ghost use Rattle.std.specs.Prelude.{◌≡◌, ◌<◌, [], ◌∷◌, List, false, not, OnOk, OnErr, IfErr};
ghost use Rattle.wcv_core.specs.CoreForm.{func_form};
ghost use Rattle.wcv_core.specs.CoreGroups.{total};
ghost use Rattle.wcv_core.specs.Names.{Place};
ghost use Rattle.wcv_core.specs.declared.error.ErrorKind.TheVariants as kinds;
ghost use Rattle.wcv_syntax.specs.Model.{resource_type};
ghost use Rattle.wcv_lower.specs.Checks.{IsFree};
ghost use Rattle.wcv_lower.specs.Context.{is_concrete};
ghost use Rattle.wcv_lower.specs.Names.{Names};
ghost use Rattle.wcv_lower.specs.Trees.{Tree_context, tree_maker};
ghost use Rattle.wcv_lower.specs.Types.{form_takes_and_gives, takes_and_gives, rep_checks, dtor_checks, tree_checks};
ghost use Rattle.wcv_spaces.specs.Contents.{kind_of, stack_of, StateStands};
ghost use Rattle.wcv_spaces.specs.Promises.{MemoryOrCausedBy, Keeps};
ghost use Rattle.wcv_decls.specs.Items.{Declares};

use crate::features::check_cm64;
use wcv_core::{
    CompositeInnerType, CoreTypeId, CoreTypes, EntityType, Error, ErrorKind, FuncType, Refusal,
    ValType, WasmFeatures, Why,
};
use wcv_matching::same_val;
use wcv_state::{ComponentKind, ComponentState};
use wcv_types::{ComponentAnyTypeId, TypeAlloc};

/// Whether resources may be defined where the item stands.
fn check_scope(kind: ComponentKind, offset: u64) -> Result<(), Refusal<'static>>
    ensures ok { OnOk result (IsFree ((kinds.ResourceScope, not (is_concrete (kind_of kind))) ∷ [])) }
    ensures err { IfErr result (MemoryOrCausedBy ((kinds.ResourceScope, not (is_concrete (kind_of kind))) ∷ []) offset) }
{
    match kind {
        ComponentKind::Component => Ok(()),
        _ => Err(Error::new(
            ErrorKind::ResourceScope,
            offset,
            Why::new("a resource may be defined in a component, and in no declared type"),
        )),
    }
}

/// Whether a resource may have the representation.
fn check_rep(rep: ValType, features: &WasmFeatures, offset: u64) -> Result<(), Refusal<'static>>
    ensures ok { OnOk result (IsFree (rep_checks features.now rep)) }
    ensures err { IfErr result (MemoryOrCausedBy (rep_checks features.now rep) offset) }
{
    match rep {
        ValType::I32 => Ok(()),
        ValType::I64 => check_cm64(features, offset),
        _ => Err(Error::new(
            ErrorKind::Shape,
            offset,
            Why::new("a resource is represented by `i32`, or by `i64` with the feature `cm64`"),
        )),
    }
}

/// Whether the function takes one value of that type, and gives nothing.
#[tactic(auto, using(crate::proofs::Destructors::some_results))]
fn takes_alone(func: &FuncType, rep: ValType) -> bool
    ensures { result ≡ form_takes_and_gives (rep ∷ []) [] (func_form func.now.params.items func.now.results.items) }
{
    if func.params.len() != 1 {
        return false;
    }
    if func.results.len() != 0 {
        return false;
    }
    same_val(rep, func.params[0])
}

/// So of the core function of that type.
fn is_dtor(core: &CoreTypes, id: CoreTypeId, rep: ValType) -> bool
    requires { id.index < total core.now }
    ensures { result ≡ takes_and_gives core.now (rep ∷ []) [] (EntityType.Func id) }
{
    match &core.get(id).inner {
        CompositeInnerType::Func(func) => takes_alone(func, rep),
        _ => false,
    }
}

/// Whether the destructor, where there is one, is a core function that takes the representation and gives nothing.
fn check_dtor(
    dtor: Option<u32>,
    rep: ValType,
    state: &ComponentState,
    types: &TypeAlloc,
    offset: u64,
) -> Result<(), Error>
    requires { StateStands types.now state.now }
    ensures ok { OnOk result ((outer : List Tree_context) → IsFree (dtor_checks (stack_of types.now state.now outer) rep dtor)) }
    ensures err { IfErr result (λ e. (outer : List Tree_context) → MemoryOrCausedBy (dtor_checks (stack_of types.now state.now outer) rep dtor) offset e) }
{
    let Some(index) = dtor else {
        return Ok(());
    };
    let id = state.core_function_at(index, offset)?;
    let core = types.core_types();
    if is_dtor(core, id, rep) {
        return Ok(());
    }
    let found = core.get(id);
    Err(Error::told(
        ErrorKind::Signature,
        offset,
        format_args!(
            "expected a destructor that takes {rep} and gives nothing, found core function {index}: {found}"
        ),
    ))
}

/// A resource.
#[tactic(auto, using(crate::proofs::Storing::unchanged))]
pub fn add_resource(
    rep: ValType,
    dtor: Option<u32>,
    state: &mut ComponentState,
    types: &mut TypeAlloc,
    offset: u64,
) -> Result<(), Error>
    requires live { state.old.spent ≡ false }
    requires stands { StateStands types.old state.old }
    ensures ok { OnOk result (Declares types.old types.new state.old state.new (resource_type rep dtor)) }
    ensures free { OnOk result ((outer : List Tree_context) (n : Names) (p : Place) → IsFree (tree_checks state.old.features (tree_maker n p) (stack_of types.old state.old outer) (resource_type rep dtor))) }
    ensures err { IfErr result (λ e. (outer : List Tree_context) (n : Names) (p : Place) → MemoryOrCausedBy (tree_checks state.old.features (tree_maker n p) (stack_of types.old state.old outer) (resource_type rep dtor)) offset e) }
    ensures keeps { OnErr result (Keeps types.old types.new state.old state.new) }
{
    check_scope(state.kind(), offset)?;
    check_rep(rep, state.features(), offset)?;
    check_dtor(dtor, rep, state, types, offset)?;
    let id = types.alloc_resource_id()?;
    state.define_resource(id.resource, Some(rep))?;
    state.push_type(ComponentAnyTypeId::Resource(id))?;
    Ok(())
}
