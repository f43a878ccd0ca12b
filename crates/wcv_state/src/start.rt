// Start items.
ghost use Rattle.std.specs.Prelude.{◌≡◌, ◌<◌, ℕ, false, true, List, All, take, length, not, ◌∷◌, [], ◌++◌, option_to_list, OnOk, OnErr, IfErr};
ghost use Rattle.wcv_core.specs.Names.{Place};
ghost use Rattle.wcv_core.specs.Refusal.{error_kind, error_offset};
ghost use Rattle.wcv_core.specs.declared.error.ErrorKind.TheVariants as kind;
ghost use Rattle.wcv_syntax.specs.Model.{start_item};
ghost use Rattle.wcv_types.specs.Entities.{SlotStands};
ghost use Rattle.wcv_types.specs.Standing.{Stands};
ghost use Rattle.wcv_types.specs.Unfold.{trees, tree_at, value_slot};
ghost use Rattle.wcv_types.specs.declared.ids.Part.TheVariants as part;
ghost use Rattle.wcv_matching.specs.Refusals.{MemoryOrMismatch};
ghost use Rattle.wcv_matching.specs.TableMatching.{TypeMatches};
ghost use Rattle.wcv_names.specs.FuncTrees.{IsFunction};
ghost use Rattle.wcv_names.specs.Shapes.{FuncStands, ParamsStand};
ghost use Rattle.wcv_lower.specs.Checks.{IsFree};
ghost use Rattle.wcv_lower.specs.Context.{in_funcs, in_values};
ghost use Rattle.wcv_lower.specs.Trees.{Tree_context, tree_reader};
ghost use Rattle.wcv_spaces.specs.Contents.{IdStands, StateStands, used_at};
ghost use Rattle.wcv_spaces.specs.Parts.{lists};
ghost use Rattle.wcv_spaces.specs.Promises.{MemoryOrCausedBy, Keeps, Grew, Refuses};
ghost use Rattle.wcv_state.specs.Starting.{value_tree, begin_checks, count_checks, argument_checks, room_checks, start_id_checks, with_given, IsStarted};

use crate::state::ComponentState;
use bitflags::Flags;
use std::marker::Brand;
use std::sync::ledger::{Blank, Ledger};
use wcv_core::limits::MAX_INSTANCES;
use wcv_core::{Error, ErrorKind, Excerpt, Refusal, Text, WasmFeatures, Why};
use wcv_spaces::entries::check_count;
use wcv_spaces::features::check_feature;
use wcv_spaces::indices::element_at;
use wcv_spaces::spaces::{Spaces, append};
use wcv_spaces::values::use_value;
use wcv_subtype::component_val_type;
use wcv_types::{ComponentFuncType, ComponentFuncTypeId, ComponentValType, Steps, TypeAlloc};

/// Whether a start function may be named.
fn check_begin(features: &WasmFeatures, started: bool, offset: u64) -> Result<(), Refusal<'static>>
    ensures ok { OnOk result (IsFree (begin_checks features.now started)) }
    ensures err { IfErr result (MemoryOrCausedBy (begin_checks features.now started) offset) }
{
    check_feature(
        features.contains(WasmFeatures::CM_VALUES),
        WasmFeatures::CM_VALUES,
        "a start item",
        offset,
    )?;
    if started {
        let why = Why::new("a start function is named already: a component names one at most");
        return Err(Error::new(ErrorKind::StartTwice, offset, why));
    }
    Ok(())
}

/// The function type.
fn func_of(types: &TypeAlloc, id: ComponentFuncTypeId) -> &ComponentFuncType
    requires { Stands types.now (part.Func id) }
    ensures stands { FuncStands types.now result.now }
    ensures tree { IsFunction types.now (tree_at types.now (part.Func id)) result.now }
{
    types.get(id)
}

/// How many results the function has.
fn result_count(func: &ComponentFuncType) -> u32
    ensures { result ≡ length (option_to_list func.now.result) }
{
    match func.result {
        Some(_) => 1,
        None => 0,
    }
}

/// Whether the function takes so many arguments and gives so many results.
fn check_counts(
    func: &ComponentFuncType,
    args: usize,
    results: u32,
    offset: u64,
) -> Result<(), Refusal<'static>>
    ensures ok { OnOk result (IsFree (count_checks args (length func.now.params.items) results (length (option_to_list func.now.result)))) }
    ensures err { IfErr result (MemoryOrCausedBy (count_checks args (length func.now.params.items) results (length (option_to_list func.now.result))) offset) }
{
    if args != func.params.len() {
        let why = Why::new("the number of arguments is %2, and the start function takes %1");
        let why = why.numbers([func.params.len() as u64, args as u64, 0]);
        return Err(Error::new(ErrorKind::Signature, offset, why));
    }
    if results != result_count(func) {
        let why = Why::new("the number of results is %2, and the start function gives %1");
        let why = why.numbers([result_count(func) as u64, results as u64, 0]);
        return Err(Error::new(ErrorKind::Signature, offset, why));
    }
    Ok(())
}

/// Whether the value type is the other, with the steps counted.
fn value_matches<L: Ledger>(
    types: &TypeAlloc,
    found: &ComponentValType,
    expected: &ComponentValType,
    offset: u64,
    blank: Blank,
) -> Result<(), Error>
    requires found { SlotStands types.now (value_slot found.now) }
    requires expected { SlotStands types.now (value_slot expected.now) }
    requires name { blank.name ≡ L.name }
    requires parts { blank.parts ≡ L.parts }
    requires some { 0 < blank.parts }
    ensures ok { OnOk result (TypeMatches types.now.core (value_tree (trees types.now.nodes) found.now) (value_tree (trees types.now.nodes) expected.now)) }
    ensures err { IfErr result (MemoryOrMismatch offset (TypeMatches types.now.core (value_tree (trees types.now.nodes) found.now) (value_tree (trees types.now.nodes) expected.now))) }
{
    let mut steps: Steps<L> = Steps::new(blank);
    component_val_type(types, found, expected, offset, &mut steps)
}

/// The refusal of a value that is no argument for the parameter.
fn unsuited(param: &Text, index: u32, offset: u64) -> Error
    ensures kind { error_kind result ≡ ErrorKind.Signature }
    ensures offset { error_offset result ≡ offset }
{
    let param = Excerpt(param.as_str());
    Error::told(
        ErrorKind::Signature,
        offset,
        format_args!(
            "value index {index} is not of the type of parameter `{param}` of the start function"
        ),
    )
}

/// Whether the value at the index is of the type of the parameter.
fn check_argument(
    types: &TypeAlloc,
    found: &ComponentValType,
    param: &(Text, ComponentValType),
    index: u32,
    offset: u64,
) -> Result<(), Error>
    requires found { SlotStands types.now (value_slot found.now) }
    requires param { SlotStands types.now (value_slot param.now.1) }
    ensures ok { OnOk result (tree_reader.matches types.now.core (value_tree (trees types.now.nodes) found.now) (value_tree (trees types.now.nodes) param.now.1) ≡ true) }
    ensures err { IfErr result (MemoryOrCausedBy ((kind.Signature, not (tree_reader.matches types.now.core (value_tree (trees types.now.nodes) found.now) (value_tree (trees types.now.nodes) param.now.1))) ∷ []) offset) }
{
    types.nodes_fit();
    let _count = types.core_types().len();
    match value_matches::<Brand>(types, found, &param.1, offset, Blank::new(1)) {
        Ok(()) => Ok(()),
        Err(error) => match error.kind() {
            ErrorKind::OutOfMemory => Err(error),
            _ => Err(unsuited(&param.0, index, offset)),
        },
    }
}

/// The values at the indices are used from here on, each for the parameter at its place.
fn use_arguments(
    types: &TypeAlloc,
    values: &mut [(ComponentValType, bool)],
    args: &[u32],
    params: &[(Text, ComponentValType)],
    offset: u64,
) -> Result<(), Error>
    requires count { length args.now ≡ length params.now }
    requires values { All (IdStands types.now in_values) values.old }
    requires params { ParamsStand types.now params.now }
    ensures ok { OnOk result (values.new ≡ used_at args.now values.old) }
    ensures free { OnOk result (IsFree (argument_checks types.now values.old args.now params.now)) }
    ensures err { IfErr result (MemoryOrCausedBy (argument_checks types.now values.old args.now params.now) offset) }
    ensures left { OnErr result ((k : ℕ) × (values.new ≡ used_at (take k args.now) values.old)) }
{
    for k in 0..args.len() {
        let found = use_value(values, args[k], offset)?;
        check_argument(types, &found, &params[k], args[k], offset)?;
    }
    Ok(())
}

/// What a function gives joins the values, not used yet.
fn push_given(
    values: &mut Vec<(ComponentValType, bool)>,
    gives: Option<ComponentValType>,
    offset: u64,
) -> Result<(), Refusal<'static>>
    ensures ok { OnOk result (values.new.items ≡ with_given gives values.old.items) }
    ensures free { OnOk result (IsFree (room_checks values.old.items gives)) }
    ensures err { IfErr result (MemoryOrCausedBy (room_checks values.old.items gives) offset) }
    ensures left { OnErr result (values.new.items ≡ values.old.items) }
{
    if let Some(ty) = gives {
        check_count(values.len(), MAX_INSTANCES, "value", offset)?;
        append(values, (ty, false))?;
    }
    Ok(())
}

/// The arguments are used, and what the function gives joins the values.
fn start(
    spaces: &mut Spaces,
    func_index: u32,
    args: &[u32],
    results: u32,
    types: &TypeAlloc,
    offset: u64,
) -> Result<(), Error>
    requires funcs { All (IdStands types.now in_funcs) (lists spaces.old).funcs }
    requires values { All (IdStands types.now in_values) (lists spaces.old).values }
    ensures ok { OnOk result (IsStarted types.now (lists spaces.old) (lists spaces.new) func_index args.now results) }
    ensures err { IfErr result (MemoryOrCausedBy (start_id_checks types.now (lists spaces.old) func_index args.now results) offset) }
    ensures left { OnErr result ((k : ℕ) × (lists spaces.new ≡ record (lists spaces.old) { values = used_at (take k args.now) (lists spaces.old).values })) }
{
    let id = element_at(&spaces.funcs, "function", func_index, offset)?;
    let func = func_of(types, id);
    check_counts(func, args.len(), results, offset)?;
    use_arguments(types, &mut spaces.values, args, &func.params, offset)?;
    push_given(&mut spaces.values, func.result, offset)?;
    Ok(())
}

impl ComponentState {
    /// Reads a start item: the function is called with the values at the indices, each of which is used from here on,
    /// and what it gives joins the values. Refuses a second start function as `StartTwice`, an index that is not below
    /// the length as `OutOfBounds`, a value that is used as `Value`, another number of arguments or of results than the
    /// function has and an argument of another type as `Signature`, more values than there may be as `Limit`, and
    /// all of it without the feature as `Feature`. The number of arguments is left to the caller.
    pub fn add_start(
        &mut self,
        func_index: u32,
        args: &[u32],
        results: u32,
        types: &TypeAlloc,
        offset: u64,
    ) -> Result<(), Error>
        requires live { self.old.spent ≡ false }
        requires stands { StateStands types.now self.old }
        ensures ok { OnOk result ((outer : List Tree_context) (p : Place) → Grew types.now types.now outer p self.old self.new (start_item func_index args.now results)) }
        ensures err { IfErr result (λ e. (outer : List Tree_context) (p : Place) → Refuses types.now types.now outer p self.old self.new (start_item func_index args.now results) offset e) }
        ensures keeps { Keeps types.now types.now self.old self.new }
    {
        self.spent = true;
        check_begin(&self.features, self.started, offset)?;
        start(&mut self.spaces, func_index, args, results, types, offset)?;
        self.started = true;
        self.spent = false;
        Ok(())
    }
}
