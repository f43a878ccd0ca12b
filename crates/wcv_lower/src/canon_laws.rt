// Laws of canonical functions, over the definitions alone.
ghost use Rattle.std.specs.Option.{option_or};
ghost use Rattle.std.specs.Prelude.{◌≡◌, ◌⊎◌, ℕ, List, [], ◌∷◌, ◌++◌, All, Bool, true, false, Some, None};
ghost use Rattle.wcv_core.specs.CoreForm.{SubForm, Group, func_form};
ghost use Rattle.wcv_core.specs.CoreGroups.{IsValWithin};
ghost use Rattle.wcv_core.specs.CoreJoining.{first_id, grown};
ghost use Rattle.wcv_core.specs.CoreMatching.{type_at};
ghost use Rattle.wcv_core.specs.CoreTable.{with_group};
ghost use Rattle.wcv_core.specs.CoreWritten.{Core_entry, closed_group};
ghost use Rattle.wcv_core.specs.Features.{default_features};
ghost use Rattle.wcv_core.specs.declared.core_types.EntityType.TheVariants as entity;
ghost use Rattle.wcv_core.specs.declared.core_types.ValType.{ValType};
ghost use Rattle.wcv_core.specs.declared.core_types.ValType.TheVariants as val;
ghost use Rattle.wcv_core.specs.declared.error.ErrorKind.TheVariants as error;
ghost use Rattle.wcv_core.specs.declared.primitive.PrimitiveValType.TheVariants as prim;
ghost use Rattle.wcv_syntax.specs.Model.{Canon_form, resource_type};
ghost use Rattle.wcv_syntax.specs.Model as form;
ghost use Rattle.wcv_syntax.specs.declared.canonical.CanonicalFunction.TheVariants as canon;
ghost use Rattle.wcv_syntax.specs.declared.canonical.CanonicalOption.{CanonicalOption};
ghost use Rattle.wcv_syntax.specs.declared.canonical.CanonicalOption.TheVariants as option;
ghost use Rattle.wcv_syntax.specs.declared.component_type.ComponentValType.TheVariants as value;
ghost use Rattle.wcv_syntax.specs.declared.core_section.ExternalKind.TheVariants as kind;
ghost use Rattle.wcv_types.specs.Tree.{is_func, parts};
ghost use Rattle.wcv_types.specs.Unfold.{Type_tree};
ghost use Rattle.wcv_flat.specs.Options.{pointer_size, type_checks};
ghost use Rattle.wcv_flat.specs.Rows.{async_option};
ghost use Rattle.wcv_flat.specs.RowTypes.{sync, taking};
ghost use Rattle.wcv_flat.specs.Signature.{core_type};
ghost use Rattle.wcv_flat.specs.declared.options.Abi.TheVariants as abi;
ghost use Rattle.wcv_flat.specs.declared.options.CanonicalOptions.{CanonicalOptions};
ghost use Rattle.wcv_flat.specs.declared.options.Concurrency.TheVariants as concurrency;
ghost use Rattle.wcv_lower.specs.CanonOptions.{first, memory_in, stands};
ghost use Rattle.wcv_lower.specs.Canons.{alone, options_in, canon_group, canon_step, canon_checks, func_added, lifted_form, lowered_form, returning_form, lifted_asks, lowered_asks, returning_asks};
ghost use Rattle.wcv_lower.specs.Context.{core_funcs};
ghost use Rattle.wcv_lower.specs.CoreInstances.{core_item_at};
ghost use Rattle.wcv_lower.specs.Readers.{Maker};
ghost use Rattle.wcv_lower.specs.Step.{Step, apply};
ghost use Rattle.wcv_lower.specs.Trees.{tree_reader, Tree_context, Tree_stack};
ghost use Rattle.wcv_lower.specs.Types.{type_step};
ghost use Rattle.wcv_lower.specs.Values.{type_of_sort};
ghost use Rattle.wcv_lower.specs.WorkedCanons.{kinds, appends_type, default_with, with_resource, with_local_resource, times, with_func, with_memory, with_code, with_core_type, with_start, with_stream, with_future, bare_root, with_slots, with_options};

/// Where a canonical function appends a core function, the groups that were read are those before it with its own, and the core function
/// is of that group's type, by its id. One that lifts appends a function of the type that is named. The first that reads or writes a
/// slot says the type of all. A group keeps its id, so functions of one core type have one id; and its type stands there. A type of numbers alone is interned as it is.
pub fn a_canonical_function_appends_the_type_of_its_row()
    ensures core { (s : Tree_stack) (f : Canon_form) (p : Step tree_reader) (g : Group) → canon_step s f ≡ Some p → canon_group s f ≡ Some g →
        ((apply p s).groups ≡ grown s.groups g) × ((apply p s).top.core core_funcs ≡ s.top.core core_funcs ++ tree_reader.core_item (entity.Func (record { index = first_id s.groups g })) ∷ []) }
    ensures lifted { (s : Tree_stack) (k t : ℕ) (os : List CanonicalOption) (p : Step tree_reader) (x : Type_tree) → canon_step s (form.lift k t os) ≡ Some p → type_of_sort is_func s.top t ≡ Some x → p ≡ func_added x }
    ensures slots { (s : Tree_stack) (v : ValType) (n : ℕ) (p : Step tree_reader) → (canon_step s (form.builtin (canon.ContextGet v n)) ≡ Some p) ⊎ (canon_step s (form.builtin (canon.ContextSet v n)) ≡ Some p) →
        (apply p s).top.context_type ≡ option_or s.top.context_type (Some v) }
    ensures id { (gs hs : List Group) (g : Group) → first_id (with_group gs g ++ hs) g ≡ first_id gs g }
    ensures closed { (es : List Core_entry) (b : Bool) (ps rs : List ValType) → All (IsValWithin 0 0) ps → All (IsValWithin 0 0) rs → closed_group es (alone b (func_form ps rs)) ≡ alone b (func_form ps rs) }
    ensures ty { (gs : List Group) (x : SubForm) → type_at (with_group gs (x ∷ [])) (first_id gs (x ∷ [])) ≡ x }
{}

/// Growth takes of the options the first memory and whether `async` stands, and nothing else. It is undefined where nothing stands at the
/// index of that memory, or at the index of a resource's destructor.
pub fn growth_takes_the_first_memory_and_async()
    ensures options { (s : Tree_stack) (f : Canon_form) (os ps : List CanonicalOption) → first memory_in os ≡ first memory_in ps → stands async_option os ≡ stands async_option ps → canon_step s (with_options os f) ≡ canon_step s (with_options ps f) }
    ensures memory { (s : Tree_stack) (f : Canon_form) (os : List CanonicalOption) (i : ℕ) → options_in f ≡ Some os → first memory_in os ≡ Some i → core_item_at s.top kind.Memory i ≡ None → canon_step s f ≡ None }
    ensures destructor { (mk : Maker tree_reader) (c : Tree_context) (rep : ValType) (i : ℕ) → core_item_at c kind.Func i ≡ None → type_step mk c (resource_type rep (Some i)) ≡ None }
{}

/// The core type of a function, and what it asks of options, are those of the type with its names.
pub fn canonical_functions_look_at_no_name()
    ensures lifted { (o : CanonicalOptions) (t : Type_tree) → lifted_form tree_reader o t ≡ core_type (pointer_size o) abi.Lift o.concurrency (parts t) }
    ensures lowered { (o : CanonicalOptions) (t : Type_tree) → lowered_form tree_reader o t ≡ core_type (pointer_size o) abi.Lower o.concurrency (parts t) }
    ensures returned { (o : CanonicalOptions) (t : Type_tree) → returning_form tree_reader o t ≡ core_type (pointer_size o) abi.Lower concurrency.Sync (taking t) }
    ensures asked { (o : CanonicalOptions) (t : Type_tree) → (lifted_asks tree_reader o t ≡ type_checks o abi.Lift (parts t)) × (lowered_asks tree_reader o t ≡ type_checks o abi.Lower (parts t)) × (returning_asks tree_reader o t ≡ type_checks (sync o) abi.Lower (taking t)) }
{}

/// Worked canonical functions: what one appends, and why another is refused.
pub fn worked_canonical_functions()
    ensures resource { canon_step (with_local_resource val.I64) (form.builtin (canon.ResourceRep 0)) ≡ appends_type bare_root (val.I32 ∷ []) (val.I64 ∷ []) }
    ensures imported { kinds (canon_checks default_features with_resource (form.builtin (canon.ResourceNew 0))) ≡ error.ResourceScope ∷ [] }
    ensures encodings { kinds (canon_checks default_features (with_func 0) (form.lower 0 (option.UTF8 ∷ option.UTF16 ∷ []))) ≡ error.Options ∷ [] }
    ensures sixteen { canon_step (with_func 16) (form.lower 0 []) ≡ appends_type bare_root (times 16 val.I32) [] }
    ensures seventeen { kinds (canon_checks default_features (with_func 17) (form.lower 0 [])) ≡ error.Options ∷ [] }
    ensures memory { canon_step (with_memory false 17) (form.lower 0 (option.Memory 0 ∷ [])) ≡ appends_type bare_root (val.I32 ∷ []) [] }
    ensures free { kinds (canon_checks default_features (with_memory false 17) (form.lower 0 (option.Memory 0 ∷ []))) ≡ [] }
    ensures wide { kinds (canon_checks default_features (with_memory true 17) (form.lower 0 (option.Memory 0 ∷ []))) ≡ error.Feature ∷ [] }
    ensures barred { kinds (canon_checks default_features (with_func 0) (form.lower 0 (option.PostReturn 0 ∷ []))) ≡ error.OutOfBounds ∷ error.Options ∷ [] }
    ensures spawned { kinds (canon_checks (default_with 447) (with_core_type true) (form.builtin (canon.ThreadSpawnRef 0))) ≡ [] }
    ensures unshared { kinds (canon_checks (default_with 447) (with_core_type false) (form.builtin (canon.ThreadSpawnRef 0))) ≡ error.Signature ∷ [] }
    ensures lifted { kinds (canon_checks default_features (with_code val.I32) (form.lift 0 0 [])) ≡ [] }
    ensures signature { kinds (canon_checks default_features (with_code val.I64) (form.lift 0 0 [])) ≡ error.Signature ∷ [] }
    ensures returned { canon_step bare_root (form.task_return (Some (value.Primitive prim.U32)) []) ≡ appends_type bare_root (val.I32 ∷ []) [] }
    ensures thread { kinds (canon_checks default_features bare_root (form.builtin canon.ThreadIndex)) ≡ error.Feature ∷ [] }
    ensures slots { kinds (canon_checks (default_with 8511) (with_slots val.I32) (form.builtin (canon.ContextSet val.I64 0))) ≡ error.Context ∷ [] }
    ensures stream { kinds (canon_checks default_features with_stream (form.stream_read 0 (option.Async ∷ []))) ≡ error.Options ∷ [] }
    ensures future { kinds (canon_checks default_features with_future (form.stream_read 0 (option.Async ∷ []))) ≡ error.WrongSort ∷ [] }
    ensures narrow { kinds (canon_checks (default_with 4415) (with_start val.I64) (form.builtin (canon.ThreadNewIndirect 0 0))) ≡ error.Signature ∷ [] }
    ensures started { kinds (canon_checks (default_with 12607) (with_start val.I64) (form.builtin (canon.ThreadNewIndirect 0 0))) ≡ [] }
    ensures grows { canon_step (with_func 0) (form.lower 0 (option.Realloc 0 ∷ option.PostReturn 0 ∷ option.Callback 0 ∷ option.CoreType 0 ∷ [])) ≡ appends_type bare_root [] [] }
    ensures undefined { canon_step (with_func 0) (form.lower 0 (option.Memory 0 ∷ [])) ≡ None }
{}
