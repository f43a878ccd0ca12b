// Laws of composition, and of lists of values that agree with contexts.
ghost use Rattle.std.specs.Prelude.{◌≡◌, ℕ, List, Option, [], All, bytes_eq, length, true, Some};
ghost use Rattle.std.specs.Map.{lookup};
ghost use Rattle.wcv_core.specs.CoreForm.{Group};
ghost use Rattle.wcv_core.specs.Names.{Name, Place};
ghost use Rattle.wcv_core.specs.declared.core_types.ValType.{ValType};
ghost use Rattle.wcv_core.specs.declared.features.WasmFeatures.{WasmFeatures};
ghost use Rattle.wcv_syntax.specs.Model.{Canon_form, Defined_form, Func_form, Module_decl, alias_item, bag, canon_item, core_bag, core_instance_item, core_instantiate, core_module_item, core_module_type, core_rec, core_type_item, defined_type, export_item, func_type, import_item, instance_item, no_items, resource_type, start_item, type_item};
ghost use Rattle.wcv_syntax.specs.ModuleTypes.{Made, empty_module};
ghost use Rattle.wcv_syntax.specs.declared.core_section.Export.{Export};
ghost use Rattle.wcv_syntax.specs.declared.core_section.InstantiationArg.{InstantiationArg};
ghost use Rattle.wcv_syntax.specs.declared.instance.ComponentAlias.{ComponentAlias};
ghost use Rattle.wcv_syntax.specs.declared.name.ComponentExport.{ComponentExport};
ghost use Rattle.wcv_syntax.specs.declared.name.ComponentImport.{ComponentImport};
ghost use Rattle.wcv_types.specs.Tree.{Text, head, is_component, is_value, sort};
ghost use Rattle.wcv_types.specs.Unfold.{Type_tree};
ghost use Rattle.wcv_closed.specs.ClosedMatching.{SupersKeepForm};
ghost use Rattle.wcv_closed.specs.ClosedTable.{IsTable};
ghost use Rattle.wcv_matching.specs.Matching.{named_exports, named_imports};
ghost use Rattle.wcv_lower.specs.Canons.{func_at};
ghost use Rattle.wcv_lower.specs.Context.{is_concrete};
ghost use Rattle.wcv_lower.specs.CoreItems.{module_made, outer_entries};
ghost use Rattle.wcv_lower.specs.Entries.{written};
ghost use Rattle.wcv_lower.specs.Growth.{grow};
ghost use Rattle.wcv_lower.specs.Names.{Names, introduced};
ghost use Rattle.wcv_lower.specs.Readers.{Brought, Maker};
ghost use Rattle.wcv_lower.specs.Tables.{TableStands};
ghost use Rattle.wcv_lower.specs.Trees.{Tree_stack, tree_maker, tree_reader};
ghost use Rattle.wcv_growth.specs.Kept.{IsPrefix};
ghost use Rattle.wcv_world.specs.Growth.{Arguments, grow_values};
ghost use Rattle.wcv_world.specs.Machine.{World, run_root};
ghost use Rattle.wcv_world.specs.Naming.{Naming, naming_by_number, run_names};
ghost use Rattle.wcv_world.specs.Reading.{Value_stack, value_maker};
ghost use Rattle.wcv_world.specs.Recorded.{table_behind};
ghost use Rattle.wcv_world.specs.Values.{Run, Value};
ghost use Rattle.wcv_safety.specs.Agreeing.{AgreeReadings, Follows};
ghost use Rattle.wcv_safety.specs.Fitting.{Fits, FitsEach, in_all};
ghost use Rattle.wcv_safety.specs.Importing.{OpensOne, OwnsNoneThere, WrittenIsTold, with_opened};
ghost use Rattle.wcv_safety.specs.Places.{IsRoot};
ghost use Rattle.wcv_safety.specs.Safe.{ArgumentsFit, IsWorld, Safe};
ghost use Rattle.wcv_safety.specs.Standing.{AscribedMatches, BothStand, CoreArgumentsServe, IsNewIn, MatchesItself, RepresentedOnce, ResourcesAlone, with_token};

/// Where a component fits another, what opens the other's imports opens its imports, and what then opens its exports opens the other's.
/// Resources of outside are read by `f`, those that the other imports by `s`, and those that the components define by any `u`.
pub fn arguments_open_what_matches()
    ensures { (gs : List Group) (f s : Name → Name) (v c : Type_tree) (args : List (Text × Type_tree)) → IsTable gs → SupersKeepForm gs → Fits gs f v c → sort v ≡ is_component →
        (u : Name → Name) → FitsEach gs (in_all (head c) s u f) args (named_imports c) →
        (t : Name → Name) × FitsEach gs (in_all (head v) t u (λ r. r)) args (named_imports v) ×
        ((es : List (Text × Type_tree)) → FitsEach gs (in_all (head v) t u (λ r. r)) es (named_exports v) → (w : Name → Name) × FitsEach gs (in_all (head c) s w f) es (named_exports c)) }
{}

/// Where an alias does something in a context, the machine is not stuck at it over lists that agree, and the lists agree with what it leads
/// to, under the same substitution.
pub fn aliases_keep_agreement()
    ensures { (fs : WasmFeatures) (n : Naming) (names : Names) (R : Run) (p : Place) (args : Arguments) (mk : Maker tree_reader) (g : Name → Name) (v : Value_stack) (s u : Tree_stack) (a : ComponentAlias) →
        IsTable v.groups → SupersKeepForm v.groups → BothStand v s → AgreeReadings g v s → grow fs mk s (alias_item a) ≡ Some u → Follows g (grow_values fs n names R p args v (alias_item a)) u }
{}

/// So with exports, where an item matches the type that is written beside it. The machine exports the item itself.
pub fn exports_keep_agreement()
    ensures { (fs : WasmFeatures) (n : Naming) (names other : Names) (R : Run) (p q : Place) (args : Arguments) (g : Name → Name) (v : Value_stack) (s u : Tree_stack) (e : ComponentExport) → IsTable v.groups → SupersKeepForm v.groups →
        BothStand v s → AgreeReadings g v s → AscribedMatches v.groups (tree_maker names p) s.top e → grow fs (tree_maker names p) s (export_item e) ≡ Some u → Follows g (grow_values fs n other R q args v (export_item e)) u }
{}

/// So with instances and core instances that list items.
pub fn listing_instances_keep_agreement()
    ensures instances { (fs : WasmFeatures) (n : Naming) (names other : Names) (R : Run) (p q : Place) (args : Arguments) (g : Name → Name) (v : Value_stack) (s u : Tree_stack) (es : List ComponentExport) → BothStand v s → AgreeReadings g v s →
        grow fs (tree_maker names p) s (instance_item (bag es)) ≡ Some u → Follows g (grow_values fs n other R q args v (instance_item (bag es))) u }
    ensures core { (fs : WasmFeatures) (n : Naming) (names other : Names) (R : Run) (p q : Place) (args : Arguments) (g : Name → Name) (v : Value_stack) (s u : Tree_stack) (es : List Export) → BothStand v s → AgreeReadings g v s →
        grow fs (tree_maker names p) s (core_instance_item (core_bag es)) ≡ Some u → Follows g (grow_values fs n other R q args v (core_instance_item (core_bag es))) u }
{}

/// So with groups of core types, core modules and their types, where the table of the values has what the static one gets: nothing joins
/// it, types have the same ids, and a module that matches itself is one that declares the same.
pub fn core_types_keep_agreement()
    ensures groups { (fs : WasmFeatures) (n : Naming) (names : Names) (R : Run) (p : Place) (args : Arguments) (mk : Maker tree_reader) (g : Name → Name) (v : Value_stack) (s u : Tree_stack) (w : Group) → IsTable v.groups → TableStands s →
        BothStand v s → AgreeReadings g v s → grow fs mk s (core_type_item (core_rec w)) ≡ Some u → IsPrefix u.groups v.groups → Follows g (grow_values fs n names R p args v (core_type_item (core_rec w))) u }
    ensures types { (fs : WasmFeatures) (n : Naming) (names other : Names) (R : Run) (p q : Place) (args : Arguments) (g : Name → Name) (v : Value_stack) (s u : Tree_stack) (ds : List Module_decl) → IsTable v.groups → TableStands s →
        BothStand v s → AgreeReadings g v s → ((r : Made) → module_made (outer_entries s) s.groups (empty_module fs) ds ≡ Some r → MatchesItself v.groups r.1) →
        grow fs (tree_maker names p) s (core_type_item (core_module_type ds)) ≡ Some u → IsPrefix u.groups v.groups → Follows g (grow_values fs n other R q args v (core_type_item (core_module_type ds))) u }
    ensures modules { (fs : WasmFeatures) (n : Naming) (names other : Names) (R : Run) (p q : Place) (args : Arguments) (g : Name → Name) (v : Value_stack) (s u : Tree_stack) (ds : List Module_decl) → IsTable v.groups → TableStands s →
        BothStand v s → AgreeReadings g v s → ((r : Made) → module_made [] s.groups (empty_module fs) ds ≡ Some r → MatchesItself v.groups r.1) →
        grow fs (tree_maker names p) s (core_module_item ds) ≡ Some u → IsPrefix u.groups v.groups → Follows g (grow_values fs n other R q args v (core_module_item ds)) u }
{}

/// So with start items, where the function gives a value.
pub fn start_items_keep_agreement()
    ensures { (fs : WasmFeatures) (n : Naming) (names : Names) (R : Run) (p : Place) (args : Arguments) (mk : Maker tree_reader) (g : Name → Name) (v : Value_stack) (s u : Tree_stack) (f m : ℕ) (ks : List ℕ) →
        BothStand v s → AgreeReadings g v s → ((x t : Type_tree) → func_at s.top f ≡ Some x → tree_reader.result x ≡ Some t → sort t ≡ is_value) →
        grow fs mk s (start_item f ks m) ≡ Some u → Follows g (grow_values fs n names R p args v (start_item f ks m)) u }
{}

/// So with canonical functions, where the table of the values has what the static one gets: what their operands name says the same in
/// both, so they append the same core type. A resource that has to be the component's own is read as a token of its representation.
pub fn canonical_functions_keep_agreement()
    ensures { (fs : WasmFeatures) (n : Naming) (names : Names) (R : Run) (p : Place) (args : Arguments) (mk : Maker tree_reader) (g : Name → Name) (v : Value_stack) (s u : Tree_stack) (f : Canon_form) → TableStands s → BothStand v s →
        RepresentedOnce v.top.defined → ResourcesAlone s.top → AgreeReadings g v s → grow fs mk s (canon_item f) ≡ Some u → IsPrefix u.groups v.groups → Follows g (grow_values fs n names R p args v (canon_item f)) u }
{}

/// Linking a root without items is safe.
pub fn a_root_without_items_is_safe()
    ensures { (fs : WasmFeatures) (w : World) (r : ℕ) (t : Type_tree) (g : Name → Name) (args : Arguments) → IsWorld w → IsRoot fs r w.groups no_items t →
        ArgumentsFit fs (table_behind fs (run_names r) w.groups no_items) w.tokens g args t → Safe fs w g t (run_root fs naming_by_number w r no_items args) }
{}

/// So with core instances of core modules, where the arguments serve the module.
pub fn core_instances_keep_agreement()
    ensures { (fs : WasmFeatures) (n : Naming) (names other : Names) (R : Run) (p q : Place) (args : Arguments) (g : Name → Name) (v : Value_stack) (s u : Tree_stack) (i : ℕ) (cs : List InstantiationArg) → IsTable v.groups → SupersKeepForm v.groups →
        BothStand v s → AgreeReadings g v s → CoreArgumentsServe v.groups s.top i cs → grow fs (tree_maker names p) s (core_instance_item (core_instantiate i cs)) ≡ Some u →
        Follows g (grow_values fs n other R q args v (core_instance_item (core_instantiate i cs))) u }
{}

/// So with types that are made in one step and define no resource.
pub fn types_keep_agreement()
    ensures defined { (fs : WasmFeatures) (n : Naming) (names other : Names) (R : Run) (p q : Place) (args : Arguments) (g : Name → Name) (v : Value_stack) (s u : Tree_stack) (d : Defined_form) → BothStand v s → AgreeReadings g v s →
        grow fs (tree_maker names p) s (type_item (defined_type d)) ≡ Some u → Follows g (grow_values fs n other R q args v (type_item (defined_type d))) u }
    ensures functions { (fs : WasmFeatures) (n : Naming) (names other : Names) (R : Run) (p q : Place) (args : Arguments) (g : Name → Name) (v : Value_stack) (s u : Tree_stack) (f : Func_form) → BothStand v s → AgreeReadings g v s →
        grow fs (tree_maker names p) s (type_item (func_type f)) ≡ Some u → Follows g (grow_values fs n other R q args v (type_item (func_type f))) u }
{}

/// So with a resource that is defined, where it is new: under the substitution that reads it as the token that the machine makes.
pub fn resources_keep_agreement()
    ensures { (fs : WasmFeatures) (n : Naming) (names other : Names) (R : Run) (p q : Place) (args : Arguments) (g : Name → Name) (v : Value_stack) (s u : Tree_stack) (rep : ValType) (dtor : Option ℕ) → is_concrete v.top.kind ≡ true → AgreeReadings g v s →
        IsNewIn s (names.resource (introduced p)) → grow fs (tree_maker names p) s (type_item (resource_type rep dtor)) ≡ Some u →
        Follows (with_token g (names.resource (introduced p)) (n.token (length v.top.defined))) (grow_values fs n other R q args v (type_item (resource_type rep dtor))) u }
{}

/// So with imports, where the argument of that name opens what is written beside it, which is no instance type that owns resources: the
/// machine's test passes, and the resources that the import introduces are read as the opening says, all others as before.
pub fn imports_keep_agreement()
    ensures { (fs : WasmFeatures) (n : Naming) (names other : Names) (R : Run) (p q : Place) (args : Arguments) (g o : Name → Name) (v : Value_stack) (s u : Tree_stack) (i : ComponentImport) (b : Brought tree_reader) (x : Value) →
        IsTable v.groups → SupersKeepForm v.groups → BothStand v s → AgreeReadings g v s → written (tree_maker names p) s.top i.ty ≡ Some b → OwnsNoneThere i.ty b → All (λ r. IsNewIn s r.0) b.resources →
        lookup (bytes_eq i.name.name) args ≡ Some x → OpensOne g o v x b → WrittenIsTold (value_maker other q) v i.ty → grow fs (tree_maker names p) s (import_item i) ≡ Some u →
        Follows (with_opened b.resources o g) (grow_values fs n other R q args v (import_item i)) u }
{}
