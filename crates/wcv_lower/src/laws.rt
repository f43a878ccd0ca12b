// Laws of the rules, over the definitions alone.
ghost use Rattle.std.specs.Option.{option_map};
ghost use Rattle.std.specs.Bool.{Decides};
ghost use Rattle.std.specs.Prelude.{◌≡◌, ℕ, List, All, [], ◌∷◌, ◌++◌, map, Bool, Some, false, true, bytes_eq, is_some};
ghost use Rattle.wcv_core.specs.CoreForm.{Group};
ghost use Rattle.wcv_core.specs.CoreGroups.{total};
ghost use Rattle.wcv_core.specs.CoreSizes.{IsEntityWithin};
ghost use Rattle.wcv_core.specs.Names.{Name, Place, at, deeper, member};
ghost use Rattle.wcv_core.specs.declared.features.WasmFeatures.{WasmFeatures};
ghost use Rattle.wcv_syntax.specs.Model.{Text, Form, instance_item, Instance_form, instantiate, Items, Type_form, instance_type, Decl, Decls};
ghost use Rattle.wcv_syntax.specs.ModuleTypes.{Core_import, Core_export, Module_type};
ghost use Rattle.wcv_syntax.specs.declared.component_type.ComponentTypeRef.{ComponentTypeRef};
ghost use Rattle.wcv_syntax.specs.declared.name.ComponentExport.{ComponentExport};
ghost use Rattle.wcv_syntax.specs.declared.name.ComponentExternName.{ComponentExternName};
ghost use Rattle.wcv_syntax.specs.declared.instance.ComponentAlias.{ComponentAlias};
ghost use Rattle.wcv_syntax.specs.declared.instance.ComponentInstantiationArg.{ComponentInstantiationArg};
ghost use Rattle.wcv_types.specs.Arena.{Arena};
ghost use Rattle.wcv_types.specs.ByName.{NamesDiffer};
ghost use Rattle.wcv_types.specs.Entities.{SlotStands};
ghost use Rattle.wcv_types.specs.Identity.{Identity};
ghost use Rattle.wcv_types.specs.Measure.{size};
ghost use Rattle.wcv_types.specs.Replacing.{SparesOwn};
ghost use Rattle.wcv_types.specs.Standing.{AllFit};
ghost use Rattle.wcv_types.specs.Tree.{exports, firsts, head, imported_at, owned};
ghost use Rattle.wcv_types.specs.Unfold.{Slot, Type_tree, capped, slot_tree, trees};
ghost use Rattle.wcv_closed.specs.ClosedTable.{IsTable};
ghost use Rattle.wcv_closed.specs.CoreModules.{AllServed, EachArgument};
ghost use Rattle.wcv_matching.specs.Formed.{node_height};
ghost use Rattle.wcv_matching.specs.Matching.{named};
ghost use Rattle.wcv_matching.specs.ModuleItems.{ItemsMatch};
ghost use Rattle.wcv_matching.specs.OnePass.{argument_for};
ghost use Rattle.wcv_matching.specs.Orderly.{Orderly};
ghost use Rattle.wcv_matching.specs.TableMatching.{CoreWithin, Opens};
ghost use Rattle.wcv_lower.specs.Aliases.{alias_step, alias_checks};
ghost use Rattle.wcv_lower.specs.Checks.{IsFree};
ghost use Rattle.wcv_lower.specs.Context.{Kind, Stack, in_types, in_components, importing};
ghost use Rattle.wcv_lower.specs.CoreInstances.{all_served, listed_size, module_instance};
ghost use Rattle.wcv_lower.specs.Declared.{Makers, inside, ended, read_type, read_decl, declared_checks};
ghost use Rattle.wcv_lower.specs.DeclaredMaps.{TypeAlike};
ghost use Rattle.wcv_lower.specs.Entries.{extern_name, written, is_written, exported_at, exported, export_checks};
ghost use Rattle.wcv_lower.specs.Even.{IsEven, IsBalanced, IsRegular};
ghost use Rattle.wcv_lower.specs.Given.{AtMost, GivenNames, GivesAt, Numbers, names_of};
ghost use Rattle.wcv_lower.specs.Growth.{is_plain, grow, checks};
ghost use Rattle.wcv_lower.specs.Instances.{component_at, arguments, listed, bag_made, instance_checks};
ghost use Rattle.wcv_lower.specs.Instantiated.{opened_resource, opening, instantiated, instantiated_resources};
ghost use Rattle.wcv_lower.specs.Items.{read_item, read_items, item_causes, EndsFree};
ghost use Rattle.wcv_lower.specs.Mapped.{IsKnown, MakesSame, map_stack, map_step};
ghost use Rattle.wcv_lower.specs.Names.{Names, names_by_place, Under, AreRenamed, SameNames};
ghost use Rattle.wcv_lower.specs.Owned.{AllEntries, AllOwn, AreRegular, Everywhere, InstanceApart, ItemRegular, IsCalm, IsOnce, OwnsOnce, IsMadeAt};
ghost use Rattle.wcv_lower.specs.Readers.{Brought, Maker, New_node, core_instance_node, core_exports_node, instance_node, module_node};
ghost use Rattle.wcv_lower.specs.Renamed.{Renaming, renaming};
ghost use Rattle.wcv_lower.specs.SideNames.{AllSidesDiffer, TellsRepeats};
ghost use Rattle.wcv_lower.specs.Slots.{slot_reader, to_trees};
ghost use Rattle.wcv_lower.specs.Step.{Step};
ghost use Rattle.wcv_lower.specs.Trees.{Tree_context, Tree_stack, tree_reader, tree_maker, node_tree, type_entry};
ghost use Rattle.wcv_lower.specs.Uses.{uses};
ghost use Rattle.wcv_lower.specs.WorkedInstance.{made, third, worked_arguments, worked_component, worked_instance};
ghost use Rattle.wcv_lower.specs.WorkedNested.{nested_root, nested_inside, made_func, made_component};
ghost use Rattle.wcv_lower.specs.Worked.{imported_twice, own, made_type, made_instance};

/// With renamed names, a renamed stack grows to the renamed one, and an item has the same causes. Where it
/// has none, and is read in one step, it does something.
pub fn renaming_keeps_growth_and_causes()
    ensures growth { (w : Renaming) (n m : Names) (p : Place) → AreRenamed (Under p) w.resources.to w.identities.to n m → (fs : WasmFeatures) (s : Tree_stack) (f : Form) →
        grow fs (tree_maker m p) (map_stack (renaming w) s) f ≡ option_map (map_stack (renaming w)) (grow fs (tree_maker n p) s f) }
    ensures causes { (w : Renaming) (n m : Names) (p : Place) → AreRenamed (Under p) w.resources.to w.identities.to n m → (fs : WasmFeatures) (s : Tree_stack) (f : Form) →
        checks fs (tree_maker m p) (map_stack (renaming w) s) f ≡ checks fs (tree_maker n p) s f }
    ensures free { (n : Names) (p : Place) (fs : WasmFeatures) (s : Tree_stack) (f : Form) → is_plain f ≡ true → IsFree (checks fs (tree_maker n p) s f) → (t : Tree_stack) × (grow fs (tree_maker n p) s f ≡ Some t) }
{}

/// An alias over ids of an arena does what it does over the trees that they stand for, and has the same causes.
/// Where it has none, it does something.
pub fn aliases_of_ids_are_those_of_trees()
    ensures step { (a : Arena) (s : Stack (slot_reader a)) (x : ComponentAlias) → AllFit a → IsKnown (SlotStands a) s.top → alias_step (map_stack (to_trees a) s) x ≡ option_map (map_step (to_trees a)) (alias_step s x) }
    ensures causes { (a : Arena) (fs : WasmFeatures) (s : Stack (slot_reader a)) (x : ComponentAlias) → AllFit a → IsKnown (SlotStands a) s.top → alias_checks fs (map_stack (to_trees a) s) x ≡ alias_checks fs s x }
    ensures free { (fs : WasmFeatures) (s : Tree_stack) (x : ComponentAlias) → IsFree (alias_checks fs s x) → (p : Step tree_reader) × (alias_step s x ≡ Some p) }
{}

/// An item over ids of an arena does what it does over the trees that they stand for, and has the same causes,
/// where the makers make the same of what it uses.
pub fn items_of_ids_are_those_of_trees()
    ensures growth { (a : Arena) (fs : WasmFeatures) (k : Maker (slot_reader a)) (l : Maker tree_reader) (s : Stack (slot_reader a)) (f : Form) → AllFit a → IsKnown (SlotStands a) s.top → MakesSame (to_trees a) (SlotStands a) k l (uses fs s f) →
        grow fs l (map_stack (to_trees a) s) f ≡ option_map (map_stack (to_trees a)) (grow fs k s f) }
    ensures causes { (a : Arena) (fs : WasmFeatures) (k : Maker (slot_reader a)) (l : Maker tree_reader) (s : Stack (slot_reader a)) (f : Form) → AllFit a → IsKnown (SlotStands a) s.top → MakesSame (to_trees a) (SlotStands a) k l (uses fs s f) →
        checks fs l (map_stack (to_trees a) s) f ≡ checks fs k s f }
{}

/// A core instance that is made of a core module exports what the module does, and one that lists items exports
/// these. A core module imports what its declarations do. A core instance that is made of a core module counts itself
/// and what the module exports.
pub fn a_core_instance_exports_what_it_is_made_of()
    ensures made { (i j : Name) (n : ℕ) (m : Module_type) → tree_reader.core_exports (node_tree i (core_instance_node n (node_tree j (module_node m)))) ≡ m.exports }
    ensures counted { (i j : Name) (gs : List Group) (m : Module_type) → size (node_tree i (module_instance tree_reader gs (node_tree j (module_node m)))) ≡ capped (listed_size gs m.exports) }
    ensures listed { (i : Name) (n : ℕ) (es : List Core_export) → tree_reader.core_exports (node_tree i (core_exports_node n es)) ≡ es }
    ensures imports { (i : Name) (m : Module_type) → tree_reader.core_imports (node_tree i (module_node m)) ≡ m.imports }
{}

/// Where an export with a written type has no cause, the type brings no resource of its own, the item matches it, and the entry is
/// what the type gives.
pub fn an_exported_item_matches_its_written_type()
    ensures { (fs : WasmFeatures) (n : Names) (p : Place) (s : Tree_stack) (e : ComponentExport) (r : ComponentTypeRef) → e.ty ≡ Some r → IsFree (export_checks fs (tree_maker n p) s e) →
        (x : Type_tree) × (b : Brought tree_reader) × (exported_at s.top e ≡ Some x) × (written (tree_maker n p) s.top r ≡ Some b) × (exported (tree_maker n p) s.top e ≡ Some b) × (b.resources ≡ []) × (tree_reader.matches s.groups x b.entity ≡ true) }
{}

/// No resource that an instantiation replaces is owned inside what it replaces in, where a stack is calm. A calm stack stays so behind an
/// item, and an instantiation asks for it that the types on top are regular, as those that an arena holds are: then nodes that arguments
/// give own nothing that a type around them owns, since types that are regular, and balanced as a calm stack keeps them, are even.
pub fn items_keep_a_stack_calm()
    ensures spared { (a : Numbers) (n : Names) (p : Place) (s : Tree_stack) (i : ℕ) (args : List (Text × Type_tree)) (c : Type_tree) → IsCalm a s → component_at s.top i ≡ Some c → All (λ e. SparesOwn (opening n p args c) e.1) (exports c) }
    ensures calm { (a b : Numbers) (n : GivenNames) (p : Place) (fs : WasmFeatures) (s t : Tree_stack) (f : Form) → AtMost a b → GivesAt (Under p) a b n → IsCalm a s → ItemRegular s.top f → AllOwn b t.top →
        grow fs (tree_maker (names_of n) p) s f ≡ Some t → IsCalm b t }
    ensures apart { (a : Numbers) (fs : WasmFeatures) (n : Names) (p : Place) (s t : Tree_stack) (i : Instance_form) → IsCalm a s → AreRegular s.top → grow fs (tree_maker n p) s (instance_item i) ≡ Some t → InstanceApart n p s i }
    ensures regular { (a : Arena) (q : Slot) → AllFit a → SlotStands a q → IsRegular (node_height a) (slot_tree (trees a.nodes) q) }
    ensures even { (n : Identity → ℕ) (v : Name → ℕ) (t : Type_tree) → IsRegular n t → IsBalanced v t → IsEven (record { node_of = n; owner_of = v }) t }
{}

/// Whether arguments open a component is decided by the test, where types are orderly and their core types are of the table. Where
/// an instantiation has no cause, the substitution that the recorded paths find opens the imports, and no other does; it is what
/// the imported resources become.
pub fn an_instantiation_opens_in_one_way()
    ensures decided { (s : Tree_stack) (i : ℕ) (args : List ComponentInstantiationArg) (c : Type_tree) → IsTable s.groups → AllEntries (λ t. Orderly t × CoreWithin s.groups t) s.top → component_at s.top i ≡ Some c →
        Decides (tree_reader.opens s.groups (arguments s.top args) c) ((u : Name → Name) × Opens s.groups u (arguments s.top args) c) }
    ensures accepted { (fs : WasmFeatures) (n : Names) (p : Place) (s : Tree_stack) (i : ℕ) (args : List ComponentInstantiationArg) → IsTable s.groups → AllEntries (λ t. Orderly t × CoreWithin s.groups t) s.top → IsFree (instance_checks fs (tree_maker n p) s (instantiate i args)) →
        (c : Type_tree) × (component_at s.top i ≡ Some c) × Opens s.groups (argument_for (arguments s.top args) c) (arguments s.top args) c ×
        ((u : Name → Name) → Opens s.groups u (arguments s.top args) c → (r : Name) → member r (imported_at (head c)) ≡ true → argument_for (arguments s.top args) c r ≡ u r) }
    ensures imported { (n : Names) (p : Place) (args : List (Text × Type_tree)) (c : Type_tree) (r : Name) → member r (imported_at (head c)) ≡ true → opened_resource n p args c r ≡ Some (argument_for args c r) }
{}

/// With names by place, instantiations at two places define no resource that is one, of whichever components.
pub fn two_instantiations_define_disjoint_resources()
    ensures { (p q : Place) (c d : Type_tree) (r : Name) → (p ≡ q → ⊥) → member r (firsts (instantiated_resources names_by_place p c)) ≡ true → member r (firsts (instantiated_resources names_by_place q d)) ≡ true → ⊥ }
{}

/// The test of arguments answers whether core instances serve what a core module imports, where their core types
/// are of the table.
pub fn arguments_are_tested_rightly()
    ensures { (gs : List Group) (args : List (Text × List Core_export)) (is : List Core_import) → IsTable gs → EachArgument (IsEntityWithin (total gs)) args → All (λ i. IsEntityWithin (total gs) i.1) is →
        Decides (all_served gs args is) (AllServed (ItemsMatch gs) args is) }
{}

/// With renamed names, a declared type in a renamed stack is read to the renamed one, and has the same causes.
/// Where it has none, it is read.
pub fn renaming_keeps_declared_types()
    ensures growth { (w : Renaming) (n m : Names) (p : Place) → AreRenamed (Under p) w.resources.to w.identities.to n m → (fs : WasmFeatures) (s : Tree_stack) (t : Type_form) →
        read_type fs (tree_maker m) p (map_stack (renaming w) s) t ≡ option_map (map_stack (renaming w)) (read_type fs (tree_maker n) p s t) }
    ensures causes { (w : Renaming) (n m : Names) (p : Place) → AreRenamed (Under p) w.resources.to w.identities.to n m → (fs : WasmFeatures) (limited : Bool) (s : Tree_stack) (t : Type_form) →
        declared_checks limited fs (tree_maker m) p (map_stack (renaming w) s) t ≡ declared_checks limited fs (tree_maker n) p s t }
    ensures free { (n : Names) (p : Place) (fs : WasmFeatures) (limited : Bool) (s : Tree_stack) (t : Type_form) → IsFree (declared_checks limited fs (tree_maker n) p s t) → (u : Tree_stack) × (read_type fs (tree_maker n) p s t ≡ Some u) }
{}

/// With renamed names, an item in a renamed stack, also a component, is read to the renamed one, and has the same causes. Where it has
/// none, and where the items of a component lead to an end that has none, it is read.
pub fn renaming_keeps_items()
    ensures growth { (w : Renaming) (n m : Names) (p : Place) → AreRenamed (Under p) w.resources.to w.identities.to n m → (fs : WasmFeatures) (s : Tree_stack) (f : Form) →
        read_item fs (tree_maker m) p (map_stack (renaming w) s) f ≡ option_map (map_stack (renaming w)) (read_item fs (tree_maker n) p s f) }
    ensures causes { (w : Renaming) (n m : Names) (p : Place) → AreRenamed (Under p) w.resources.to w.identities.to n m → (fs : WasmFeatures) (s : Tree_stack) (f : Form) →
        item_causes fs (tree_maker m) p (map_stack (renaming w) s) f ≡ item_causes fs (tree_maker n) p s f }
    ensures free { (n : Names) (p : Place) (fs : WasmFeatures) (s : Tree_stack) (f : Form) → IsFree (item_causes fs (tree_maker n) p s f) → EndsFree fs (tree_maker n) p s f → (t : Tree_stack) × (read_item fs (tree_maker n) p s f ≡ Some t) }
{}

/// An item, also a component, looks at the names of its own place and of the places inside it alone: by names that are the same there
/// it is read to the same stack, and has the same causes.
pub fn items_look_at_names_of_their_places_alone()
    ensures growth { (n m : Names) (p : Place) → SameNames (Under p) n m → (fs : WasmFeatures) (s : Tree_stack) (f : Form) → read_item fs (tree_maker m) p s f ≡ read_item fs (tree_maker n) p s f }
    ensures causes { (n m : Names) (p : Place) → SameNames (Under p) n m → (fs : WasmFeatures) (s : Tree_stack) (f : Form) → item_causes fs (tree_maker m) p s f ≡ item_causes fs (tree_maker n) p s f }
{}

/// A context that opens keeps a stack calm, and so does the end of a component, or of a declared type.
pub fn a_component_keeps_a_stack_calm()
    ensures opened { (a : Numbers) (k : Kind) (s : Tree_stack) → IsCalm a s → IsCalm a (inside k s) }
    ensures closed { (a : Numbers) (k : Kind) (n : Names) (p : Place) (s t : Tree_stack) → IsCalm a s → ended k (tree_maker n p) s ≡ Some t → IsCalm a t }
{}

/// Growth gives no list a name twice: where names differ on each side of each open context, they do so behind an item, also a declared
/// type or a component, behind a declaration, and where a context opens; and in an instance that lists items they differ. A name that a
/// list has is a cause, so what has none is not stopped by that. A written type gives something where what it names is there.
pub fn growth_gives_no_list_a_name_twice()
    ensures item { (fs : WasmFeatures) (n : Names) (p : Place) (s t : Tree_stack) (f : Form) → AllSidesDiffer s → read_item fs (tree_maker n) p s f ≡ Some t → AllSidesDiffer t }
    ensures items { (fs : WasmFeatures) (n : Names) (p : Place) (k : ℕ) (s t : Tree_stack) (is : Items) → AllSidesDiffer s → read_items fs (tree_maker n) p k s is ≡ Some t → AllSidesDiffer t }
    ensures declaration { (fs : WasmFeatures) (n : Names) (p : Place) (s t : Tree_stack) (d : Decl) → AllSidesDiffer s → read_decl fs (tree_maker n) p s d ≡ Some t → AllSidesDiffer t }
    ensures opened { (k : Kind) (s : Tree_stack) → AllSidesDiffer s → AllSidesDiffer (inside k s) }
    ensures listed { (c : Tree_context) (es : List ComponentExport) (n : New_node tree_reader) → bag_made c es ≡ Some n → (n ≡ instance_node [] (listed c es)) × NamesDiffer (named (listed c es)) }
    ensures told { TellsRepeats tree_reader }
    ensures told_of_ids { (a : Arena) → TellsRepeats (slot_reader a) }
    ensures written { (n : Names) (p : Place) (c : Tree_context) (r : ComponentTypeRef) → is_some (written (tree_maker n p) c r) ≡ is_written c r }
{}

/// A declared type over ids of an arena is read to what it is read to over the trees that they stand for, and
/// has the same causes, where at each declaration the makers make the same of what it uses.
pub fn declared_types_of_ids_are_those_of_trees()
    ensures growth { (a : Arena) (fs : WasmFeatures) (k : Makers (slot_reader a)) (l : Makers tree_reader) (p : Place) (s : Stack (slot_reader a)) (t : Type_form) → AllFit a → TypeAlike (to_trees a) (SlotStands a) fs k l p s t →
        read_type fs l p (map_stack (to_trees a) s) t ≡ option_map (map_stack (to_trees a)) (read_type fs k p s t) }
    ensures causes { (a : Arena) (fs : WasmFeatures) (k : Makers (slot_reader a)) (l : Makers tree_reader) (p : Place) (limited : Bool) (s : Stack (slot_reader a)) (t : Type_form) → AllFit a → TypeAlike (to_trees a) (SlotStands a) fs k l p s t →
        declared_checks limited fs l p (map_stack (to_trees a) s) t ≡ declared_checks limited fs k p s t }
{}

/// With names by place, what a declared instance type owns was introduced, or made again, at one of its
/// declarations, and it owns no resource twice. That no type owns one twice stays so.
pub fn a_declared_type_owns_what_its_declarations_made()
    ensures owned { (fs : WasmFeatures) (p : Place) (s u : Tree_stack) (ds : Decls) → Everywhere OwnsOnce s → read_type fs (tree_maker names_by_place) p s (instance_type ds) ≡ Some u →
        (t : Type_tree) × (u.top.space in_types ≡ s.top.space in_types ++ type_entry t ∷ []) × IsOnce (owned t) × ((r : Name) → member r (owned t) ≡ true → (j : ℕ) × IsMadeAt (deeper p j) r) }
    ensures declared { (fs : WasmFeatures) (p : Place) (s u : Tree_stack) (t : Type_form) → Everywhere OwnsOnce s → read_type fs (tree_maker names_by_place) p s t ≡ Some u → Everywhere OwnsOnce u }
    ensures grown { (fs : WasmFeatures) (n : Names) (p : Place) (s u : Tree_stack) (f : Form) → Everywhere OwnsOnce s → grow fs (tree_maker n p) s f ≡ Some u → Everywhere OwnsOnce u }
{}

/// A worked root: two imports of one instance type that owns a resource, under names that differ, as those of its exports do. Each brings a resource of its own, which
/// stands at the first position inside it; what mentions the resource is made again, and the reference keeps its
/// stamp.
pub fn two_imports_of_a_type_have_two_resources()
    ensures types { (fs : WasmFeatures) (r f a b : ComponentExternName) (x : Text) → bytes_eq f.name r.name ≡ false → bytes_eq b.name a.name ≡ false → option_map (λ (s : Tree_stack). s.top.space in_types) (imported_twice fs r f x a b) ≡ Some (type_entry (made_type r f x) ∷ []) }
    ensures imports { (fs : WasmFeatures) (r f a b : ComponentExternName) (x : Text) → bytes_eq f.name r.name ≡ false → bytes_eq b.name a.name ≡ false → option_map (λ (s : Tree_stack). s.top.side importing) (imported_twice fs r f x a b) ≡ Some ((extern_name a, made_instance r f x 1) ∷ (extern_name b, made_instance r f x 2) ∷ []) }
    ensures imported { (fs : WasmFeatures) (r f a b : ComponentExternName) (x : Text) → bytes_eq f.name r.name ≡ false → bytes_eq b.name a.name ≡ false → option_map (λ (s : Tree_stack). s.top.imported) (imported_twice fs r f x a b) ≡ Some ((at (1 ∷ []) own, 0 ∷ 0 ∷ []) ∷ (at (2 ∷ []) own, 1 ∷ 0 ∷ []) ∷ []) }
{}

/// A worked root: a function type, and a component that aliases the type from the root and imports a function of it. Behind both the
/// root has that type and that component, which imports the function by its name. What the alias brings over the boundary was charged
/// to the component's context, and nothing to the root's.
pub fn a_component_imports_by_a_type_of_its_root()
    ensures types { (fs : WasmFeatures) (f : ComponentExternName) → option_map (λ (s : Tree_stack). s.top.space in_types) (nested_root fs f) ≡ Some (type_entry made_func ∷ []) }
    ensures components { (fs : WasmFeatures) (f : ComponentExternName) → option_map (λ (s : Tree_stack). s.top.space in_components) (nested_root fs f) ≡ Some (made_component f ∷ []) }
    ensures charged { (fs : WasmFeatures) (f : ComponentExternName) → option_map (λ (s : Tree_stack). map (λ c. c.aliased) (s.top ∷ s.outer)) (nested_inside fs f) ≡ Some (size (type_entry made_func) ∷ 0 ∷ []) }
    ensures spared { (fs : WasmFeatures) (f : ComponentExternName) → option_map (λ (s : Tree_stack). s.top.aliased) (nested_root fs f) ≡ Some 0 }
{}

/// A worked component and its instance: the imported resource becomes that of the argument, and the reference that stands for the
/// import the argument's; the list that was handed in stands where the imported one stood; the resource that the component defines
/// is new, and its reference keeps its stamp; what mentions something of these is made again. Without an argument nothing opens.
pub fn an_instance_of_a_worked_component()
    ensures opens { tree_reader.opens [] worked_arguments worked_component ≡ true }
    ensures unopened { tree_reader.opens [] [] worked_component ≡ false }
    ensures made { instantiated names_by_place third worked_arguments worked_component ≡ worked_instance }
    ensures new { instantiated_resources names_by_place third worked_component ≡ (at third made, 0 ∷ []) ∷ [] }
{}
