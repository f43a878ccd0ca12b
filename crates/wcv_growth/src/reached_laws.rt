// Laws of the stacks that valid items lead to, by place, also inside components: what holds of them, and what "valid" says there in the
// words of matching.
ghost use Rattle.std.specs.Bool.{Decides};
ghost use Rattle.std.specs.Prelude.{◌≡◌, ℕ, List, All, [], map, Some, true};
ghost use Rattle.wcv_core.specs.Names.{Name, Place, deeper, member};
ghost use Rattle.wcv_core.specs.declared.error.ErrorKind.TheVariants as kinds;
ghost use Rattle.wcv_core.specs.declared.features.WasmFeatures.{WasmFeatures};
ghost use Rattle.wcv_syntax.specs.Model.{instantiate};
ghost use Rattle.wcv_syntax.specs.declared.component_type.ComponentTypeRef.{ComponentTypeRef};
ghost use Rattle.wcv_syntax.specs.declared.core_section.InstantiationArg.{InstantiationArg};
ghost use Rattle.wcv_syntax.specs.declared.instance.ComponentInstantiationArg.{ComponentInstantiationArg};
ghost use Rattle.wcv_syntax.specs.declared.name.ComponentExport.{ComponentExport};
ghost use Rattle.wcv_types.specs.Replacing.{SparesOwn, SparesOwnIn};
ghost use Rattle.wcv_types.specs.Tree.{exports, head, imported_at, is_instance, owned, parts};
ghost use Rattle.wcv_closed.specs.CoreModules.{AllServed};
ghost use Rattle.wcv_matching.specs.ModuleItems.{ItemsMatch};
ghost use Rattle.wcv_matching.specs.OnePass.{argument_for};
ghost use Rattle.wcv_matching.specs.TableMatching.{Opens, TypeMatches};
ghost use Rattle.wcv_lower.specs.Canons.{func_at};
ghost use Rattle.wcv_lower.specs.Checks.{Cause, IsFree};
ghost use Rattle.wcv_lower.specs.CoreInstances.{all_served, core_module_at, offered};
ghost use Rattle.wcv_lower.specs.Entries.{exported, exported_at, export_checks, written};
ghost use Rattle.wcv_lower.specs.Instances.{arguments, component_at, instance_checks};
ghost use Rattle.wcv_lower.specs.Instantiated.{opened_resource, opening};
ghost use Rattle.wcv_lower.specs.Marks.{value_at};
ghost use Rattle.wcv_lower.specs.Names.{names_by_place};
ghost use Rattle.wcv_lower.specs.NewTypes.{owned_anew};
ghost use Rattle.wcv_lower.specs.Start.{all_suit, start_checks};
ghost use Rattle.wcv_lower.specs.Step.{Brought};
ghost use Rattle.wcv_lower.specs.Trees.{Tree_stack, Type_tree, params, tree_maker, tree_reader};
ghost use Rattle.wcv_lower.specs.Values.{type_of_sort};
ghost use Rattle.wcv_growth.specs.InOrder.{IsInOrder};
ghost use Rattle.wcv_growth.specs.Reached.{Reached};
ghost use Rattle.wcv_growth.specs.Suiting.{AllSuit};

/// Each stack that valid items lead to is in order: its groups are a table over which matching goes on, and the types in each open context
/// are orderly, name core types of it, own apart, and own nothing that an open context has or a later item gives.
pub fn valid_items_leave_a_stack_in_order()
    ensures { (fs : WasmFeatures) (w : Place) (k : ℕ) (s : Tree_stack) → Reached fs names_by_place w k s → IsInOrder w k s }
{}

/// In such a stack an instantiation has the cause `Mismatch` exactly where no substitution of the resources that the component imports lets
/// the arguments open its imports (`opened`, `unopened`). There is at most one such substitution of these resources (`one`), and it is what
/// the recorded paths find among the arguments, and what the imported resources become (`found`).
pub fn an_instantiation_matches_where_one_substitution_opens()
    ensures opened { (fs : WasmFeatures) (w p : Place) (k i : ℕ) (s : Tree_stack) (args : List ComponentInstantiationArg) (c : Type_tree) (u : Name → Name) → Reached fs names_by_place w k s → component_at s.top i ≡ Some c →
        Opens s.groups u (arguments s.top args) c → Cause (instance_checks fs (tree_maker names_by_place p) s (instantiate i args)) kinds.Mismatch → ⊥ }
    ensures unopened { (fs : WasmFeatures) (w p : Place) (k i : ℕ) (s : Tree_stack) (args : List ComponentInstantiationArg) (c : Type_tree) → Reached fs names_by_place w k s → component_at s.top i ≡ Some c →
        (Cause (instance_checks fs (tree_maker names_by_place p) s (instantiate i args)) kinds.Mismatch → ⊥) → Opens s.groups (argument_for (arguments s.top args) c) (arguments s.top args) c }
    ensures one { (fs : WasmFeatures) (w : Place) (k i : ℕ) (s : Tree_stack) (args : List ComponentInstantiationArg) (c : Type_tree) (u v : Name → Name) (r : Name) → Reached fs names_by_place w k s → component_at s.top i ≡ Some c →
        Opens s.groups u (arguments s.top args) c → Opens s.groups v (arguments s.top args) c → member r (imported_at (head c)) ≡ true → u r ≡ v r }
    ensures found { (fs : WasmFeatures) (w p : Place) (k i : ℕ) (s : Tree_stack) (args : List ComponentInstantiationArg) (c : Type_tree) (u : Name → Name) (r : Name) → Reached fs names_by_place w k s → component_at s.top i ≡ Some c →
        Opens s.groups u (arguments s.top args) c → member r (imported_at (head c)) ≡ true → (argument_for (arguments s.top args) c r ≡ u r) × (opened_resource names_by_place p (arguments s.top args) c r ≡ Some (u r)) }
    ensures accepted { (fs : WasmFeatures) (w p : Place) (k i : ℕ) (s : Tree_stack) (args : List ComponentInstantiationArg) → Reached fs names_by_place w k s → IsFree (instance_checks fs (tree_maker names_by_place p) s (instantiate i args)) →
        (c : Type_tree) × (component_at s.top i ≡ Some c) × Opens s.groups (argument_for (arguments s.top args) c) (arguments s.top args) c }
{}

/// In such a stack what an instantiation replaces, and what an instance of an instance type does, is owned by no type inside: replacing acts
/// on free mentions alone.
pub fn an_instantiation_replaces_what_is_free()
    ensures component { (fs : WasmFeatures) (w p : Place) (k i : ℕ) (s : Tree_stack) (args : List ComponentInstantiationArg) (c : Type_tree) → Reached fs names_by_place w k s → component_at s.top i ≡ Some c →
        All (λ e. SparesOwn (opening names_by_place p (arguments s.top args) c) e.1) (exports c) }
    ensures instance { (fs : WasmFeatures) (w p : Place) (k i : ℕ) (s : Tree_stack) (t : Type_tree) → Reached fs names_by_place w k s → type_of_sort is_instance s.top i ≡ Some t → SparesOwnIn (owned_anew names_by_place p (owned t)) (parts t) }
{}

/// In such a stack an export with a written type has the cause `Mismatch` exactly where the item does not match the type or the type brings
/// resources of its own. Where it has no cause, the item matches what it is exported as.
pub fn an_ascribed_item_matches_its_type()
    ensures matching { (fs : WasmFeatures) (w : Place) (k : ℕ) (s : Tree_stack) (e : ComponentExport) (r : ComponentTypeRef) (x : Type_tree) (b : Brought tree_reader) → Reached fs names_by_place w k s → e.ty ≡ Some r →
        exported_at s.top e ≡ Some x → written (tree_maker names_by_place (deeper w k)) s.top r ≡ Some b → b.resources ≡ [] → TypeMatches s.groups x b.entity →
        Cause (export_checks fs (tree_maker names_by_place (deeper w k)) s e) kinds.Mismatch → ⊥ }
    ensures matched { (fs : WasmFeatures) (w : Place) (k : ℕ) (s : Tree_stack) (e : ComponentExport) (r : ComponentTypeRef) (x : Type_tree) (b : Brought tree_reader) → Reached fs names_by_place w k s → e.ty ≡ Some r →
        exported_at s.top e ≡ Some x → written (tree_maker names_by_place (deeper w k)) s.top r ≡ Some b → (Cause (export_checks fs (tree_maker names_by_place (deeper w k)) s e) kinds.Mismatch → ⊥) →
        (b.resources ≡ []) × TypeMatches s.groups x b.entity }
    ensures accepted { (fs : WasmFeatures) (w : Place) (k : ℕ) (s : Tree_stack) (e : ComponentExport) (r : ComponentTypeRef) → Reached fs names_by_place w k s → e.ty ≡ Some r → IsFree (export_checks fs (tree_maker names_by_place (deeper w k)) s e) →
        (x : Type_tree) × (b : Brought tree_reader) × (exported_at s.top e ≡ Some x) × (written (tree_maker names_by_place (deeper w k)) s.top r ≡ Some b) × (exported (tree_maker names_by_place (deeper w k)) s.top e ≡ Some b) × (b.resources ≡ []) × TypeMatches s.groups x b.entity }
{}

/// In such a stack the test of a start item's arguments answers whether each is a value whose type matches that of its parameter, where all
/// are there and as many as parameters; and so it is where the item has no cause.
pub fn start_arguments_match_their_parameters()
    ensures suiting { (fs : WasmFeatures) (w : Place) (k f : ℕ) (s : Tree_stack) (args : List ℕ) (x : Type_tree) → Reached fs names_by_place w k s → func_at s.top f ≡ Some x →
        AllSuit s.groups (map (value_at s.top) args) (params x) → all_suit tree_reader s.groups (map (value_at s.top) args) (params x) ≡ true }
    ensures accepted { (fs : WasmFeatures) (w : Place) (k f n : ℕ) (s : Tree_stack) (args : List ℕ) → Reached fs names_by_place w k s → IsFree (start_checks fs s f args n) →
        (x : Type_tree) × (func_at s.top f ≡ Some x) × AllSuit s.groups (map (value_at s.top) args) (params x) }
{}

/// In such a stack the test of core arguments answers whether they serve what the core module imports.
pub fn core_arguments_serve_their_imports()
    ensures { (fs : WasmFeatures) (w : Place) (k i : ℕ) (s : Tree_stack) (args : List InstantiationArg) (m : Type_tree) → Reached fs names_by_place w k s → core_module_at s.top i ≡ Some m →
        Decides (all_served s.groups (offered s.top args) (tree_reader.core_imports m)) (AllServed (ItemsMatch s.groups) (offered s.top args) (tree_reader.core_imports m)) }
{}
