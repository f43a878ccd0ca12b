// Laws of the rules over the ids of a state.
ghost use Rattle.std.specs.Option.{option_map};
ghost use Rattle.std.specs.Prelude.{◌≡◌, ◌+◌, suc, Bool, true, List, map, length, Some, ◌∷◌};
ghost use Rattle.wcv_core.specs.Names.{Place, number, Name};
ghost use Rattle.wcv_core.specs.declared.features.WasmFeatures.{WasmFeatures};
ghost use Rattle.wcv_syntax.specs.Model.{Form, export_item};
ghost use Rattle.wcv_syntax.specs.declared.component_type.ComponentTypeRef.{ComponentTypeRef};
ghost use Rattle.wcv_syntax.specs.declared.name.ComponentExport.{ComponentExport};
ghost use Rattle.wcv_syntax.specs.declared.name.ComponentExternName.{ComponentExternName};
ghost use Rattle.wcv_types.specs.Arena.{Arena};
ghost use Rattle.wcv_types.specs.Entities.{any_part, SlotStands};
ghost use Rattle.wcv_types.specs.Renewed.{Renewed};
ghost use Rattle.wcv_types.specs.Standing.{Stands, AllFit, Extends};
ghost use Rattle.wcv_types.specs.Unfold.{at, tree_at};
ghost use Rattle.wcv_types.specs.declared.ids.ComponentAnyTypeId.{ComponentAnyTypeId};
ghost use Rattle.wcv_types.specs.declared.shapes.ComponentEntityType.{ComponentEntityType};
ghost use Rattle.wcv_lower.specs.Context.{exporting};
ghost use Rattle.wcv_lower.specs.Entries.{extern_name, written, exported_values};
ghost use Rattle.wcv_types.specs.Tree.{exports, owned};
ghost use Rattle.wcv_types.specs.declared.ids.ComponentInstanceTypeId.{ComponentInstanceTypeId};
ghost use Rattle.wcv_types.specs.declared.ids.Part.TheVariants as part;
ghost use Rattle.wcv_lower.specs.Given.{GivenNames, names_of, GivesAt};
ghost use Rattle.wcv_lower.specs.Growth.{grow, checks};
ghost use Rattle.wcv_lower.specs.Mapped.{MakesSame, map_stack, map_node};
ghost use Rattle.wcv_lower.specs.Names.{Names, Under};
ghost use Rattle.wcv_lower.specs.NewTypes.{instance_tree, instance_resources};
ghost use Rattle.wcv_lower.specs.Readers.{Maker, New_node};
ghost use Rattle.wcv_lower.specs.Slots.{slot_reader, to_trees, slot_maker, next_node, last_instance, next_resources};
ghost use Rattle.wcv_lower.specs.Step.{apply, enters};
ghost use Rattle.wcv_lower.specs.Trees.{Tree_context, tree_reader, tree_maker, node_tree};
ghost use Rattle.wcv_lower.specs.Uses.{uses, uses_again, uses_new, uses_node, uses_instance};
ghost use Rattle.wcv_spaces.specs.Contents.{Contents, with_uses, context_of, stack_of, StateStands};
ghost use Rattle.wcv_spaces.specs.Promises.{numbers_of, Grew, WrittenEntity, Exported, Entered, ExportDeclared};
ghost use Rattle.wcv_state.specs.Slots.{slot_stack_of};

/// What the rules make of the ids of open states is what they make of the trees that those stand for, and the
/// causes are the same, where the two makers make the same of what the item uses.
pub fn ids_stand_for_trees()
    ensures growth { (a : Arena) (fs : WasmFeatures) (k : Maker (slot_reader a)) (l : Maker tree_reader) (s : Contents) (around : List Contents) (f : Form) → AllFit a → StateStands a s →
        MakesSame (to_trees a) (SlotStands a) k l (uses fs (slot_stack_of a s around) f) → grow fs l (stack_of a s (map (context_of a) around)) f ≡ option_map (map_stack (to_trees a)) (grow fs k (slot_stack_of a s around) f) }
    ensures causes { (a : Arena) (fs : WasmFeatures) (k : Maker (slot_reader a)) (l : Maker tree_reader) (s : Contents) (around : List Contents) (f : Form) → AllFit a → StateStands a s →
        MakesSame (to_trees a) (SlotStands a) k l (uses fs (slot_stack_of a s around) f) → checks fs l (stack_of a s (map (context_of a) around)) f ≡ checks fs k (slot_stack_of a s around) f }
{}

/// What an arena made is what its ids and the trees that they stand for say alike, under the names that it
/// gave: a type that was made again, a resource, the next node, and under any names that call them so an
/// instance of a type that owns resources.
pub fn an_arena_makes_what_trees_say()
    ensures again { (a b : Arena) (p : Place) (r c : ComponentAnyTypeId) → Stands a (any_part r) → Renewed a b r c →
        (names : GivenNames) × GivesAt (Under p) (numbers_of a) (numbers_of b) names × MakesSame (to_trees b) (SlotStands b) (slot_maker a b) (tree_maker (names_of names) p) (uses_again (slot_reader b) (at (any_part r))) }
    ensures resource { (a b : Arena) (p : Place) → b.resources ≡ a.resources + 1 → b.stamps ≡ a.stamps + 1 →
        (names : GivenNames) × GivesAt (Under p) (numbers_of a) (numbers_of b) names × MakesSame (to_trees b) (SlotStands b) (slot_maker a b) (tree_maker (names_of names) p) (uses_new (slot_reader b)) }
    ensures instance { (a b : Arena) (p : Place) (names : Names) (i : ComponentInstanceTypeId) (r : Name) (rs : List Name) → owned (tree_at b (part.Instance i)) ≡ r ∷ rs →
        instance_resources names p (tree_at b (part.Instance i)) ≡ next_resources a.resources (r ∷ rs) (exports (tree_at b (part.Instance i))) → Stands b (last_instance b) → tree_at b (last_instance b) ≡ instance_tree names p (tree_at b (part.Instance i)) →
        MakesSame (to_trees b) (SlotStands b) (slot_maker a b) (tree_maker names p) (uses_instance (slot_reader b) (at (part.Instance i))) }
    ensures node { (a b : Arena) (p : Place) (n : New_node (slot_reader b)) → length b.nodes ≡ suc (length a.nodes) → tree_at b (next_node a n) ≡ node_tree (number (length a.nodes)) (map_node (to_trees b) n) →
        (names : GivenNames) × GivesAt (Under p) (numbers_of a) (numbers_of b) names × MakesSame (to_trees b) (SlotStands b) (slot_maker a b) (tree_maker (names_of names) p) (uses_node (Some n)) }
{}

/// The entity of an exported item, and then its entry, are together the export, where the item is marked as used between
/// if it is a value.
/// So with a written type: together they are a declared export.
pub fn two_calls_are_an_export()
    ensures item { (a b c : Arena) (outer : List Tree_context) (p : Place) (s t s' : Contents) (e : ComponentExport) (x : ComponentEntityType) → StateStands a s → Extends a b → Extends b c → Exported a b p s e x → t ≡ with_uses (exported_values e) s →
        Entered true b c outer p t s' e.name x → Grew a c outer p s s' (export_item e) }
    ensures entity { (a b c : Arena) (outer : List Tree_context) (p : Place) (s s' : Contents) (r : ComponentTypeRef) (n : ComponentExternName) (x : ComponentEntityType) → StateStands a s → Extends a b → Extends b c → WrittenEntity a b p s r x →
        Entered true b c outer p s s' n x → ExportDeclared a c outer p s s' n r }
{}
