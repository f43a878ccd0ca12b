// Laws of the table of core types that items lead to.
ghost use Rattle.std.specs.Prelude.{◌≡◌, ℕ, [], Some};
ghost use Rattle.wcv_core.specs.Names.{Place};
ghost use Rattle.wcv_core.specs.declared.features.WasmFeatures.{WasmFeatures};
ghost use Rattle.wcv_syntax.specs.Model.{Form, Items, Type_form};
ghost use Rattle.wcv_lower.specs.Context.{Kind, empty};
ghost use Rattle.wcv_lower.specs.Declared.{inside, ended, read_type};
ghost use Rattle.wcv_lower.specs.Items.{read_item, read_items};
ghost use Rattle.wcv_lower.specs.Names.{Names};
ghost use Rattle.wcv_lower.specs.Tables.{TableStands};
ghost use Rattle.wcv_lower.specs.Trees.{Tree_stack, tree_reader, tree_maker};

/// Matching goes on over the groups that items lead to, of any names, whatever causes they have: the groups are a table in which
/// supertypes have the form of their types, and the core types of each open context are of it. That is so before the first item, and
/// stays so behind an item and a declared type, where a context opens, and where it ends.
pub fn items_keep_the_table()
    ensures first { (k : Kind) → TableStands (record { top = empty tree_reader k; outer = []; groups = [] }) }
    ensures item { (fs : WasmFeatures) (n : Names) (p : Place) (s t : Tree_stack) (f : Form) → TableStands s → read_item fs (tree_maker n) p s f ≡ Some t → TableStands t }
    ensures items { (fs : WasmFeatures) (n : Names) (p : Place) (k : ℕ) (s t : Tree_stack) (is : Items) → TableStands s → read_items fs (tree_maker n) p k s is ≡ Some t → TableStands t }
    ensures declared { (fs : WasmFeatures) (n : Names) (p : Place) (s t : Tree_stack) (f : Type_form) → TableStands s → read_type fs (tree_maker n) p s f ≡ Some t → TableStands t }
    ensures opened { (k : Kind) (s : Tree_stack) → TableStands s → TableStands (inside k s) }
    ensures closed { (k : Kind) (n : Names) (p : Place) (s t : Tree_stack) → TableStands s → ended k (tree_maker n p) s ≡ Some t → TableStands t }
{}
