// Laws of what stays, over the definitions alone.
ghost use Rattle.std.specs.Prelude.{◌≡◌, ℕ, Some, All};
ghost use Rattle.wcv_core.specs.Names.{Name, Place};
ghost use Rattle.wcv_core.specs.declared.features.WasmFeatures.{WasmFeatures};
ghost use Rattle.wcv_syntax.specs.Model.{Form, Items};
ghost use Rattle.wcv_lower.specs.Ending.{type_at_end};
ghost use Rattle.wcv_lower.specs.Items.{read_item, read_items};
ghost use Rattle.wcv_lower.specs.Names.{Names};
ghost use Rattle.wcv_lower.specs.Trees.{Type_tree, Tree_stack, tree_maker, node_tree};
ghost use Rattle.wcv_growth.specs.Kept.{OnlyGrew};
ghost use Rattle.wcv_growth.specs.Listed.{EachPathLeads};
ghost use Rattle.wcv_growth.specs.Nested.{nested_types};
ghost use Rattle.wcv_growth.specs.Valid.{ValidFrom, ValidTo};

/// What an item does, and what items do, keeps what stood in each open context, in order, marks of used values
/// aside, and groups of core types only join behind. So do items without a cause.
pub fn growth_keeps_what_stood()
    ensures item { (f : WasmFeatures) (names : Names) (p : Place) (s t : Tree_stack) (i : Form) → read_item f (tree_maker names) p s i ≡ Some t → OnlyGrew s t }
    ensures items { (f : WasmFeatures) (names : Names) (p : Place) (n : ℕ) (s t : Tree_stack) (is : Items) → read_items f (tree_maker names) p n s is ≡ Some t → OnlyGrew s t }
    ensures valid { (f : WasmFeatures) (names : Names) (p : Place) (n : ℕ) (s t : Tree_stack) (is : Items) → ValidFrom f names p n s is t → OnlyGrew s t }
{}

/// In the type of a valid root, and in that of each component inside it, each path that is recorded leads to its
/// resource: of an imported one in the imports, of a defined one in the exports.
pub fn each_recorded_path_leads()
    ensures root { (f : WasmFeatures) (is : Items) (d : Tree_stack) (i : Name) (t : Type_tree) → ValidTo f is d → type_at_end (node_tree i) d.top ≡ Some t → EachPathLeads t }
    ensures nested { (f : WasmFeatures) (is : Items) (d : Tree_stack) → ValidTo f is d → All (λ (x : Place × Type_tree). EachPathLeads x.1) (nested_types f is) }
{}
