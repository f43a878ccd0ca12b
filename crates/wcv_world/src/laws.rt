// Laws of values and of the machine, over the definitions alone.
ghost use Rattle.std.specs.Prelude.{◌≡◌, ◌≤◌, ℕ, List, Option};
ghost use Rattle.std.specs.Bool.{Decides};
ghost use Rattle.std.specs.Option.{option_map};
ghost use Rattle.wcv_core.specs.CoreForm.{Group};
ghost use Rattle.wcv_core.specs.Names.{Name, Place};
ghost use Rattle.wcv_core.specs.declared.core_types.ValType.{ValType};
ghost use Rattle.wcv_core.specs.declared.features.WasmFeatures.{WasmFeatures};
ghost use Rattle.wcv_syntax.specs.Model.{Form, type_item, Items, Type_form, resource_type};
ghost use Rattle.wcv_closed.specs.ClosedTable.{IsTable};
ghost use Rattle.wcv_matching.specs.Orderly.{Orderly};
ghost use Rattle.wcv_matching.specs.TableMatching.{CoreWithin};
ghost use Rattle.wcv_lower.specs.Declared.{read_type};
ghost use Rattle.wcv_lower.specs.Growth.{grow};
ghost use Rattle.wcv_lower.specs.Items.{read_item, read_items};
ghost use Rattle.wcv_lower.specs.Mapped.{map_stack};
ghost use Rattle.wcv_lower.specs.Names.{Names};
ghost use Rattle.wcv_lower.specs.Readers.{Brought};
ghost use Rattle.wcv_lower.specs.Renamed.{Renaming};
ghost use Rattle.wcv_lower.specs.Trees.{Tree_stack, tree_maker};
ghost use Rattle.wcv_world.specs.Growth.{Arguments, FitsWritten, fits_written, importing_alone};
ghost use Rattle.wcv_world.specs.Machine.{World, End, ended, instantiated, linked, run_root};
ghost use Rattle.wcv_world.specs.Naming.{Naming};
ghost use Rattle.wcv_world.specs.Reading.{Value_stack, to_types, token_maker, value_maker, value_reader};
ghost use Rattle.wcv_world.specs.Recorded.{recorded_type, table_behind};
ghost use Rattle.wcv_world.specs.Renamed.{Renames, rename_arguments, rename_outcome, rename_run, rename_type, rename_world};
ghost use Rattle.wcv_world.specs.Values.{Run, Value, type_over};

/// What an item appends to lists of values is, over their types, what it appends to the lists of these; and so of a declared type, and
/// of a resource that is a token, by the name of that.
pub fn values_grow_as_their_types()
    ensures items { (fs : WasmFeatures) (names : Names) (p : Place) (s : Value_stack) (f : Form) → grow fs (tree_maker names p) (map_stack to_types s) f ≡ option_map (map_stack to_types) (grow fs (value_maker names p) s f) }
    ensures types { (fs : WasmFeatures) (names : Names) (p : Place) (s : Value_stack) (t : Type_form) → read_type fs (tree_maker names) p (map_stack to_types s) t ≡ option_map (map_stack to_types) (read_type fs (value_maker names) p s t) }
    ensures resource { (fs : WasmFeatures) (names : Names) (r : Name) (p : Place) (s : Value_stack) (rep : ValType) (dtor : Option ℕ) →
        grow fs (tree_maker (record names { resource = λ o. r }) p) (map_stack to_types s) (type_item (resource_type rep dtor)) ≡ option_map (map_stack to_types) (grow fs (token_maker names r p) s (type_item (resource_type rep dtor))) }
{}

/// The test of an argument answers whether it matches the written type under some substitution of the resources that the import
/// introduces, where both are orderly and their core types are of the table.
pub fn an_import_takes_what_fits()
    ensures { (gs : List Group) (v : Value) (b : Brought value_reader) → IsTable gs → Orderly (type_over v) → CoreWithin gs (type_over v) → Orderly (importing_alone b) → CoreWithin gs (importing_alone b) →
        Decides (fits_written gs v b) (FitsWritten gs v b) }
{}

/// Under other features an item does the same, the same types are recorded, and a run comes to the same.
pub fn growth_looks_at_no_feature()
    ensures item { (fs gs : WasmFeatures) (names : Names) (p : Place) (s : Tree_stack) (f : Form) → read_item gs (tree_maker names) p s f ≡ read_item fs (tree_maker names) p s f }
    ensures items { (fs gs : WasmFeatures) (names : Names) (p : Place) (k : ℕ) (s : Tree_stack) (is : Items) → read_items gs (tree_maker names) p k s is ≡ read_items fs (tree_maker names) p k s is }
    ensures recorded { (fs gs : WasmFeatures) (names : Names) (hs : List Group) (is : Items) → recorded_type gs names hs is ≡ recorded_type fs names hs is }
    ensures linked { (fs gs : WasmFeatures) (n : Naming) (w : World) (R : Run) (is : Items) (args : Arguments) → linked gs n w R is args ≡ linked fs n w R is args }
    ensures root { (fs gs : WasmFeatures) (n : Naming) (w : World) (r : ℕ) (is : Items) (args : Arguments) → run_root gs n w r is args ≡ run_root fs n w r is args }
{}

/// Turns only fall, so that a bound on how many instantiations stand inside one another is none where it is no less than the turns.
pub fn turns_bound_instantiations()
    ensures falls { (fs : WasmFeatures) (n : Naming) (most : ℕ) (w : World) (v : Value) (args : Arguments) (e : End) → instantiated fs n most w v args ≡ ended e → e.world.turns ≤ w.turns }
    ensures bound { (fs : WasmFeatures) (n : Naming) (k m : ℕ) (w : World) (v : Value) (args : Arguments) → w.turns ≤ k → w.turns ≤ m → instantiated fs n m w v args ≡ instantiated fs n k w v args }
{}

/// By renamed names, in a renamed world and with renamed arguments, a run comes to what it comes to, renamed.
pub fn renaming_keeps_runs()
    ensures recorded { (w : Renaming) (fs : WasmFeatures) (n m : Naming) (r : ℕ) (gs : List Group) (is : Items) (p : Place) → Renames w n m → recorded_type fs (m.run r) gs is p ≡ option_map (rename_type w) (recorded_type fs (n.run r) gs is p) }
    ensures linked { (w : Renaming) (fs : WasmFeatures) (n m : Naming) (u : World) (R : Run) (is : Items) (args : Arguments) → Renames w n m →
        linked fs m (rename_world w u) (rename_run w R) is (rename_arguments w args) ≡ rename_outcome w (linked fs n u R is args) }
    ensures root { (w : Renaming) (fs : WasmFeatures) (n m : Naming) (u : World) (r : ℕ) (is : Items) (args : Arguments) → Renames w n m →
        run_root fs m (rename_world w u) r is (rename_arguments w args) ≡ rename_outcome w (run_root fs n u r is args) }
{}
