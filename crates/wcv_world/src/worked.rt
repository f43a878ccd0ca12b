// Worked runs: each computes.
ghost use Rattle.std.specs.Prelude.{◌≡◌, ℕ, suc, [], ◌∷◌, Some, codes};
ghost use Rattle.wcv_core.specs.Names.{number};
ghost use Rattle.wcv_core.specs.declared.core_types.ValType.TheVariants as val;
ghost use Rattle.wcv_core.specs.declared.features.WasmFeatures.{WasmFeatures};
ghost use Rattle.wcv_types.specs.Tree.{Text, plain_name};
ghost use Rattle.wcv_world.specs.Machine.{World, End, ended, out_of_turns, stuck, run_root};
ghost use Rattle.wcv_world.specs.Naming.{naming_by_number};
ghost use Rattle.wcv_world.specs.Values.{no_values, value};
ghost use Rattle.wcv_world.specs.Worked.{a_broken_rule, a_declared_resource, a_name_twice, a_refused_end, another_sort, asking_for, exporting_one, first_token, giving_one_for_all, giving_one_twice, items, linked_anew, new_world, no_type, nothing_given, nothing_served, nothing_there, running, with_one_token};

/// A root without items ends at once, with an instance that exports nothing.
pub fn a_root_without_items_ends()
    ensures { (fs : WasmFeatures) (turns : ℕ) → linked_anew fs turns [] ≡ ended (record { world = record { turns = turns; readings = 1; tokens = []; groups = [] }; exports = no_values }) }
{}

/// A root that defines a resource and exports it ends with the first token, as one type twice. Another run may be given it as an argument.
/// Neither takes a turn.
pub fn an_exported_resource_is_a_token()
    ensures exported { (fs : WasmFeatures) (turns : ℕ) (n : Text) → linked_anew fs turns (exporting_one n) ≡ ended (record { world = with_one_token turns 1; exports = value (plain_name n) (first_token 0) no_values }) }
    ensures given { (fs : WasmFeatures) (turns : ℕ) → run_root fs naming_by_number (with_one_token turns 1) 1 (items (asking_for (codes "r"))) ((codes "r", first_token 0) ∷ []) ≡ ended (record { world = with_one_token turns 2; exports = no_values }) }
    ensures missing { (fs : WasmFeatures) (turns : ℕ) → run_root fs naming_by_number (with_one_token turns 1) 1 (items (asking_for (codes "r"))) ((codes "s", first_token 0) ∷ []) ≡ stuck }
{}

/// Two imports of resources may be given one token, and so may four, of which an instance exports two. Each instantiation takes a turn.
pub fn one_token_for_many_imports()
    ensures two { (fs : WasmFeatures) (turns : ℕ) → linked_anew fs (suc turns) giving_one_twice ≡ ended (record { world = with_one_token turns 2; exports = no_values }) }
    ensures two_without { (fs : WasmFeatures) → linked_anew fs 0 giving_one_twice ≡ out_of_turns }
    ensures four { (fs : WasmFeatures) (turns : ℕ) → linked_anew fs (suc turns) giving_one_for_all ≡ ended (record { world = with_one_token turns 2; exports = no_values }) }
    ensures four_without { (fs : WasmFeatures) → linked_anew fs 0 giving_one_for_all ≡ out_of_turns }
{}

/// An interface whose method a core module implements, handed to a command that lowers it for a core module and instantiates a component
/// of its own: three turns.
pub fn a_command_runs_over_an_interface()
    ensures ended { (fs : WasmFeatures) (turns : ℕ) → (e : End) × (linked_anew fs (suc (suc (suc turns))) running ≡ ended e) × (e.exports ≡ no_values) × (e.world.turns ≡ turns) }
    ensures without { (fs : WasmFeatures) → linked_anew fs 2 running ≡ out_of_turns }
{}

/// Where the machine is stuck: where nothing stands at an index, where an argument is missing or of another sort, where a list would get a
/// name twice, where a core type breaks a rule, at a component without a type, where a declared type defines a resource, at a declared
/// component type whose end is refused, and where nothing serves a core module.
pub fn worked_stuck_runs()
    ensures index { (fs : WasmFeatures) (turns : ℕ) → linked_anew fs turns nothing_there ≡ stuck }
    ensures argument { (fs : WasmFeatures) (turns : ℕ) → linked_anew fs (suc turns) nothing_given ≡ stuck }
    ensures sort { (fs : WasmFeatures) (turns : ℕ) → linked_anew fs (suc turns) another_sort ≡ stuck }
    ensures name { (fs : WasmFeatures) (turns : ℕ) → linked_anew fs turns a_name_twice ≡ stuck }
    ensures rule { (fs : WasmFeatures) (turns : ℕ) → linked_anew fs turns a_broken_rule ≡ stuck }
    ensures no_type { (fs : WasmFeatures) (turns : ℕ) → linked_anew fs turns no_type ≡ stuck }
    ensures resource { (fs : WasmFeatures) (turns : ℕ) → linked_anew fs turns a_declared_resource ≡ stuck }
    ensures end { (fs : WasmFeatures) (turns : ℕ) → linked_anew fs turns a_refused_end ≡ stuck }
    ensures core { (fs : WasmFeatures) (turns : ℕ) → linked_anew fs turns nothing_served ≡ stuck }
{}
