// Laws for whoever adds items to states by the calls: which states are reached, and that an instance may be made in them.
ghost use Rattle.std.specs.Prelude.{◌≡◌, List, [], ◌∷◌, true};
ghost use Rattle.wcv_core.specs.Names.{Place};
ghost use Rattle.wcv_core.specs.declared.features.WasmFeatures.{WasmFeatures};
ghost use Rattle.wcv_syntax.specs.Model.{Form, Instance_form};
ghost use Rattle.wcv_types.specs.Arena.{Arena};
ghost use Rattle.wcv_types.specs.Standing.{Extends};
ghost use Rattle.wcv_lower.specs.Checks.{IsFree};
ghost use Rattle.wcv_lower.specs.Growth.{is_plain, left_checks};
ghost use Rattle.wcv_lower.specs.Trees.{Tree_context};
ghost use Rattle.wcv_spaces.specs.Contents.{Contents, context_of, empty_state};
ghost use Rattle.wcv_spaces.specs.Promises.{Grew, Keeps, numbers_of};
ghost use Rattle.wcv_state.specs.Stack.{IsOpen};
ghost use Rattle.wcv_spaces.specs.declared.kind.ComponentKind.TheVariants.{Component};
ghost use Rattle.wcv_decls.specs.Declaring.{features_in, innermost, stack_in};
ghost use Rattle.wcv_link.specs.Reached.{IsReached};
ghost use Rattle.wcv_instances.specs.ComponentInstances.{ItemMayInstantiate};
ghost use Rattle.wcv_link.specs.ItemCalls.{ItemRead};

/// A new state of a component, over an arena without core types, is reached, and may be used (`first`, `usable`). It stays so behind a call that added an item which is
/// read in one step, where the limits that the call leaves to its caller hold (`grown`), and behind whatever was read into the states as an
/// item is (`read`). In the innermost of states that are reached each item may make an instance (`may`).
pub fn states_that_are_reached_may_instantiate()
    ensures first { (a : Arena) (features : WasmFeatures) → a.core ≡ [] → IsReached a (empty_state Component features ∷ []) }
    ensures usable { (a : Arena) (features : WasmFeatures) → a.core ≡ [] → IsOpen a (empty_state Component features) }
    ensures grown { (a b : Arena) (s s' : Contents) (f : Form) → IsReached a (s ∷ []) → is_plain f ≡ true → IsFree (left_checks (context_of a s) f) → Keeps a b s s' → ((outer : List Tree_context) (p : Place) → Grew a b outer p s s' f) → IsReached b (s' ∷ []) }
    ensures read { (a b : Arena) (ss ss' : List Contents) (f : Form) → IsReached a ss → Extends a b → features_in ss' ≡ features_in ss → ((p : Place) → ItemRead (features_in ss) p (stack_in a ss) f (stack_in b ss') (numbers_of a) (numbers_of b)) → IsReached b ss' }
    ensures may { (a : Arena) (ss : List Contents) (i : Instance_form) → IsReached a ss → ItemMayInstantiate a (innermost ss) i }
{}
