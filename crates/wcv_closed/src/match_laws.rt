// Laws of matching over closed forms.
ghost use Rattle.std.specs.Prelude.{◌≡◌, ◌<◌, ℕ, List, false, true};
ghost use Rattle.wcv_core.specs.Checks.{IsFree, all_checks};
ghost use Rattle.wcv_core.specs.CoreAbove.{is_declared};
ghost use Rattle.wcv_core.specs.CoreForm.{Group};
ghost use Rattle.wcv_core.specs.CoreGroups.{IsClosed, IsHeapWithin, IsValWithin, total};
ghost use Rattle.wcv_core.specs.CoreJoining.{group_ids};
ghost use Rattle.wcv_core.specs.CoreMatching.{heap_matches, val_matches};
ghost use Rattle.wcv_core.specs.CoreRules.{type_checks};
ghost use Rattle.wcv_core.specs.CoreTable.{with_group};
ghost use Rattle.wcv_core.specs.declared.core_types.HeapType.{HeapType};
ghost use Rattle.wcv_core.specs.declared.core_types.ValType.{ValType};
ghost use Rattle.wcv_closed.specs.ClosedMatching.{HeapKeepsForm, HeapLeads, HeapMatches, IsBelow, IsHeapClosed, IsValClosed, SupersKeepForm, ValKeepsForm, ValMatches};
ghost use Rattle.wcv_closed.specs.ClosedTable.{IsTable};
ghost use Rattle.wcv_closed.specs.ClosedType.{Closed, closed};
ghost use Rattle.wcv_closed.specs.ClosedValue.{Heap, Val, closed_heap, closed_val};

/// An id has another as a declared supertype, or is it, exactly where their closed forms say so.
#[tactic(auto, using(crate::proofs::Declared::declared_below, crate::proofs::Declared::below_declared))]
pub fn supertypes_are_those_of_closed_forms()
    ensures to { (gs : List Group) (a b : ℕ) → IsTable gs → a < total gs → is_declared gs a b ≡ true → IsBelow (closed gs a) (closed gs b) }
    ensures from { (gs : List Group) (a b : ℕ) → IsTable gs → a < total gs → b < total gs → IsBelow (closed gs a) (closed gs b) → is_declared gs a b ≡ true }
{}

/// Heaps match in a table exactly where their closed forms match.
#[tactic(auto, using(crate::proofs::MatchingIds::heap_to, crate::proofs::MatchingIds::heap_from))]
pub fn heaps_match_as_their_closed_forms()
    ensures to { (gs : List Group) (a b : HeapType) → IsTable gs → IsHeapWithin (total gs) 0 a → IsHeapWithin (total gs) 0 b → heap_matches gs a b ≡ true → HeapMatches (closed_heap gs a) (closed_heap gs b) }
    ensures from { (gs : List Group) (a b : HeapType) → IsTable gs → IsHeapWithin (total gs) 0 a → IsHeapWithin (total gs) 0 b → HeapMatches (closed_heap gs a) (closed_heap gs b) → heap_matches gs a b ≡ true }
{}

/// Value types match in a table exactly where their closed forms match.
#[tactic(auto, using(crate::proofs::MatchingIds::val_to, crate::proofs::MatchingIds::val_from))]
pub fn values_match_as_their_closed_forms()
    ensures to { (gs : List Group) (a b : ValType) → IsTable gs → IsValWithin (total gs) 0 a → IsValWithin (total gs) 0 b → val_matches gs a b ≡ true → ValMatches (closed_val gs a) (closed_val gs b) }
    ensures from { (gs : List Group) (a b : ValType) → IsTable gs → IsValWithin (total gs) 0 a → IsValWithin (total gs) 0 b → ValMatches (closed_val gs a) (closed_val gs b) → val_matches gs a b ≡ true }
{}

/// Each closed heap and each closed value type matches itself.
#[tactic(auto, using(crate::proofs::Transitive::heap_itself, crate::proofs::Transitive::val_itself))]
pub fn closed_forms_match_themselves()
    ensures heaps { (h : Heap Closed) → IsHeapClosed h → HeapMatches h h }
    ensures values { (v : Val Closed) → IsValClosed v → ValMatches v v }
{}

/// Matching goes on from one to the next, where the declared supertypes of the first two have their form.
pub fn closed_forms_match_on()
    ensures heaps { (a b c : Heap Closed) → HeapKeepsForm a → HeapKeepsForm b → HeapMatches a b → HeapMatches b c → HeapMatches a c }
    ensures values { (u v w : Val Closed) → ValKeepsForm u → ValKeepsForm v → ValMatches u v → ValMatches v w → ValMatches u w }
{}

/// Heaps match exactly where the rules lead from the one to the other, over types whose declared supertypes have their form.
#[tactic(auto, using(crate::proofs::Rules::matches_leads, crate::proofs::Rules::leads_matches))]
pub fn heaps_match_by_the_rules()
    ensures to { (a b : Heap Closed) → HeapKeepsForm a → HeapKeepsForm b → HeapMatches a b → (xs : List (Heap Closed)) × HeapLeads a xs b }
    ensures from { (a b : Heap Closed) (xs : List (Heap Closed)) → IsHeapClosed a → HeapKeepsForm a → HeapLeads a xs b → HeapMatches a b }
{}

/// Declared supertypes have the form of their types where each type of a table keeps its rules, and still do once a group has
/// joined whose types keep them.
#[tactic(auto, using(crate::proofs::MatchingIds::rules_keep_form))]
pub fn rules_keep_the_form_of_supertypes()
    ensures joined { (gs : List Group) (g : Group) → IsTable gs → SupersKeepForm gs → IsClosed (total gs) g
        → IsFree (all_checks (type_checks (with_group gs g)) (group_ids gs g)) → SupersKeepForm (with_group gs g) }
    ensures all { (gs : List Group) → ((i : ℕ) → i < total gs → IsFree (type_checks gs i)) → SupersKeepForm gs }
{}

/// Where supertypes keep the form of their subtypes, the closed forms of a table are such that matching goes on.
#[tactic(auto, using(crate::proofs::MatchingIds::heap_keeps, crate::proofs::MatchingIds::val_keeps, crate::proofs::MatchingIds::val_closed))]
pub fn closed_forms_of_a_table_keep_their_form()
    ensures heaps { (gs : List Group) (a : HeapType) → IsTable gs → SupersKeepForm gs → IsHeapWithin (total gs) 0 a → HeapKeepsForm (closed_heap gs a) }
    ensures values { (gs : List Group) (a : ValType) → IsTable gs → SupersKeepForm gs → IsValWithin (total gs) 0 a → ValKeepsForm (closed_val gs a) }
    ensures closed { (gs : List Group) (a : ValType) → IsTable gs → IsValWithin (total gs) 0 a → IsValClosed (closed_val gs a) }
{}

/// Matching goes on over the value types of a table, and each matches itself.
#[tactic(auto, using(crate::proofs::Transitive::table_itself, crate::proofs::Transitive::table_on))]
pub fn values_of_a_table_match_on()
    ensures itself { (gs : List Group) (a : ValType) → IsTable gs → IsValWithin (total gs) 0 a → val_matches gs a a ≡ true }
    ensures on { (gs : List Group) (a b c : ValType) → IsTable gs → SupersKeepForm gs → IsValWithin (total gs) 0 a → IsValWithin (total gs) 0 b → IsValWithin (total gs) 0 c
        → val_matches gs a b ≡ true → val_matches gs b c ≡ true → val_matches gs a c ≡ true }
{}

/// Where a supertype has another form than its type, matching does not go on.
#[tactic(auto, using(crate::proofs::Examples::mixed_example))]
pub fn a_form_that_changes_breaks_matching()
    ensures { (gs : List Group) × (a : HeapType) × (b : HeapType) × (c : HeapType) × IsTable gs × (heap_matches gs a b ≡ true) × (heap_matches gs b c ≡ true) × (heap_matches gs a c ≡ false) }
{}
