// Laws of the forms of closed types, and of the rules over them.
ghost use Rattle.std.specs.Prelude.{◌≡◌, ◌<◌, ℕ, List, [], length, true};
ghost use Rattle.wcv_core.specs.Checks.{all_checks};
ghost use Rattle.wcv_core.specs.CoreForm.{CompositeForm, Group};
ghost use Rattle.wcv_core.specs.CoreGroups.{IsClosed, IsFormWithin, total};
ghost use Rattle.wcv_core.specs.CoreIds.{ids_in_group};
ghost use Rattle.wcv_core.specs.CoreJoining.{group_ids, written_checks};
ghost use Rattle.wcv_core.specs.CoreRules.{form_at, form_matches, form_shared, type_checks};
ghost use Rattle.wcv_core.specs.CoreSizes.{IsEntityWithin, entity_size};
ghost use Rattle.wcv_core.specs.CoreTable.{with_group};
ghost use Rattle.wcv_core.specs.CoreWritten.{Core_entry};
ghost use Rattle.wcv_core.specs.declared.core_types.EntityType.{EntityType};
ghost use Rattle.wcv_core.specs.declared.features.WasmFeatures.{WasmFeatures};
ghost use Rattle.wcv_closed.specs.ClosedForm.{FormMatches, IsFormShared, form_by, form_of};
ghost use Rattle.wcv_closed.specs.ClosedTable.{IsTable, SameEntries};
ghost use Rattle.wcv_closed.specs.ClosedType.{closed, closed_at};
ghost use Rattle.wcv_closed.specs.ClosedValue.{closed_item};

/// The form of a type in a table, with closed forms in place of ids, is that of its closed form.
#[tactic(auto, using(crate::proofs::Forming::form_shown))]
pub fn forms_are_those_of_closed_forms()
    ensures { (gs : List Group) (i : ℕ) → IsTable gs → i < total gs → form_by (closed gs) (form_at gs i) ≡ form_of (closed gs i) }
{}

/// Forms match in a table exactly where their closed forms match.
#[tactic(auto, using(crate::proofs::FormsMatch::form_to, crate::proofs::FormsMatch::form_from))]
pub fn forms_match_as_their_closed_forms()
    ensures to { (gs : List Group) (a b : CompositeForm) → IsTable gs → IsFormWithin (total gs) 0 a → IsFormWithin (total gs) 0 b → form_matches gs a b ≡ true → FormMatches (form_by (closed gs) a) (form_by (closed gs) b) }
    ensures from { (gs : List Group) (a b : CompositeForm) → IsTable gs → IsFormWithin (total gs) 0 a → IsFormWithin (total gs) 0 b → FormMatches (form_by (closed gs) a) (form_by (closed gs) b) → form_matches gs a b ≡ true }
{}

/// A form has no reference that is not shared exactly where its closed form has none.
#[tactic(auto, using(crate::proofs::FormsMatch::form_shared_to, crate::proofs::FormsMatch::form_shared_from))]
pub fn forms_are_shared_as_their_closed_forms()
    ensures to { (gs : List Group) (a : CompositeForm) → IsTable gs → IsFormWithin (total gs) 0 a → form_shared gs a ≡ true → IsFormShared (form_by (closed gs) a) }
    ensures from { (gs : List Group) (a : CompositeForm) → IsTable gs → IsFormWithin (total gs) 0 a → IsFormShared (form_by (closed gs) a) → form_shared gs a ≡ true }
{}

/// The rules ask the same of types that have one closed form, whichever tables have them.
#[tactic(auto, using(crate::proofs::SameRules::same_rules))]
pub fn rules_are_those_of_closed_forms()
    ensures { (gs hs : List Group) (i j : ℕ) → IsTable gs → IsTable hs → i < total gs → j < total hs → closed gs i ≡ closed hs j → type_checks gs i ≡ type_checks hs j }
{}

/// What is seen in a written group alone is the same over two spaces whose entries name the same types, if the group names no type
/// by an id.
#[tactic(auto, using(crate::proofs::SameChecks::written_same))]
pub fn written_groups_have_the_same_causes()
    ensures { (ws : WasmFeatures) (gs hs : List Group) (es fs : List Core_entry) (m n : ℕ) (w : Group) → SameEntries gs hs es fs → ids_in_group w ≡ []
        → written_checks ws m es w ≡ written_checks ws n fs w }
{}

/// Groups that join two tables and have the same closed forms there have the same causes. Only the limit on types looks at what else a table has.
pub fn joining_groups_keep_the_same_rules()
    ensures { (gs hs : List Group) (g h : Group) → IsTable gs → IsTable hs → IsClosed (total gs) g → IsClosed (total hs) h
        → length g ≡ length h → ((k : ℕ) → k < length g → closed_at gs g k ≡ closed_at hs h k)
        → all_checks (type_checks (with_group gs g)) (group_ids gs g) ≡ all_checks (type_checks (with_group hs h)) (group_ids hs h) }
{}

/// What core modules import and export counts the same in both tables, where it has one closed form.
#[tactic(auto, using(crate::proofs::SameSizes::same_sizes))]
pub fn sizes_are_those_of_closed_items()
    ensures { (gs hs : List Group) (a b : EntityType) → IsTable gs → IsTable hs → IsEntityWithin (total gs) a → IsEntityWithin (total hs) b
        → closed_item gs a ≡ closed_item hs b → entity_size gs a ≡ entity_size hs b }
{}
