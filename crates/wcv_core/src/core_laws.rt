// Laws of the table of core types.
ghost use Rattle.std.specs.Prelude.{◌≡◌, ℕ, ◌+◌, ◌<◌, ◌≤◌, List, Some, length, get_or, true};
ghost use Rattle.std.specs.Bool.{Decides};
ghost use Rattle.wcv_core.specs.CoreAbove.{AreAbove, LeadsUp, is_declared};
ghost use Rattle.wcv_core.specs.CoreCode.{code_of};
ghost use Rattle.wcv_core.specs.CoreForm.{Group, no_type};
ghost use Rattle.wcv_core.specs.CoreGroups.{AreClosed, depths_of, id_of, same_group, total};
ghost use Rattle.wcv_core.specs.CoreJoining.{first_id};
ghost use Rattle.wcv_core.specs.CoreMatching.{type_at, name_matches, same_name};
ghost use Rattle.wcv_core.specs.CoreRules.{same_storage};
ghost use Rattle.wcv_core.specs.CoreTable.{with_group};
ghost use Rattle.wcv_core.specs.CoreWords.{Climbs};
ghost use Rattle.wcv_core.specs.declared.core_types.AbstractHeap.{AbstractHeap};
ghost use Rattle.wcv_core.specs.declared.core_types.StorageType.{StorageType};

/// A group can be read from its code.
pub fn equal_codes_are_of_equal_groups()
    ensures { (g h : Group) → code_of g ≡ code_of h → g ≡ h }
{}

/// Equal groups have one id.
#[tactic(auto, using(crate::proofs::TableLaws::one_id))]
pub fn equal_groups_have_one_id()
    ensures { (gs : List Group) (g h : Group) (i j : ℕ) → g ≡ h → id_of gs g ≡ Some i → id_of gs h ≡ Some j → i ≡ j }
{}

/// Groups that share the id of a type are equal, and have one id.
#[tactic(auto, using(crate::proofs::TableLaws::common_id))]
pub fn groups_with_a_common_id_are_equal()
    ensures { (gs : List Group) (g h : Group) (i j : ℕ) → AreClosed 0 gs → id_of gs g ≡ Some i → id_of gs h ≡ Some j → i ≤ j → j < i + length g → (g ≡ h) × (i ≡ j) }
{}

/// A group that is interned is found, by the id that is answered.
#[tactic(auto, using(crate::proofs::TableLaws::interned))]
pub fn an_interned_group_is_found()
    ensures { (gs : List Group) (g : Group) → id_of (with_group gs g) g ≡ Some (first_id gs g) }
{}

/// To intern a group again changes nothing.
#[tactic(auto, using(crate::proofs::TableLaws::again))]
pub fn interning_again_changes_nothing()
    ensures { (gs : List Group) (g : Group) → with_group (with_group gs g) g ≡ with_group gs g }
{}

/// Groups keep their ids when another is interned.
#[tactic(auto, using(crate::proofs::TableLaws::kept))]
pub fn older_groups_keep_their_ids()
    ensures { (gs : List Group) (g h : Group) (i : ℕ) → id_of gs h ≡ Some i → id_of (with_group gs g) h ≡ Some i }
{}

/// Types keep their ids too.
#[tactic(auto, using(crate::proofs::TableLaws::types_kept))]
pub fn older_types_keep_their_ids()
    ensures { (gs : List Group) (g : Group) (i : ℕ) → i < total gs → type_at (with_group gs g) i ≡ type_at gs i }
{}

/// The types of a group stand at its ids, in order.
#[tactic(auto, using(crate::proofs::TableLaws::stand))]
pub fn types_stand_at_their_ids()
    ensures { (gs : List Group) (g : Group) (i k : ℕ) → id_of gs g ≡ Some i → k < length g → type_at gs (i + k) ≡ get_or g k no_type }
{}

/// Heaps that are named by words match exactly where rules lead from the one to the other.
#[tactic(auto, using(crate::proofs::HeapWords::climbs, crate::proofs::HeapWords::matches))]
pub fn words_match_by_the_rules()
    ensures to { (a b : AbstractHeap) → name_matches a b ≡ true → (xs : List AbstractHeap) × Climbs a xs b }
    ensures from { (a b : AbstractHeap) (xs : List AbstractHeap) → Climbs a xs b → name_matches a b ≡ true }
{}

/// What is compared by its code is equal: heaps that are named by words, what fields hold, and groups.
#[tactic(auto, using(crate::proofs::Comparing::names_told, crate::proofs::Comparing::storages_told, crate::proofs::Comparing::groups_told))]
pub fn what_is_compared_by_codes_is_equal()
    ensures names { (a b : AbstractHeap) → Decides (same_name a b) (a ≡ b) }
    ensures storages { (a b : StorageType) → Decides (same_storage a b) (a ≡ b) }
    ensures groups { (g h : Group) → Decides (same_group g h) (g ≡ h) }
{}

/// The depth of a type counts the declared supertypes above it.
pub fn depths_count_declared_supertypes()
    ensures above { (gs : List Group) (a : ℕ) → AreClosed 0 gs → (ps : List ℕ) × AreAbove gs a ps }
    ensures counted { (gs : List Group) (a : ℕ) (ps : List ℕ) → AreClosed 0 gs → a < total gs → AreAbove gs a ps → get_or (depths_of gs) a 0 ≡ length ps }
{}

/// Subtypes that are declared are the reflexive and transitive closure of the declared supertypes.
pub fn declared_is_the_closure_of_supertypes()
    ensures to { (gs : List Group) (a b : ℕ) → is_declared gs a b ≡ true → (ps : List ℕ) × LeadsUp gs a ps b }
    ensures from { (gs : List Group) (a b : ℕ) (ps : List ℕ) → AreClosed 0 gs → LeadsUp gs a ps b → is_declared gs a b ≡ true }
{}
