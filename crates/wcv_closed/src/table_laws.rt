// Laws of tables, and of the closed forms of groups that join them.
ghost use Rattle.std.specs.Prelude.{◌≡◌, ◌+◌, ◌<◌, ℕ, List, [], All, Some, length};
ghost use Rattle.wcv_core.specs.CoreForm.{Group};
ghost use Rattle.wcv_core.specs.CoreGroups.{IsClosed, id_of, total};
ghost use Rattle.wcv_core.specs.CoreIds.{ids_in_group};
ghost use Rattle.wcv_core.specs.CoreJoining.{first_id};
ghost use Rattle.wcv_core.specs.CoreTable.{with_group};
ghost use Rattle.wcv_core.specs.CoreWritten.{Core_entry, closed_group};
ghost use Rattle.wcv_closed.specs.ClosedTable.{IsTable, SameEntries};
ghost use Rattle.wcv_closed.specs.ClosedType.{closed, closed_at};
ghost use Rattle.wcv_closed.specs.NumberedIds.{moved_group};

/// A table begins empty, and stays one where closed groups join.
#[tactic(auto, using(crate::proofs::Interning::no_table))]
pub fn interning_keeps_the_table()
    ensures empty { IsTable [] }
    ensures joined { (gs : List Group) (g : Group) → IsTable gs → IsClosed (total gs) g → IsTable (with_group gs g) }
{}

/// The types of a group that is found, or interned, have the closed forms that the group has over the table.
#[tactic(auto, using(crate::proofs::Interning::found_in_table, crate::proofs::Interning::interned_unfolds))]
pub fn an_interned_group_has_its_closed_form()
    ensures found { (gs : List Group) (g : Group) (m k : ℕ) → IsTable gs → id_of gs g ≡ Some m → k < length g → closed gs (m + k) ≡ closed_at gs g k }
    ensures interned { (gs : List Group) (g : Group) (k : ℕ) → IsTable gs → IsClosed (total gs) g → k < length g → closed (with_group gs g) (first_id gs g + k) ≡ closed_at gs g k }
{}

/// Where a type of the table has the closed form that a group has at a position, interning the group answers its id.
#[tactic(auto, using(crate::proofs::Interning::interned_found))]
pub fn interning_finds_what_has_the_closed_form()
    ensures { (gs : List Group) (g : Group) (k i : ℕ) → IsTable gs → IsClosed (total gs) g → k < length g → i < total gs
        → closed_at gs g k ≡ closed gs i → first_id gs g + k ≡ i }
{}

/// A written group has one closed form over two spaces whose entries name the same types, by ids of two tables. What it names
/// by ids, if anything, is the same in both.
#[tactic(auto, using(crate::proofs::Written::written_alike))]
pub fn a_written_group_has_one_closed_form_over_both_tables()
    ensures { (gs hs : List Group) (es fs : List Core_entry) (w : Group) (k : ℕ) → SameEntries gs hs es fs → All (λ i. closed gs i ≡ closed hs i) (ids_in_group w)
        → closed_at gs (closed_group es w) k ≡ closed_at hs (closed_group fs w) k }
{}

/// A group of the table gs, with ids of the table hs in place of its own, has the same closed forms over hs, where each id
/// has the closed form of the one in whose place it stands. Its types have them once it is interned there.
#[tactic(auto, using(crate::proofs::Moving::moved_closed, crate::proofs::Interning::moved_interned))]
pub fn a_group_has_one_closed_form_in_each_table()
    ensures group { (f : ℕ → ℕ) (gs hs : List Group) (g : Group) (k : ℕ) → All (λ i. closed hs (f i) ≡ closed gs i) (ids_in_group g) → closed_at hs (moved_group f g) k ≡ closed_at gs g k }
    ensures interned { (gs hs : List Group) (f : ℕ → ℕ) (g : Group) (k : ℕ) → IsTable hs → All (λ i. closed hs (f i) ≡ closed gs i) (ids_in_group g) → IsClosed (total hs) (moved_group f g)
        → k < length g → closed (with_group hs (moved_group f g)) (first_id hs (moved_group f g) + k) ≡ closed_at gs g k }
{}
