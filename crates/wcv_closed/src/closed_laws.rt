// Laws of the closed forms of a table's types.
ghost use Rattle.std.specs.Prelude.{◌≡◌, ◌<◌, ◌++◌, ℕ, List, length};
ghost use Rattle.wcv_core.specs.CoreForm.{Group};
ghost use Rattle.wcv_core.specs.CoreGroups.{total, IsValWithin};
ghost use Rattle.wcv_core.specs.CoreSizes.{IsEntityWithin};
ghost use Rattle.wcv_core.specs.declared.core_types.EntityType.{EntityType};
ghost use Rattle.wcv_core.specs.declared.core_types.ValType.{ValType};
ghost use Rattle.wcv_closed.specs.ClosedTable.{IsTable};
ghost use Rattle.wcv_closed.specs.ClosedType.{all_closed, closed};
ghost use Rattle.wcv_closed.specs.ClosedValue.{closed_item, closed_val};

/// Groups that come behind change no closed form of those before: of types, of value types, and of what core
/// modules import and export.
#[tactic(auto, using(crate::proofs::Unfolding::closed_stays, crate::proofs::Telling::val_stays, crate::proofs::Telling::item_stays))]
pub fn groups_behind_change_no_closed_form()
    ensures types { (gs hs : List Group) (i : ℕ) → i < total gs → closed (gs ++ hs) i ≡ closed gs i }
    ensures values { (gs hs : List Group) (a : ValType) → IsValWithin (total gs) 0 a → closed_val (gs ++ hs) a ≡ closed_val gs a }
    ensures items { (gs hs : List Group) (e : EntityType) → IsEntityWithin (total gs) e → closed_item (gs ++ hs) e ≡ closed_item gs e }
{}

/// There are as many closed forms as types.
#[tactic(auto, using(crate::proofs::Unfolding::count))]
pub fn one_closed_form_for_each_type()
    ensures { (gs : List Group) → length (all_closed gs) ≡ total gs }
{}

/// In one table equal closed forms are of one id. So with value types, and with what core modules import and export.
#[tactic(auto, using(crate::proofs::Unfolding::one_in_table, crate::proofs::Telling::vals_told, crate::proofs::Telling::items_told))]
pub fn equal_closed_forms_are_one()
    ensures types { (gs : List Group) (i j : ℕ) → IsTable gs → i < total gs → j < total gs → closed gs i ≡ closed gs j → i ≡ j }
    ensures values { (gs : List Group) (a b : ValType) → IsTable gs → IsValWithin (total gs) 0 a → IsValWithin (total gs) 0 b → closed_val gs a ≡ closed_val gs b → a ≡ b }
    ensures items { (gs : List Group) (a b : EntityType) → IsTable gs → IsEntityWithin (total gs) a → IsEntityWithin (total gs) b → closed_item gs a ≡ closed_item gs b → a ≡ b }
{}

/// Two types that two tables have are one by their ids in the one table where they are by those in the other.
#[tactic(auto, using(crate::proofs::Unfolding::one_in_both))]
pub fn two_tables_tell_the_same_types_apart()
    ensures { (gs hs : List Group) (i j k l : ℕ) → IsTable hs → k < total hs → l < total hs → closed gs i ≡ closed hs k → closed gs j ≡ closed hs l → i ≡ j → k ≡ l }
{}
