// Laws of matching of what core modules import and export.
ghost use Rattle.std.specs.Prelude.{List};
ghost use Rattle.wcv_core.specs.CoreForm.{Group};
ghost use Rattle.wcv_core.specs.CoreGroups.{total};
ghost use Rattle.wcv_core.specs.CoreSizes.{IsEntityWithin};
ghost use Rattle.wcv_core.specs.declared.core_types.EntityType.{EntityType};
ghost use Rattle.wcv_types.specs.Tree.{Text};
ghost use Rattle.wcv_closed.specs.ClosedItems.{ItemMatches, IsItemClosed, ItemKeepsForm};
ghost use Rattle.wcv_closed.specs.ClosedMatching.{SupersKeepForm};
ghost use Rattle.wcv_closed.specs.ClosedTable.{IsTable};
ghost use Rattle.wcv_closed.specs.ClosedType.{Closed};
ghost use Rattle.wcv_closed.specs.ClosedValue.{Item, closed_item};
ghost use Rattle.wcv_closed.specs.CoreModules.{AllServed, EachArgument, EachItem, ModuleMatches, Module_items, NamesDiffer};

/// Each item matches itself, and matching of items goes on from one to the next, where the declared supertypes of what the first
/// two hold have their form.
pub fn items_match_on()
    ensures itself { (a : Item Closed) → IsItemClosed a → ItemMatches a a }
    ensures on { (a b c : Item Closed) → ItemKeepsForm a → ItemKeepsForm b → ItemMatches a b → ItemMatches b c → ItemMatches a c }
{}

/// Items of a table are such that they match themselves, and that matching goes on.
#[tactic(auto, using(crate::proofs::ItemIds::item_closed, crate::proofs::ItemIds::item_keeps))]
pub fn items_of_a_table_keep_their_form()
    ensures closed { (gs : List Group) (e : EntityType) → IsTable gs → IsEntityWithin (total gs) e → IsItemClosed (closed_item gs e) }
    ensures keeps { (gs : List Group) (e : EntityType) → IsTable gs → SupersKeepForm gs → IsEntityWithin (total gs) e → ItemKeepsForm (closed_item gs e) }
{}

/// A module whose names differ matches itself, and matching of modules goes on from one to the next.
pub fn modules_match_on()
    ensures itself { (m : Module_items (Item Closed)) → NamesDiffer m → EachItem IsItemClosed m → ModuleMatches ItemMatches m m }
    ensures on { (a b c : Module_items (Item Closed)) → EachItem ItemKeepsForm a → EachItem ItemKeepsForm b → EachItem ItemKeepsForm c
        → ModuleMatches ItemMatches a b → ModuleMatches ItemMatches b c → ModuleMatches ItemMatches a c }
{}

/// Arguments that serve the imports of a module serve those of each module that matches it.
pub fn arguments_serve_each_module_that_matches()
    ensures { (args : List (Text × List (Text × Item Closed))) (a b : Module_items (Item Closed)) → EachArgument ItemKeepsForm args → EachItem ItemKeepsForm b
        → AllServed ItemMatches args b.imports → ModuleMatches ItemMatches a b → AllServed ItemMatches args a.imports }
{}
