// Laws of type trees whose core types are in closed form.
ghost use Rattle.std.specs.Prelude.{◌≡◌, ◌++◌, List};
ghost use Rattle.wcv_core.specs.CoreForm.{Group};
ghost use Rattle.wcv_core.specs.CoreGroups.{total};
ghost use Rattle.wcv_core.specs.Names.{Name};
ghost use Rattle.wcv_types.specs.Rename.{UpToRenaming};
ghost use Rattle.wcv_types.specs.Tree.{Tree};
ghost use Rattle.wcv_closed.specs.ClosedTable.{IsTable};
ghost use Rattle.wcv_closed.specs.ClosedTree.{closed_tree, IsTreeWithin, UpToRenamingOver};

/// Groups that come behind change no closed tree.
#[tactic(auto, using(crate::proofs::ClosedTrees::tree_stays))]
pub fn groups_behind_change_no_closed_tree()
    ensures { (gs hs : List Group) (t : Tree Name Name) → IsTreeWithin (total gs) t → closed_tree (gs ++ hs) t ≡ closed_tree gs t }
{}

/// In one table trees with one closed form are one.
#[tactic(auto, using(crate::proofs::ClosedTrees::tree_told))]
pub fn equal_closed_trees_are_one()
    ensures { (gs : List Group) (s t : Tree Name Name) → IsTable gs → IsTreeWithin (total gs) s → IsTreeWithin (total gs) t → closed_tree gs s ≡ closed_tree gs t → s ≡ t }
{}

/// Trees over one table are equal up to renaming exactly where they are so in closed form.
#[tactic(auto, using(crate::proofs::ClosedTrees::over_one))]
pub fn renaming_over_one_table_is_renaming_by_ids()
    ensures from_ids { (gs : List Group) (s t : Tree Name Name) → UpToRenaming s t → UpToRenamingOver gs gs s t }
    ensures to_ids { (gs : List Group) (s t : Tree Name Name) → IsTable gs → IsTreeWithin (total gs) s → IsTreeWithin (total gs) t → UpToRenamingOver gs gs s t → UpToRenaming s t }
{}
