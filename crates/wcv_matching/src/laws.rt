// Laws of matching, over trees whose core types are of one table.
ghost use Rattle.std.specs.Prelude.{◌≡◌, ℕ, List, ◌++◌, map, Bool, true};
ghost use Rattle.std.specs.Bool.{Decides};
ghost use Rattle.wcv_core.specs.CoreForm.{Group};
ghost use Rattle.wcv_core.specs.Names.{Name, member};
ghost use Rattle.wcv_types.specs.Arena.{Arena};
ghost use Rattle.wcv_types.specs.Paths.{PathLeadsTo};
ghost use Rattle.wcv_types.specs.Rename.{rename};
ghost use Rattle.wcv_types.specs.Resources.{Admits, Free, substitute};
ghost use Rattle.wcv_types.specs.Standing.{AllFit, Stands};
ghost use Rattle.wcv_types.specs.Tree.{Text, head, imported_at, imports};
ghost use Rattle.wcv_types.specs.Unfold.{Type_tree, tree_at};
ghost use Rattle.wcv_types.specs.declared.ids.Part.{Part};
ghost use Rattle.wcv_closed.specs.ClosedMatching.{SupersKeepForm};
ghost use Rattle.wcv_closed.specs.ClosedTable.{IsTable};
ghost use Rattle.wcv_matching.specs.AtomTests.{id_tests};
ghost use Rattle.wcv_matching.specs.Formed.{Formed, HeightByIdentity};
ghost use Rattle.wcv_matching.specs.IdTests.{tests_by_ids};
ghost use Rattle.wcv_matching.specs.Matching.{Matches, OpensImports};
ghost use Rattle.wcv_matching.specs.ModuleItems.{ItemsMatch};
ghost use Rattle.wcv_matching.specs.OnePass.{AreRight, Seen_tree, Tests, argument_for, opens_pass, passes_match, passes_same};
ghost use Rattle.wcv_matching.specs.Orderly.{AllNamesDiffer, EachNode, EachOrderly, Orderly, height};
ghost use Rattle.wcv_matching.specs.TableMatching.{ByIds, CoreWithin, EachCoreWithin, MatchesByOnce, ModulesMatchThemselves, Opens, SameTypes, TypeMatches};

/// Each type whose names differ matches itself.
pub fn a_type_matches_itself()
    ensures { (gs : List Group) (t : Type_tree) → AllNamesDiffer t → ModulesMatchThemselves gs t → TypeMatches gs t t }
{}

/// Matching goes on from one type to the next.
pub fn matching_goes_on()
    ensures { (gs : List Group) (a b c : Type_tree) → IsTable gs → SupersKeepForm gs → TypeMatches gs a b → TypeMatches gs b c → TypeMatches gs a c }
{}

/// Replacing of free resources keeps matching, whether or not two of them become one. Where each can be taken back, what does not match
/// does not match afterwards.
pub fn replacing_keeps_matching()
    ensures to { (gs : List Group) (u : Name → Name) (a b : Type_tree) → Admits u a → Admits u b → TypeMatches gs a b → TypeMatches gs (substitute u a) (substitute u b) }
    ensures back { (gs : List Group) (u v : Name → Name) (a b : Type_tree) → Admits u a → Admits u b → ((r : Name) → Free r a → v (u r) ≡ r) → ((r : Name) → Free r b → v (u r) ≡ r)
        → TypeMatches gs (substitute u a) (substitute u b) → TypeMatches gs a b }
{}

/// Renaming of all names, own resources and identities too, keeps matching and its failure, where resources have a way back.
pub fn renaming_keeps_matching()
    ensures to { (gs : List Group) (f g back : Name → Name) (a b : Type_tree) → ((r : Name) → back (f r) ≡ r) → TypeMatches gs a b → TypeMatches gs (rename f g a) (rename f g b) }
    ensures back { (gs : List Group) (f g back : Name → Name) (a b : Type_tree) → ((r : Name) → back (f r) ≡ r) → TypeMatches gs (rename f g a) (rename f g b) → TypeMatches gs a b }
{}

/// Arguments open the imports of a component under at most one substitution of the resources that it imports at a path.
pub fn at_most_one_substitution_opens()
    ensures { (gs : List Group) (p : List ℕ) (r : Name) (s t : Name → Name) (args : List (Text × Type_tree)) (c : Type_tree) → PathLeadsTo p r (imports c) → member r (imported_at (head c)) ≡ true
        → Opens gs s args c → Opens gs t args c → s r ≡ t r }
{}

/// Groups that join the table later change no matching of types whose core types are there already, and nothing of what opens a component.
pub fn groups_behind_change_no_matching()
    ensures to { (gs hs : List Group) (a b : Type_tree) → CoreWithin gs a → CoreWithin gs b → TypeMatches gs a b → TypeMatches (gs ++ hs) a b }
    ensures from { (gs hs : List Group) (a b : Type_tree) → CoreWithin gs a → CoreWithin gs b → TypeMatches (gs ++ hs) a b → TypeMatches gs a b }
    ensures opens { (gs hs : List Group) (s : Name → Name) (args : List (Text × Type_tree)) (c : Type_tree) → EachCoreWithin gs args → CoreWithin gs c → Opens gs s args c → Opens (gs ++ hs) s args c }
    ensures opened { (gs hs : List Group) (s : Name → Name) (args : List (Text × Type_tree)) (c : Type_tree) → EachCoreWithin gs args → CoreWithin gs c → Opens (gs ++ hs) s args c → Opens gs s args c }
{}

/// Matching is told by the ids of core types, where these are of the table.
pub fn matching_is_told_by_ids()
    ensures to { (gs : List Group) (a b : Type_tree) → IsTable gs → CoreWithin gs a → CoreWithin gs b → TypeMatches gs a b → Matches (ByIds gs) a b }
    ensures from { (gs : List Group) (a b : Type_tree) → IsTable gs → CoreWithin gs a → CoreWithin gs b → Matches (ByIds gs) a b → TypeMatches gs a b }
    ensures opens { (gs : List Group) (s : Name → Name) (args : List (Text × Type_tree)) (c : Type_tree) → IsTable gs → EachCoreWithin gs args → CoreWithin gs c → Opens gs s args c → OpensImports (ByIds gs) s args c }
    ensures opened { (gs : List Group) (s : Name → Name) (args : List (Text × Type_tree)) (c : Type_tree) → IsTable gs → EachCoreWithin gs args → CoreWithin gs c → OpensImports (ByIds gs) s args c → Opens gs s args c }
{}

/// Each type of an arena is orderly: inside it the names of imports and of exports differ, and the owned resources are led to. The core
/// types that are named inside it are of the arena's table.
pub fn what_the_types_of_an_arena_keep()
    ensures orderly { (a : Arena) (q : Part) → AllFit a → Stands a q → Orderly (tree_at a q) }
    ensures within { (a : Arena) (q : Part) → AllFit a → Stands a q → CoreWithin a.core (tree_at a q) }
{}

/// Types that are the same match each other, and orderly types that match each other are the same.
pub fn same_types_match_both_ways()
    ensures to { (gs : List Group) (a b : Type_tree) → SameTypes gs a b → TypeMatches gs a b × TypeMatches gs b a }
    ensures from { (gs : List Group) (a b : Type_tree) → Orderly a → Orderly b → TypeMatches gs a b → TypeMatches gs b a → SameTypes gs a b }
{}

/// Between orderly types, to match is to match where a type entry asks once whether the types are the same.
pub fn matching_asks_once()
    ensures to { (gs : List Group) (a b : Type_tree) → Orderly a → Orderly b → MatchesByOnce gs a b → TypeMatches gs a b }
    ensures from { (gs : List Group) (a b : Type_tree) → Orderly a → Orderly b → TypeMatches gs a b → MatchesByOnce gs a b }
{}

/// One pass decides matching of orderly types, and one decides whether they are the same.
pub fn one_pass_decides_matching()
    ensures matches { (gs : List Group) (test : Tests) (a b : Type_tree) → AreRight (ItemsMatch gs) test → Orderly a → Orderly b → Decides (passes_match test a b) (TypeMatches gs a b) }
    ensures same { (gs : List Group) (test : Tests) (a b : Type_tree) → AreRight (ItemsMatch gs) test → Orderly a → Orderly b → Decides (passes_same test a b) (SameTypes gs a b) }
{}

/// The pass over arguments and imports decides whether some substitution opens, and each that opens is the one that the recorded paths
/// find.
pub fn one_pass_decides_openings()
    ensures opens { (gs : List Group) (test : Tests) (args : List (Text × Type_tree)) (c : Type_tree) → AreRight (ItemsMatch gs) test → EachOrderly args → Orderly c → Decides (opens_pass test args c) ((s : Name → Name) × Opens gs s args c) }
    ensures found { (gs : List Group) (s : Name → Name) (args : List (Text × Type_tree)) (c : Type_tree) (r : Name) → Orderly c → Opens gs s args c → member r (imported_at (head c)) ≡ true → argument_for args c r ≡ s r }
    ensures finds { (gs : List Group) (s : Name → Name) (args : List (Text × Type_tree)) (c : Type_tree) → Orderly c → Opens gs s args c → Opens gs (argument_for args c) args c }
{}

/// Over a table whose core types both name, the pass may tell core modules by ids: of its tests the one of values alone has to be given.
pub fn one_pass_goes_by_ids()
    ensures matches { (gs : List Group) (same_seen : Seen_tree → Seen_tree → Bool) (a b : Type_tree) → ((s t : Seen_tree) → Decides (same_seen s t) (s ≡ t)) → IsTable gs → Orderly a → Orderly b → CoreWithin gs a → CoreWithin gs b
        → Decides (passes_match (tests_by_ids gs same_seen) a b) (TypeMatches gs a b) }
    ensures opens { (gs : List Group) (same_seen : Seen_tree → Seen_tree → Bool) (args : List (Text × Type_tree)) (c : Type_tree) → ((s t : Seen_tree) → Decides (same_seen s t) (s ≡ t)) → IsTable gs
        → EachOrderly args → Orderly c → EachCoreWithin gs args → CoreWithin gs c → Decides (opens_pass (tests_by_ids gs same_seen) args c) ((s : Name → Name) × Opens gs s args c) }
{}

/// The pass by ids is the same under a renaming of all names, where resources have a way back.
pub fn renaming_keeps_the_pass()
    ensures matches { (gs : List Group) (f g back : Name → Name) (a b : Type_tree) → ((r : Name) → back (f r) ≡ r) → passes_match (id_tests gs) (rename f g a) (rename f g b) ≡ passes_match (id_tests gs) a b }
    ensures opens { (gs : List Group) (f g back : Name → Name) (args : List (Text × Type_tree)) (c : Type_tree) → ((r : Name) → back (f r) ≡ r) → opens_pass (id_tests gs) (map (λ e. (e.0, rename f g e.1)) args) (rename f g c) ≡ opens_pass (id_tests gs) args c }
{}

/// The tests by ids are right over a table whose core types both name: the pass with them decides matching, and openings.
pub fn the_tests_by_ids_are_right()
    ensures matches { (gs : List Group) (a b : Type_tree) → IsTable gs → Orderly a → Orderly b → CoreWithin gs a → CoreWithin gs b → Decides (passes_match (id_tests gs) a b) (TypeMatches gs a b) }
    ensures opens { (gs : List Group) (args : List (Text × Type_tree)) (c : Type_tree) → IsTable gs → EachOrderly args → Orderly c → EachCoreWithin gs args → CoreWithin gs c → Decides (opens_pass (id_tests gs) args c) ((s : Name → Name) × Opens gs s args c) }
{}

/// Types that the pass finds the same are of one height, where names differ in them and they are formed.
pub fn same_types_have_one_height()
    ensures { (gs : List Group) (a b : Type_tree) → AllNamesDiffer a → AllNamesDiffer b → Formed a → Formed b → passes_same (id_tests gs) a b ≡ true → height a ≡ height b }
{}

/// Inside the types of an arena, nodes of one identity are of one height.
pub fn nodes_of_an_arena_are_of_one_height()
    ensures { (a : Arena) (q : Part) → AllFit a → Stands a q → EachNode (HeightByIdentity a) (tree_at a q) }
{}
