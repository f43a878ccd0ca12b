// Laws of validity, over the definitions alone.
ghost use Rattle.std.specs.Prelude.{◌≡◌, ◌⊎◌, ℕ, Some, All, map, true, false};
ghost use Rattle.wcv_core.specs.Names.{Name, Place, at, same_place, member};
ghost use Rattle.wcv_core.specs.declared.error.ErrorKind.{ErrorKind};
ghost use Rattle.wcv_core.specs.declared.features.WasmFeatures.{WasmFeatures};
ghost use Rattle.wcv_syntax.specs.Model.{Items};
ghost use Rattle.wcv_types.specs.Resources.{is_free};
ghost use Rattle.wcv_types.specs.Tree.{firsts, owned};
ghost use Rattle.wcv_lower.specs.Ending.{type_at_end};
ghost use Rattle.wcv_lower.specs.Names.{names_by_place};
ghost use Rattle.wcv_lower.specs.NewTypes.{instance_tree, instance_resources};
ghost use Rattle.wcv_lower.specs.Trees.{Type_tree, Tree_stack, node_tree};
ghost use Rattle.wcv_growth.specs.Listed.{ListsResources};
ghost use Rattle.wcv_growth.specs.Nested.{nested_types};
ghost use Rattle.wcv_growth.specs.Valid.{ValidTo, Refused};

/// Every list of items of a root is valid or refused, and never both. A valid one leads to one stack;
/// a refused one has one place of refusal.
pub fn each_root_has_one_answer()
    ensures some { (f : WasmFeatures) (is : Items) (end : ℕ) → ((d : Tree_stack) × ValidTo f is d) ⊎ ((kind : ErrorKind) × (offset : ℕ) × Refused f is end kind offset) }
    ensures not_both { (f : WasmFeatures) (is : Items) (end : ℕ) (d : Tree_stack) (kind : ErrorKind) (offset : ℕ) → ValidTo f is d → Refused f is end kind offset → ⊥ }
    ensures one_context { (f : WasmFeatures) (is : Items) (d other : Tree_stack) → ValidTo f is d → ValidTo f is other → d ≡ other }
    ensures one_place { (f : WasmFeatures) (is : Items) (end : ℕ) (kind kind' : ErrorKind) (offset offset' : ℕ) → Refused f is end kind offset → Refused f is end kind' offset' → offset ≡ offset' }
{}

/// The type of a valid root, and that of each component inside it, lists each resource that is free in its
/// imports or its exports: as imported or as defined, never as both, at a path that leads to it.
pub fn each_free_resource_is_listed()
    ensures root { (f : WasmFeatures) (is : Items) (d : Tree_stack) (i : Name) (t : Type_tree) → ValidTo f is d → type_at_end (node_tree i) d.top ≡ Some t → ListsResources t }
    ensures nested { (f : WasmFeatures) (is : Items) (d : Tree_stack) → ValidTo f is d → All (λ (x : Place × Type_tree). ListsResources x.1) (nested_types f is) }
{}

/// Importing one instance type twice introduces different resources for those that it owns: each is made at the
/// place of its import (`made`), and none is introduced at two places, whatever the types there are (`apart`).
/// A resource that the type does not own, and that the import does not introduce, is free in the instance
/// exactly where it is free in the type, so it stays shared (`shared`).
pub fn each_instance_has_its_own_resources()
    ensures made { (p : Place) (t : Type_tree) → firsts (instance_resources names_by_place p t) ≡ map (at p) (owned t) }
    ensures apart { (p q : Place) (t u : Type_tree) (r : Name) → same_place p q ≡ false → member r (firsts (instance_resources names_by_place p t)) ≡ true → member r (firsts (instance_resources names_by_place q u)) ≡ false }
    ensures shared { (p : Place) (t : Type_tree) (r : Name) → member r (owned t) ≡ false → member r (firsts (instance_resources names_by_place p t)) ≡ false → is_free r (instance_tree names_by_place p t) ≡ is_free r t }
{}
