// Laws of calls on a module, over the definitions alone.
ghost use Rattle.std.specs.Option.{option_map};
ghost use Rattle.std.specs.Prelude.{◌≡◌, ℕ, List, [], Some};
ghost use Rattle.wcv_core.specs.CoreForm.{Group};
ghost use Rattle.wcv_core.specs.Names.{Place};
ghost use Rattle.wcv_core.specs.declared.core_types.EntityType.{EntityType};
ghost use Rattle.wcv_core.specs.declared.features.WasmFeatures.{WasmFeatures};
ghost use Rattle.wcv_syntax.specs.CoreItems.{ref_checks, entity_of};
ghost use Rattle.wcv_syntax.specs.Model.{Text, Module_decl, module_type, module_import, module_export, module_outer, core_module_item};
ghost use Rattle.wcv_syntax.specs.ModuleTypes.{Module_type, empty_module, with_type, with_import, with_export, with_group_of, aliased, declared, decl_checks, export_checks, whole_checks};
ghost use Rattle.wcv_syntax.specs.declared.core_section.Import.{Import};
ghost use Rattle.wcv_syntax.specs.declared.core_section.TypeRef.{TypeRef};
ghost use Rattle.wcv_types.specs.Arena.{Arena};
ghost use Rattle.wcv_types.specs.CoreCalls.{with_core};
ghost use Rattle.wcv_types.specs.Standing.{Extends};
ghost use Rattle.wcv_lower.specs.Checks.{IsFree};
ghost use Rattle.wcv_lower.specs.Context.{core_modules};
ghost use Rattle.wcv_lower.specs.CoreItems.{core_module_made};
ghost use Rattle.wcv_lower.specs.Trees.{Tree_context, Tree_stack};
ghost use Rattle.wcv_spaces.specs.Contents.{Contents, StateStands};
ghost use Rattle.wcv_spaces.specs.Promises.{Grew};
ghost use Rattle.wcv_decls.specs.CoreItems.{JoinedModule};
ghost use Rattle.wcv_link.specs.Modules.{DeclaresEach};

/// What a call of `Module` says is what its declaration makes: `add_types`, `add_import`, `check_type_ref` and then
/// `add_export`, `add_alias_type`.
pub fn a_call_on_a_module_is_its_declaration()
    ensures types { (gs hs : List Group) (m n : Module_type) (g : Group) → (hs, n) ≡ with_group_of gs m g → declared [] gs m (module_type g) ≡ Some (hs, n) }
    ensures imports { (gs : List Group) (m n : Module_type) (i : Import) → option_map (with_import gs m (i.module, i.name)) (entity_of m.types i.ty) ≡ Some n → declared [] gs m (module_import i) ≡ Some (gs, n) }
    ensures exports { (gs : List Group) (m n : Module_type) (name : Text) (t : TypeRef) (e : EntityType) → entity_of m.types t ≡ Some e → n ≡ with_export gs m name e → declared [] gs m (module_export name t) ≡ Some (gs, n) }
    ensures exports_free { (gs : List Group) (m : Module_type) (name : Text) (t : TypeRef) (e : EntityType) → entity_of m.types t ≡ Some e → IsFree (ref_checks m.features gs m.types t) → IsFree (export_checks gs m name e) → IsFree (decl_checks [] gs m (module_export name t)) }
    ensures aliases { (gs : List Group) (m n : Module_type) (k i j : ℕ) → aliased [] m k i ≡ Some j → n ≡ with_type m j → declared [] gs m (module_outer k i) ≡ Some (gs, n) }
{}

/// Calls on a module, one for each declaration, make what a core module item makes (`made`), and behind them
/// `add_core_module` does to a state what that item does (`grew`): here the arena was a before the first call, b
/// behind the last of them, and c at the end.
pub fn calls_on_a_module_are_its_item()
    ensures made { (f : WasmFeatures) (s : Tree_stack) (ds : List Module_decl) (hs : List Group) (m : Module_type) → DeclaresEach s.groups (empty_module f) ds hs m → IsFree (whole_checks m) → core_module_made f s ds ≡ Some (hs, m) }
    ensures grew { (a b c : Arena) (s s' : Contents) (ds : List Module_decl) (m : Module_type) → StateStands a s → b ≡ with_core a b.core → Extends a b → DeclaresEach a.core (empty_module s.features) ds b.core m → JoinedModule core_modules b c s s' m → IsFree (whole_checks m) → (outer : List Tree_context) (p : Place) → Grew a c outer p s s' (core_module_item ds) }
{}
