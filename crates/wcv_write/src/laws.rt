// What is written is read again.
ghost use Rattle.std.specs.Prelude.{◌≡◌, ℕ, ◌≤◌, List, Option, Some, option_map};
ghost use Rattle.json.specs.Tree.{HasNumbers};
ghost use Rattle.serde_json.specs.Data.{Data, depth};
ghost use Rattle.serde_json.specs.Read.{read, of_json, max_depth};
ghost use Rattle.serde_json.specs.Written.{outline, compact_text};
ghost use Rattle.wcv_core.specs.CoreForm.{Group};
ghost use Rattle.wcv_core.specs.declared.core_types.ValType.{ValType};
ghost use Rattle.wcv_core.specs.declared.features.WasmFeatures.{WasmFeatures};
ghost use Rattle.wcv_listing.specs.Aliases.{alias_of};
ghost use Rattle.wcv_listing.specs.Canons.{canon_of};
ghost use Rattle.wcv_listing.specs.Core.{core_value_of};
ghost use Rattle.wcv_listing.specs.CoreForms.{rec_of, entity_of, core_type_of, core_module_of, core_instance_of};
ghost use Rattle.wcv_listing.specs.Defined.{defined_of};
ghost use Rattle.wcv_listing.specs.Features.{features_in};
ghost use Rattle.wcv_listing.specs.Forms.{import_of, export_of, instance_of, start_of, func_of, resource_of, type_of};
ghost use Rattle.wcv_listing.specs.Listing.{listed, root_of, outcome_of};
ghost use Rattle.wcv_listing.specs.Values.{value_of, params_of};
ghost use Rattle.wcv_syntax.specs.Model.{Text, Module_decl, Core_type_form, Core_instance_form, Canon_form, Defined_form, Func_form, Type_form, Entry, Instance_form, resource_type, start_item};
ghost use Rattle.wcv_syntax.specs.declared.component_type.ComponentValType.{ComponentValType};
ghost use Rattle.wcv_syntax.specs.declared.core_section.TypeRef.{TypeRef};
ghost use Rattle.wcv_syntax.specs.declared.instance.ComponentAlias.{ComponentAlias};
ghost use Rattle.wcv_syntax.specs.declared.name.ComponentExport.{ComponentExport};
ghost use Rattle.wcv_syntax.specs.declared.name.ComponentImport.{ComponentImport};
ghost use Rattle.wcv_write.specs.Canons.{canon_data};
ghost use Rattle.wcv_write.specs.Core.{core_value_data};
ghost use Rattle.wcv_write.specs.CoreForms.{group_data, core_type_data, core_module_data, core_instance_data};
ghost use Rattle.wcv_write.specs.CoreItems.{entity_data};
ghost use Rattle.wcv_write.specs.Defined.{defined_data};
ghost use Rattle.wcv_write.specs.Externs.{import_data, export_data};
ghost use Rattle.wcv_write.specs.Indices.{numbers};
ghost use Rattle.wcv_write.specs.Items.{instance_data, start_data};
ghost use Rattle.wcv_write.specs.Json.{list_data};
ghost use Rattle.wcv_write.specs.Listing.{features_data, listing_data};
ghost use Rattle.wcv_write.specs.Sayable.{IsIndex, SaysValue, SaysCoreValue, SaysAlias, SaysAll, SaysMaybe, SaysParam, SaysDefined, SaysFunc, SaysRef, SaysExport, SaysInstance, SaysSub, SaysEntity, SaysOwnDecl, SaysCoreType, SaysCoreInstance, SaysCanon, SaysType, SaysEntry, IsReadable};
ghost use Rattle.wcv_write.specs.Sorts.{alias_data};
ghost use Rattle.wcv_write.specs.Types.{func_data, resource_data, type_data};
ghost use Rattle.wcv_write.specs.Values.{value_data, param_data};

/// The compact text of data is read as these data, where each number fits 64 bits, the keys of each
/// object are in order, and arrays and objects nest at most 127 deep.
pub fn data_are_read_again()
    ensures { (d : Data) → HasNumbers (outline d) → of_json (outline d) ≡ Some d → depth d ≤ max_depth → read (compact_text d) ≡ Some d }
{}

/// The data of a value type, with its index as a number, stand for that value type.
pub fn value_types_are_read_again()
    ensures { (v : ComponentValType) → SaysValue v → value_of (value_data numbers v) ≡ Some v }
{}

/// The data of a core value type stand for that type.
pub fn core_value_types_are_read_again()
    ensures { (v : ValType) → SaysCoreValue v → core_value_of (core_value_data v) ≡ Some v }
{}

/// The data of an alias, with its indices as numbers, stand for that alias.
pub fn aliases_are_read_again()
    ensures { (a : ComponentAlias) → SaysAlias a → alias_of (alias_data numbers a) ≡ Some a }
{}

/// The data of an import, with its indices as numbers, stand for that import.
pub fn imports_are_read_again()
    ensures { (i : ComponentImport) → SaysRef i.ty → import_of (import_data numbers i) ≡ Some i }
{}

/// The data of parameters or fields stand for these.
pub fn params_are_read_again()
    ensures { (ps : List (Text × ComponentValType)) → SaysAll SaysParam ps → params_of (list_data (param_data numbers) ps) ≡ Some ps }
{}

/// The data of a defined type stand for that type.
pub fn defined_types_are_read_again()
    ensures { (d : Defined_form) → SaysDefined d → defined_of (defined_data numbers d) ≡ Some d }
{}

/// The data of a function type stand for that type.
pub fn function_types_are_read_again()
    ensures { (f : Func_form) → SaysFunc f → func_of (func_data numbers f) ≡ Some f }
{}

/// The data of a resource type stand for that type.
pub fn resources_are_read_again()
    ensures { (rep : ValType) (dtor : Option ℕ) → SaysCoreValue rep → SaysMaybe IsIndex dtor → resource_of (resource_data numbers rep dtor) ≡ Some (resource_type rep dtor) }
{}

/// The data of an export stand for that export.
pub fn exports_are_read_again()
    ensures { (e : ComponentExport) → SaysExport e → export_of (export_data numbers e) ≡ Some e }
{}

/// The data of an instance stand for that instance.
pub fn instances_are_read_again()
    ensures { (i : Instance_form) → SaysInstance i → instance_of (instance_data numbers i) ≡ Some i }
{}

/// The data of the start of a function stand for that start.
pub fn starts_are_read_again()
    ensures { (f : ℕ) (args : List ℕ) (results : ℕ) → IsIndex f → SaysAll IsIndex args → IsIndex results → start_of (start_data numbers f args results) ≡ Some (start_item f args results) }
{}

/// The data of a group of core types stand for that group.
pub fn core_groups_are_read_again()
    ensures { (g : Group) → SaysAll SaysSub g → rec_of (group_data g) ≡ Some g }
{}

/// The data of what a core module imports or exports stand for that.
pub fn core_entities_are_read_again()
    ensures { (t : TypeRef) → SaysEntity t → entity_of (entity_data t) ≡ Some t }
{}

/// The data of a core type, a core module or a core instance stand for these.
pub fn core_items_are_read_again()
    ensures core_type { (t : Core_type_form) → SaysCoreType t → core_type_of (core_type_data t) ≡ Some t }
    ensures core_module { (ds : List Module_decl) → SaysAll SaysOwnDecl ds → core_module_of (core_module_data ds) ≡ Some ds }
    ensures core_instance { (i : Core_instance_form) → SaysCoreInstance i → core_instance_of (core_instance_data numbers i) ≡ Some i }
{}

/// The data of a canonical function stand for that function.
pub fn canonical_functions_are_read_again()
    ensures { (f : Canon_form) → SaysCanon f → canon_of (canon_data numbers f) ≡ Some f }
{}

/// The data of a type stand for that type.
pub fn types_are_read_again()
    ensures { (t : Type_form) → SaysType t 126 → type_of (type_data numbers t) ≡ Some t }
{}

/// The data of a listing of version 1, with indices as numbers, stand for its items, each at its offset, and for its
/// features.
pub fn listings_are_read_again()
    ensures { (fs : Option WasmFeatures) (features : WasmFeatures) (es : List Entry) (end : ℕ) → features_in (option_map features_data fs) ≡ Some features → SaysAll SaysEntry es → root_of (listing_data numbers fs es end) ≡ listed (record { features = features; entries = es; end = end }) }
{}

/// The compact text of such a listing reads as these items and features, where it can be read.
pub fn listing_texts_are_read_again()
    ensures { (fs : Option WasmFeatures) (features : WasmFeatures) (es : List Entry) (end : ℕ) → features_in (option_map features_data fs) ≡ Some features → SaysAll SaysEntry es → IsReadable (listing_data numbers fs es end) → outcome_of (compact_text (listing_data numbers fs es end)) ≡ listed (record { features = features; entries = es; end = end }) }
{}
