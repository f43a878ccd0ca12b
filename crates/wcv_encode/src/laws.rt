// What is written of a part of an item is read again, whatever follows it.
ghost use Rattle.std.specs.Prelude.{◌≡◌, ℕ, ◌+◌, ◌≤◌, List, length, Some, Ok};
ghost use Rattle.wcv_binary.specs.Aliases.{alias_at};
ghost use Rattle.wcv_binary.specs.Binary.{binary_of};
ghost use Rattle.wcv_binary.specs.Canons.{canon_at};
ghost use Rattle.wcv_binary.specs.Components.{max_nesting};
ghost use Rattle.wcv_binary.specs.CoreInstances.{core_instance_at};
ghost use Rattle.wcv_binary.specs.CoreTypes.{group_at};
ghost use Rattle.wcv_binary.specs.CoreValues.{core_val_at, field_at};
ghost use Rattle.wcv_binary.specs.Defined.{defined_at};
ghost use Rattle.wcv_binary.specs.Entities.{table_type_at, memory_type_at, global_type_at, entity_at, core_import_at, module_import_at};
ghost use Rattle.wcv_binary.specs.Funcs.{func_at};
ghost use Rattle.wcv_binary.specs.Modules.{core_module_at};
ghost use Rattle.wcv_binary.specs.ModuleTypes.{module_decl_at, core_type_at};
ghost use Rattle.wcv_binary.specs.Names.{import_at, export_at, instance_at};
ghost use Rattle.wcv_bytes.specs.Reading.{u32_at, u64_at, index_at, text_at};
ghost use Rattle.wcv_bytes.specs.Sections.{max_kept};
ghost use Rattle.wcv_binary.specs.Types.{type_over, type_within};
ghost use Rattle.wcv_encode.specs.Bytes.{◌⧺◌, u32_bytes, u64_bytes, s33_bytes, text, vec};
ghost use Rattle.wcv_encode.specs.Canons.{canon_bytes};
ghost use Rattle.wcv_encode.specs.CoreTypes.{val_bytes, field_bytes, table_bytes, memory_bytes, global_bytes, group_bytes};
ghost use Rattle.wcv_encode.specs.Entries.{import_bytes, export_bytes, alias_bytes, core_instance_bytes, instance_bytes};
ghost use Rattle.wcv_encode.specs.Modules.{entity_bytes, core_import_bytes, module_decl_bytes, core_type_bytes, module_bytes};
ghost use Rattle.wcv_encode.specs.Kept.{module_more, kept};
ghost use Rattle.wcv_encode.specs.Nesting.{type_nesting, nesting};
ghost use Rattle.wcv_encode.specs.Placed.{placed};
ghost use Rattle.wcv_encode.specs.Spelling.{spelling};
ghost use Rattle.wcv_encode.specs.Types.{type_bytes};
ghost use Rattle.wcv_encode.specs.Laws.{Reads, IsReadAgain};
ghost use Rattle.wcv_encode.specs.Values.{defined_bytes, field_of, result_bytes};
ghost use Rattle.wcv_syntax.specs.Model.{Func_form, Type_form, Module_decl, Entry};

/// Numbers and texts are read again, whatever follows.
pub fn numbers_and_texts_are_read_again()
    ensures u32 { IsReadAgain u32_at u32_bytes }
    ensures u64 { IsReadAgain u64_at u64_bytes }
    ensures s33 { IsReadAgain index_at s33_bytes }
    ensures text { IsReadAgain text_at text }
{}

/// Defined types and function types are read again, whatever follows.
pub fn value_types_are_read_again()
    ensures defined { IsReadAgain defined_at defined_bytes }
    ensures func { (f : Func_form) → Reads (func_at f.async) (vec field_of f.params ⧺ result_bytes f.result) f }
{}

/// Imports, exports, aliases and instances are read again, whatever follows.
pub fn entries_are_read_again()
    ensures import { IsReadAgain import_at import_bytes }
    ensures export { IsReadAgain export_at export_bytes }
    ensures alias { IsReadAgain alias_at alias_bytes }
    ensures instance { IsReadAgain instance_at instance_bytes }
    ensures core_instance { IsReadAgain core_instance_at core_instance_bytes }
{}

/// What core modules import and export is read again, whatever follows.
pub fn core_entities_are_read_again()
    ensures table { IsReadAgain table_type_at table_bytes }
    ensures memory { IsReadAgain memory_type_at memory_bytes }
    ensures global { IsReadAgain global_type_at global_bytes }
    ensures entity { IsReadAgain entity_at entity_bytes }
    ensures import { IsReadAgain core_import_at core_import_bytes }
    ensures module_import { IsReadAgain module_import_at core_import_bytes }
{}

/// Core value types, fields and canonical functions are read again, whatever follows.
pub fn canonical_functions_are_read_again()
    ensures value { IsReadAgain core_val_at val_bytes }
    ensures field { IsReadAgain field_at field_bytes }
    ensures canon { IsReadAgain canon_at canon_bytes }
{}

/// Core types and their groups, declarations of module types and core type items are read again, whatever follows.
pub fn core_types_are_read_again()
    ensures group { IsReadAgain group_at group_bytes }
    ensures declaration { IsReadAgain module_decl_at module_decl_bytes }
    ensures item { IsReadAgain core_type_at core_type_bytes }
{}

/// Types are read again, whatever follows, where declared types stand no deeper in them than the reader goes.
pub fn types_are_read_again()
    ensures { (t : Type_form) (depth : ℕ) → type_nesting t ≤ depth → Reads (type_over (type_within depth)) (type_bytes t) t }
{}

/// Core modules are read again: what they declare, where as many bytes may be kept as were written, and as they count
/// for more.
pub fn core_modules_are_read_again()
    ensures { (ds : List Module_decl) (b : List ℕ) (end room : ℕ) → module_bytes ds ≡ Some b → length b + module_more ds ≤ room → (left : ℕ) × (core_module_at end room b ≡ Ok (ds, left)) × (room ≤ left + (length b + module_more ds)) }
{}

/// The bytes of items are a binary that stands for these items, each at the offset at which it is written, where the
/// items nest no deeper than the reader goes, and count for no more bytes than are kept.
pub fn spellings_are_read_again()
    ensures { (es : List Entry) (b : List ℕ) → spelling es ≡ Some b → nesting es ≤ max_nesting → kept es ≤ max_kept → binary_of b ≡ Ok (placed es, length b) }
{}

/// Where items stand has no bytes: of items at the places where they are written the same is written.
pub fn places_have_no_bytes()
    ensures { (es : List Entry) → spelling (placed es) ≡ spelling es }
{}
