// The line of a core module.
ghost use Rattle.std.specs.Prelude.{◌≡◌, ◌++◌, [], map, codes, string_bytes, Option, OnOk};
ghost use Rattle.std.specs.Fmt.{decimal};
ghost use Rattle.wcv_types.specs.CoreText.{greatest_text, item_text, mark_text};
ghost use Rattle.wcv_types.specs.Quoting.{listed};
ghost use Rattle.wcv_text.specs.EntryList.{core_import_said, core_export_said, module_said};
ghost use Rattle.wcv_text.specs.Mentions.{comma};
ghost use Rattle.wcv_text.specs.Numbers.{Appends};

use crate::core_line::{mark, push_id, push_ref, push_val};
use crate::mentions::comma_at;
use crate::numbers::Numbers;
use crate::quoting::push_label;
use std::alloc::AllocError;
use std::fmt::Write;
use wcv_core::{EntityType, GlobalType, MemoryType, TableType, Text};
use wcv_types::{ExportMap, ImportMap, ModuleType};

/// Appends the greatest number, where there is one.
fn push_greatest(text: &mut String, greatest: Option<u64>) -> Result<(), AllocError>
    ensures { OnOk result (string_bytes text.new ≡ string_bytes text.old ++ greatest_text greatest) }
{
    match greatest {
        None => text.push_str("-"),
        Some(greatest) => write!(text, "{greatest}"),
    }
}

/// Appends the least number behind a word, and the greatest, where there is one.
fn push_limits(
    text: &mut String,
    before: &str,
    least: u64,
    greatest: Option<u64>,
) -> Result<(), AllocError>
    ensures { OnOk result (string_bytes text.new ≡ string_bytes text.old ++ (before.now ++ decimal least ++ codes " " ++ greatest_text greatest)) }
{
    write!(text, "{before}{least} ")?;
    push_greatest(text, greatest)
}

/// Appends a mark, and that of what is shared, where that is so.
fn push_marks(text: &mut String, first: &str, shared: bool) -> Result<(), AllocError>
    ensures { OnOk result (string_bytes text.new ≡ string_bytes text.old ++ (first.now ++ mark_text shared (codes " shared"))) }
{
    text.push_str(first)?;
    text.push_str(mark(shared, " shared"))
}

/// Appends a table type.
fn push_table(text: &mut String, numbers: &Numbers<'_>, ty: TableType) -> Result<(), AllocError>
    ensures { OnOk result (Appends numbers.now (string_bytes text.old) (string_bytes text.new) (λ w. item_text w.core w.groups (EntityType.Table ty))) }
{
    text.push_str("table ")?;
    push_ref(text, numbers, ty.element_type)?;
    push_limits(text, " ", ty.initial, ty.maximum)?;
    push_marks(text, mark(ty.table64, " 64"), ty.shared)
}

/// Appends a memory type.
fn push_memory(text: &mut String, ty: MemoryType) -> Result<(), AllocError>
    ensures { OnOk result (string_bytes text.new ≡ string_bytes text.old ++ item_text [] [] (EntityType.Memory ty)) }
{
    push_limits(text, "memory ", ty.initial, ty.maximum)?;
    write!(text, " page {}", ty.page_size_log2)?;
    push_marks(text, mark(ty.memory64, " 64"), ty.shared)
}

/// Appends a global type.
fn push_global(text: &mut String, numbers: &Numbers<'_>, ty: GlobalType) -> Result<(), AllocError>
    ensures { OnOk result (Appends numbers.now (string_bytes text.old) (string_bytes text.new) (λ w. item_text w.core w.groups (EntityType.Global ty))) }
{
    text.push_str("global ")?;
    push_val(text, numbers, ty.content_type)?;
    push_marks(text, mark(ty.mutable, " mut"), ty.shared)
}

/// Appends what a core module imports or exports.
fn push_item(text: &mut String, numbers: &Numbers<'_>, item: EntityType) -> Result<(), AllocError>
    ensures { OnOk result (Appends numbers.now (string_bytes text.old) (string_bytes text.new) (λ w. item_text w.core w.groups item)) }
{
    match item {
        EntityType::Func(id) => {
            text.push_str("func ")?;
            push_id(text, numbers, id)
        }
        EntityType::Tag(id) => {
            text.push_str("tag ")?;
            push_id(text, numbers, id)
        }
        EntityType::Table(ty) => push_table(text, numbers, ty),
        EntityType::Memory(ty) => push_memory(text, ty),
        EntityType::Global(ty) => push_global(text, numbers, ty),
    }
}

/// Appends an import.
fn push_import(
    text: &mut String,
    numbers: &Numbers<'_>,
    entry: &((Text, Text), EntityType),
) -> Result<(), AllocError>
    ensures { OnOk result (Appends numbers.now (string_bytes text.old) (string_bytes text.new) (λ w. core_import_said w entry.now)) }
{
    push_label(text, "import ", entry.0.0.as_str())?;
    push_label(text, "", entry.0.1.as_str())?;
    push_item(text, numbers, entry.1)
}

/// Appends an export.
fn push_export(
    text: &mut String,
    numbers: &Numbers<'_>,
    entry: &(Text, EntityType),
) -> Result<(), AllocError>
    ensures { OnOk result (Appends numbers.now (string_bytes text.old) (string_bytes text.new) (λ w. core_export_said w entry.now)) }
{
    push_label(text, "export ", entry.0.as_str())?;
    push_item(text, numbers, entry.1)
}

/// Appends imports, behind a comma where that is so, with commas between them.
fn push_imports(
    text: &mut String,
    numbers: &Numbers<'_>,
    behind: bool,
    imports: &ImportMap,
) -> Result<(), AllocError>
    ensures { OnOk result (Appends numbers.now (string_bytes text.old) (string_bytes text.new) (λ w. listed (comma behind) (map (core_import_said w) imports.now))) }
{
    for k in 0..imports.len() {
        match imports.get_index(k) {
            Some(entry) => {
                text.push_str(comma_at(behind, k))?;
                push_import(text, numbers, entry)?;
            }
            None => unreachable!(),
        }
    }
    Ok(())
}

/// Appends exports in the same way.
fn push_exports(
    text: &mut String,
    numbers: &Numbers<'_>,
    behind: bool,
    exports: &ExportMap,
) -> Result<(), AllocError>
    ensures { OnOk result (Appends numbers.now (string_bytes text.old) (string_bytes text.new) (λ w. listed (comma behind) (map (core_export_said w) exports.now))) }
{
    for k in 0..exports.len() {
        match exports.get_index(k) {
            Some(entry) => {
                text.push_str(comma_at(behind, k))?;
                push_export(text, numbers, entry)?;
            }
            None => unreachable!(),
        }
    }
    Ok(())
}

/// Appends the form of a core module.
pub fn push_module(
    text: &mut String,
    numbers: &Numbers<'_>,
    shape: &ModuleType,
) -> Result<(), AllocError>
    ensures { OnOk result (Appends numbers.now (string_bytes text.old) (string_bytes text.new) (λ w. module_said w shape.now)) }
{
    text.push_str("module {")?;
    push_imports(text, numbers, false, &shape.imports)?;
    push_exports(text, numbers, shape.imports.len() > 0, &shape.exports)?;
    text.push_str("}")
}
