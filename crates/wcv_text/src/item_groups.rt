// The lines of the core groups that core items name.
ghost use Rattle.std.specs.Prelude.{map, string_bytes, OnOk};
ghost use Rattle.wcv_types.specs.Standing.{Stands, kind_items};
ghost use Rattle.wcv_text.specs.EntryList.{write_items};
ghost use Rattle.wcv_text.specs.Nodes.{items_at};
ghost use Rattle.wcv_text.specs.Numbers.{Writes};

use crate::groups::push_groups;
use crate::numbers::Numbers;
use std::alloc::{AllocError, Global};
use wcv_types::{CoreInstanceTypeKind, ExportMap, ImportMap, Part, TypeAlloc};

/// Appends lines for the groups that imports name, where they have none yet.
fn push_imports(
    alloc: Global,
    text: &mut String,
    numbers: &mut Numbers<'_>,
    imports: &ImportMap,
) -> Result<(), AllocError>
    ensures { OnOk result (Writes numbers.old (string_bytes text.old) numbers.new (string_bytes text.new) (write_items (map (λ i. i.1) imports.now))) }
{
    for k in 0..imports.len() {
        match imports.get_index(k) {
            Some(entry) => push_groups(alloc, text, numbers, entry.1)?,
            None => unreachable!(),
        }
    }
    Ok(())
}

/// So for exports.
fn push_exports(
    alloc: Global,
    text: &mut String,
    numbers: &mut Numbers<'_>,
    exports: &ExportMap,
) -> Result<(), AllocError>
    ensures { OnOk result (Writes numbers.old (string_bytes text.old) numbers.new (string_bytes text.new) (write_items (map (λ e. e.1) exports.now))) }
{
    for k in 0..exports.len() {
        match exports.get_index(k) {
            Some(entry) => push_groups(alloc, text, numbers, entry.1)?,
            None => unreachable!(),
        }
    }
    Ok(())
}

/// So for what a core instance was made of. One that was made of a module names no groups of its own.
fn push_kind(
    alloc: Global,
    text: &mut String,
    numbers: &mut Numbers<'_>,
    made: &CoreInstanceTypeKind,
) -> Result<(), AllocError>
    ensures { OnOk result (Writes numbers.old (string_bytes text.old) numbers.new (string_bytes text.new) (write_items (kind_items made.now))) }
{
    match made {
        CoreInstanceTypeKind::Instantiated(_) => Ok(()),
        CoreInstanceTypeKind::Exports(exports) => push_exports(alloc, text, numbers, exports),
    }
}

/// So for the core items of a type.
pub fn push_items(
    text: &mut String,
    numbers: &mut Numbers<'_>,
    types: &TypeAlloc,
    part: Part,
) -> Result<(), AllocError>
    requires { Stands types.now part }
    ensures { OnOk result (Writes numbers.old (string_bytes text.old) numbers.new (string_bytes text.new) (write_items (items_at types.now part))) }
{
    let alloc = types.allocator();
    match part {
        Part::Module(id) => {
            let shape = types.get(id);
            push_imports(alloc, text, numbers, &shape.imports)?;
            push_exports(alloc, text, numbers, &shape.exports)
        }
        Part::CoreInstance(id) => push_kind(alloc, text, numbers, &types.get(id).kind),
        _ => Ok(()),
    }
}
