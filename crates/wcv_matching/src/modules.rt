// Whether one core module may stand where another is expected.
ghost use Rattle.std.specs.Prelude.{◌≡◌, All, Option, OnOk, IfOk, IfErr, IfSome, bytes_eq};
ghost use Rattle.wcv_core.specs.CoreGroups.{total};
ghost use Rattle.wcv_core.specs.CoreSizes.{IsEntityWithin};
ghost use Rattle.wcv_core.specs.Refusal.{error_kind, error_offset};
ghost use Rattle.wcv_types.specs.Standing.{Stands, core_items};
ghost use Rattle.wcv_types.specs.Unfold.{tree_at};
ghost use Rattle.wcv_types.specs.declared.arena.Node.TheVariants as n;
ghost use Rattle.wcv_types.specs.declared.ids.Part.TheVariants as p;
ghost use Rattle.wcv_closed.specs.CoreModules.{same_pair, ModuleMatches};
ghost use Rattle.wcv_closed.specs.Found.{EachFound};
ghost use Rattle.wcv_matching.specs.ByName.{held, held_pair};
ghost use Rattle.wcv_matching.specs.ModuleItems.{ItemsMatch, items_of, module_items};
ghost use Rattle.wcv_matching.specs.Refusals.{IsMismatch, MemoryOrMismatch};
ghost use Rattle.wcv_matching.specs.Standings.{FoundAs};

use crate::by_name::{exports_by_name, imports_by_pair};
use crate::core_items::item_matches;
use std::collections::BTreeMap;
use std::fmt;
use wcv_core::{CoreTypes, EntityType, Error, ErrorKind, Excerpt, Text};
use wcv_types::{ComponentCoreModuleTypeId, ExportMap, ImportMap, ModuleType, TypeAlloc};

/// What is looked for, as messages name it: an export, or an import from a module.
#[derive(Clone, Copy)]
pub(crate) enum Sought<'a> {
    Export(&'a str),
    Import(&'a str, &'a str),
    /// What the argument of the one name is to export under the other.
    Argument(&'a str, &'a str),
}

impl fmt::Display for Sought<'_> {
    fn fmt<W: fmt::Write>(&self, f: &mut fmt::Formatter<W>) -> fmt::Result {
        match self {
            Sought::Export(name) => write!(f, "core export `{}`", Excerpt(name)),
            Sought::Import(module, name) => write!(
                f,
                "core import `{}` of `{}`",
                Excerpt(name),
                Excerpt(module)
            ),
            Sought::Argument(argument, name) => write!(
                f,
                "argument `{}` for the core import `{}`",
                Excerpt(argument),
                Excerpt(name)
            ),
        }
    }
}

/// The refusal of what is not there, or is not as expected.
fn unfit(found: Option<EntityType>, expected: &EntityType, sought: Sought<'_>, offset: u64) -> Error
    ensures kind { error_kind result ≡ ErrorKind.Mismatch }
    ensures offset { error_offset result ≡ offset }
{
    match found {
        Some(found) => Error::told(
            ErrorKind::Mismatch,
            offset,
            format_args!("{sought}: expected {expected}, found {found}"),
        ),
        None => Error::told(
            ErrorKind::Mismatch,
            offset,
            format_args!("{sought}: expected {expected}, and there is none"),
        ),
    }
}

/// Whether what was found is there, and matches.
pub(crate) fn check_item(
    types: &CoreTypes,
    found: Option<EntityType>,
    expected: &EntityType,
    sought: Sought<'_>,
    offset: u64,
) -> Result<(), Error>
    requires found { IfSome found (IsEntityWithin (total types.now)) }
    requires expected { IsEntityWithin (total types.now) expected.now }
    ensures ok { OnOk result (FoundAs (ItemsMatch types.now) found expected.now) }
    ensures err { IfErr result (IsMismatch offset (FoundAs (ItemsMatch types.now) found expected.now)) }
{
    let _count = types.len();
    match found {
        Some(item) => {
            if item_matches(types, &item, expected) {
                Ok(())
            } else {
                Err(unfit(Some(item), expected, sought, offset))
            }
        }
        None => Err(unfit(None, expected, sought, offset)),
    }
}

/// Whether one of the items has the name of the export, and matches it.
fn check_export(
    types: &CoreTypes,
    items: &BTreeMap<&str, EntityType>,
    export: &(Text, EntityType),
    offset: u64,
) -> Result<(), Error>
    requires found { IfSome (held items.now export.now.0) (IsEntityWithin (total types.now)) }
    requires expected { IsEntityWithin (total types.now) export.now.1 }
    ensures ok { OnOk result (FoundAs (ItemsMatch types.now) (held items.now export.now.0) export.now.1) }
    ensures err { IfErr result (IsMismatch offset (FoundAs (ItemsMatch types.now) (held items.now export.now.0) export.now.1)) }
{
    let name = export.0.as_str();
    let found = items.get(name).copied();
    check_item(types, found, &export.1, Sought::Export(name), offset)
}

/// Whether one of the items has the names of the import, and matches it.
fn check_import<'a>(
    types: &CoreTypes,
    items: &BTreeMap<(&'a str, &'a str), EntityType>,
    import: &'a ((Text, Text), EntityType),
    offset: u64,
) -> Result<(), Error>
    requires found { IfSome (held_pair items.now import.now.0) (IsEntityWithin (total types.now)) }
    requires expected { IsEntityWithin (total types.now) import.now.1 }
    ensures ok { OnOk result (FoundAs (ItemsMatch types.now) (held_pair items.now import.now.0) import.now.1) }
    ensures err { IfErr result (IsMismatch offset (FoundAs (ItemsMatch types.now) (held_pair items.now import.now.0) import.now.1)) }
{
    let module = import.0.0.as_str();
    let name = import.0.1.as_str();
    let found = items.get(&(module, name)).copied();
    check_item(
        types,
        found,
        &import.1,
        Sought::Import(module, name),
        offset,
    )
}

/// Whether each of the exports on the right is one on the left, which matches it.
fn exports_match(types: &TypeAlloc, a: &ExportMap, b: &ExportMap, offset: u64) -> Result<(), Error>
    requires a { All (λ e. IsEntityWithin (total types.now.core) e.1) a.now }
    requires b { All (λ e. IsEntityWithin (total types.now.core) e.1) b.now }
    ensures ok { OnOk result (EachFound bytes_eq (ItemsMatch types.now.core) a.now b.now) }
    ensures err { IfErr result (MemoryOrMismatch offset (EachFound bytes_eq (ItemsMatch types.now.core) a.now b.now)) }
{
    let items = exports_by_name(types.allocator(), a)?;
    for k in 0..b.len() {
        if let Some(export) = b.get_index(k) {
            match check_export(types.core_types(), &items, export, offset) {
                Ok(()) => {}
                Err(err) => return Err(err),
            }
        }
    }
    Ok(())
}

/// Whether each of the imports on the left is one on the right, which matches it.
fn imports_match(types: &TypeAlloc, a: &ImportMap, b: &ImportMap, offset: u64) -> Result<(), Error>
    requires a { All (λ e. IsEntityWithin (total types.now.core) e.1) a.now }
    requires b { All (λ e. IsEntityWithin (total types.now.core) e.1) b.now }
    ensures ok { OnOk result (EachFound same_pair (ItemsMatch types.now.core) b.now a.now) }
    ensures err { IfErr result (MemoryOrMismatch offset (EachFound same_pair (ItemsMatch types.now.core) b.now a.now)) }
{
    let items = imports_by_pair(types.allocator(), b)?;
    for k in 0..a.len() {
        if let Some(import) = a.get_index(k) {
            match check_import(types.core_types(), &items, import, offset) {
                Ok(()) => {}
                Err(err) => return Err(err),
            }
        }
    }
    Ok(())
}

/// Whether each import of the one is an import of the other, which matches it, and each export of the other is one
/// of its own, which matches that.
pub fn shapes_match(
    types: &TypeAlloc,
    a: &ModuleType,
    b: &ModuleType,
    offset: u64,
) -> Result<(), Error>
    requires a { All (IsEntityWithin (total types.now.core)) (core_items (n.Module a.now)) }
    requires b { All (IsEntityWithin (total types.now.core)) (core_items (n.Module b.now)) }
    ensures ok { OnOk result (ModuleMatches (ItemsMatch types.now.core) (items_of a.now) (items_of b.now)) }
    ensures err { IfErr result (MemoryOrMismatch offset (ModuleMatches (ItemsMatch types.now.core) (items_of a.now) (items_of b.now))) }
{
    match imports_match(types, &a.imports, &b.imports, offset) {
        Ok(()) => {}
        Err(err) => return Err(err),
    }
    match exports_match(types, &a.exports, &b.exports, offset) {
        Ok(()) => Ok(()),
        Err(err) => Err(err),
    }
}

/// Whether one core module may stand where the other is expected.
pub fn module_type(
    types: &TypeAlloc,
    a: ComponentCoreModuleTypeId,
    b: ComponentCoreModuleTypeId,
    offset: u64,
) -> Result<(), Error>
    requires a { Stands types.now (p.Module a) }
    requires b { Stands types.now (p.Module b) }
    ensures ok { OnOk result (ModuleMatches (ItemsMatch types.now.core) (module_items (tree_at types.now (p.Module a))) (module_items (tree_at types.now (p.Module b)))) }
    ensures err { IfErr result (MemoryOrMismatch offset (ModuleMatches (ItemsMatch types.now.core) (module_items (tree_at types.now (p.Module a))) (module_items (tree_at types.now (p.Module b))))) }
{
    types.modules_within();
    shapes_match(types, types.get(a), types.get(b), offset)
}
