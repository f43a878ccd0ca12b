// Maps from the names of a list to what stands under them. Of a name that stands twice the first counts.
ghost use Rattle.std.specs.Prelude.{◌≡◌, bytes_eq, IfOk};
ghost use Rattle.std.specs.Map.{lookup};
ghost use Rattle.wcv_closed.specs.CoreModules.{same_pair};
ghost use Rattle.wcv_matching.specs.ByName.{held, held_pair};
ghost use Rattle.wcv_types.specs.Tree.{Text};

use std::alloc::Global;
use std::collections::BTreeMap;
use wcv_core::{EntityType, OutOfMemory};
use wcv_types::{ExportMap, ImportMap};

/// What a core module exports, by name.
pub fn exports_by_name<'a>(
    alloc: Global,
    exports: &'a ExportMap,
) -> Result<BTreeMap<&'a str, EntityType>, OutOfMemory>
    ensures { IfOk result (λ m. (q : Text) → held m q ≡ lookup (bytes_eq q) exports.now) }
{
    let mut items = BTreeMap::new(alloc);
    let mut left = exports.len();
    while left > 0 {
        left -= 1;
        if let Some(entry) = exports.get_index(left) {
            items.insert(entry.0.as_str(), entry.1)?;
        }
    }
    Ok(items)
}

/// What a core module imports, by the names of a module and of an item in it.
pub fn imports_by_pair<'a>(
    alloc: Global,
    imports: &'a ImportMap,
) -> Result<BTreeMap<(&'a str, &'a str), EntityType>, OutOfMemory>
    ensures { IfOk result (λ m. (q : Text × Text) → held_pair m q ≡ lookup (same_pair q) imports.now) }
{
    let mut items = BTreeMap::new(alloc);
    let mut left = imports.len();
    while left > 0 {
        left -= 1;
        if let Some(entry) = imports.get_index(left) {
            items.insert((entry.0.0.as_str(), entry.0.1.as_str()), entry.1)?;
        }
    }
    Ok(items)
}
