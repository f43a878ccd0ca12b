// Whether the names of entries stand among those of others.
ghost use Rattle.std.specs.Prelude.{◌≡◌, bytes_eq, cond, is_some, true, IfOk};
ghost use Rattle.std.specs.List.{list_all};
ghost use Rattle.std.specs.Map.{lookup};

use std::alloc::Global;
use wcv_core::OutOfMemory;
use wcv_types::{ByName, ComponentItem, ItemMap};

/// Whether each of the names of the one list stands in the other, which is by its names.
fn all_named(a: &ItemMap, b: &ByName<'_, ComponentItem>) -> bool
    ensures { result ≡ list_all (λ e. is_some (lookup (bytes_eq e.0) b.now)) a.now }
{
    for k in 0..a.len() {
        if let Some(entry) = a.get_index(k) {
            if b.get(&entry.0).is_none() {
                return false;
            }
        }
    }
    true
}

/// Whether each of the names of the one list stands in the other.
fn names_among(alloc: Global, a: &ItemMap, b: &ItemMap) -> Result<bool, OutOfMemory>
    ensures { IfOk result (λ among. among ≡ list_all (λ e. is_some (lookup (bytes_eq e.0) b.now)) a.now) }
{
    let by_name = b.by_name(alloc)?;
    let among = all_named(a, &by_name);
    drop(by_name);
    Ok(among)
}

/// Whether the names of the one list stand in the other, where that is asked.
pub fn names_fit(alloc: Global, exact: bool, a: &ItemMap, b: &ItemMap) -> Result<bool, OutOfMemory>
    ensures { IfOk result (λ fit. fit ≡ cond exact (list_all (λ e. is_some (lookup (bytes_eq e.0) b.now)) a.now) true) }
{
    if exact {
        names_among(alloc, a, b)
    } else {
        Ok(true)
    }
}
