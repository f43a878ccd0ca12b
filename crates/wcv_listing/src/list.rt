// Arrays of things of one kind.
ghost use Rattle.std.specs.Prelude.{◌≡◌, IfOk, map, option_map};
ghost use Rattle.wcv_listing.specs.Fields.{array_of, named};
ghost use Rattle.wcv_listing.specs.Seen.{view};

use crate::node::Node;
use crate::value::{list_of, room_of};
use std::alloc::Global;
use wcv_core::OutOfMemory;

/// What a value can stand for.
pub trait FromValue: Drop {
    ghost use Rattle.std.specs.Prelude.{◌≡◌, Option, IfOk, option_map};
    ghost use Rattle.serde_json.specs.Data.{Data};
    ghost use Rattle.wcv_listing.specs.Seen.{view};

    // What contracts see of it: the thing itself, where an impl does not say otherwise.
    ghost Form: { Type 0 } = { Self };

    ghost seen: { Self → Form };

    // What data stand for.
    ghost meant: { Data → Option Form };

    /// The thing for which the value stands.
    fn from_value(alloc: Global, value: Node<'_, '_>) -> Result<Option<Self>, OutOfMemory>
        ensures { IfOk result (λ thing. option_map seen thing ≡ meant (view value.entry)) };
}

/// What the table has under that name.
pub fn named_in<T: Copy>(table: &[(&str, T)], name: &str) -> Option<T>
    ensures { result ≡ named (map (λ row. (row.0.now, row.1)) table.now) name.now }
{
    for (known, thing) in table {
        if name == *known {
            return Some(*thing);
        }
    }
    None
}

/// The list for which an array of such values stands.
pub fn read_list<T: FromValue>(
    alloc: Global,
    value: Node<'_, '_>,
) -> Result<Option<Vec<T>>, OutOfMemory>
    ensures { IfOk result (λ list. option_map (λ xs. map T.seen xs.items) list ≡ array_of T.meant (view value.entry)) }
{
    let Some(mut values) = list_of(value) else {
        return Ok(None);
    };
    let mut list = Vec::with_capacity(alloc, room_of(value))?;
    while let Some((item, rest)) = values.next() {
        match T::from_value(alloc, item)? {
            Some(thing) => list.push(thing)?,
            None => return Ok(None),
        }
        values = rest;
    }
    Ok(Some(list))
}
