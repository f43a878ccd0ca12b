// Options of canonical functions.
ghost use Rattle.std.specs.Prelude.{◌≡◌, IfOk, option_map, option_and_then, codes};
ghost use Rattle.serde_json.specs.Find.{get};
ghost use Rattle.wcv_listing.specs.Canons.{indexed_option, option_of};
ghost use Rattle.wcv_listing.specs.Fields.{array_of};
ghost use Rattle.wcv_listing.specs.Seen.{view};

use crate::list::{FromValue, named_in, read_list};
use crate::node::Node;
use crate::value::{index_of, member_at, sole_member, text_of};
use std::alloc::Global;
use wcv_core::OutOfMemory;
use wcv_syntax::CanonicalOption;

// An option with an index.
fn read_indexed_option(value: Node<'_, '_>) -> Option<CanonicalOption>
    ensures { result ≡ indexed_option (view value.entry) }
{
    let Some((key, body)) = sole_member(value) else {
        return None;
    };
    let Some(index) = index_of(body) else {
        return None;
    };
    match key {
        "memory" => Some(CanonicalOption::Memory(index)),
        "realloc" => Some(CanonicalOption::Realloc(index)),
        "post-return" => Some(CanonicalOption::PostReturn(index)),
        "callback" => Some(CanonicalOption::Callback(index)),
        "core-type" => Some(CanonicalOption::CoreType(index)),
        _ => None,
    }
}

impl FromValue for CanonicalOption {
    ghost seen = { λ option. option };

    ghost meant = { option_of };

    fn from_value(
        _alloc: Global,
        value: Node<'_, '_>,
    ) -> Result<Option<CanonicalOption>, OutOfMemory> {
        let Some(name) = text_of(value) else {
            return Ok(read_indexed_option(value));
        };
        Ok(named_in(
            &[
                ("utf8", CanonicalOption::UTF8),
                ("utf16", CanonicalOption::UTF16),
                ("latin1-utf16", CanonicalOption::CompactUTF16),
                ("async", CanonicalOption::Async),
                ("gc", CanonicalOption::Gc),
            ],
            name,
        ))
    }
}

/// The options under `options`.
pub fn options_at(
    alloc: Global,
    value: Node<'_, '_>,
) -> Result<Option<Vec<CanonicalOption>>, OutOfMemory>
    ensures { IfOk result (λ options. option_map (λ os. os.items) options ≡ option_and_then (array_of option_of) (get (codes "options") (view value.entry))) }
{
    match member_at(value, "options") {
        Some(options) => read_list(alloc, options),
        None => Ok(None),
    }
}
