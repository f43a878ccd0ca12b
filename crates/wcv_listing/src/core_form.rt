// The body of `core-type`.
ghost use Rattle.std.specs.Prelude.{◌≡◌, IfOk, option_map};
ghost use Rattle.wcv_listing.specs.CoreForms.{core_type_of};
ghost use Rattle.wcv_listing.specs.Keyed.{under, core_type_rows};
ghost use Rattle.wcv_listing.specs.Seen.{view};
ghost use Rattle.wcv_syntax.specs.View.{core_type_view};

use crate::list::read_list;
use crate::node::Node;
use crate::sub_type::read_rec;
use crate::value::sole_member;
use std::alloc::Global;
use wcv_core::OutOfMemory;
use wcv_syntax::CoreType;

// What stands under the only key of the body of `core-type`.
fn read_core_type_under(
    alloc: Global,
    key: &str,
    body: Node<'_, '_>,
) -> Result<Option<CoreType>, OutOfMemory>
    ensures { IfOk result (λ ty. option_map core_type_view ty ≡ under core_type_rows key.now (view body.entry)) }
{
    match key {
        "rec" => Ok(read_rec(alloc, body)?.map(CoreType::Rec)),
        "module" => Ok(read_list(alloc, body)?.map(CoreType::Module)),
        _ => Ok(None),
    }
}

/// The body of `core-type`.
pub fn read_core_type(alloc: Global, value: Node<'_, '_>) -> Result<Option<CoreType>, OutOfMemory>
    ensures { IfOk result (λ ty. option_map core_type_view ty ≡ core_type_of (view value.entry)) }
{
    match sole_member(value) {
        Some((key, body)) => read_core_type_under(alloc, key, body),
        None => Ok(None),
    }
}
