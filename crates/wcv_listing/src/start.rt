// The body of `start`.
ghost use Rattle.std.specs.Prelude.{◌≡◌, IfOk, option_map};
ghost use Rattle.wcv_listing.specs.Fields.{index};
ghost use Rattle.wcv_listing.specs.Forms.{start_of};
ghost use Rattle.wcv_listing.specs.Seen.{view};
ghost use Rattle.wcv_syntax.specs.View.{section_view};

use crate::fields::three_fields;
use crate::list::{FromValue, read_list};
use crate::node::Node;
use crate::value::index_of;
use std::alloc::Global;
use wcv_core::OutOfMemory;
use wcv_syntax::Section;

// The index of an argument.
impl FromValue for u32 {
    ghost seen = { λ argument. argument };

    ghost meant = { index };

    fn from_value(_alloc: Global, value: Node<'_, '_>) -> Result<Option<u32>, OutOfMemory> {
        Ok(index_of(value))
    }
}

/// The body of `start`.
#[tactic(auto, using(crate::proofs::Made::start_made))]
pub fn read_start(alloc: Global, value: Node<'_, '_>) -> Result<Option<Section>, OutOfMemory>
    ensures { IfOk result (λ section. option_map section_view section ≡ start_of (view value.entry)) }
{
    let Some((func, args, results)) = three_fields(value, "func", "args", "results") else {
        return Ok(None);
    };
    let Some(func_index) = func.and_then(index_of) else {
        return Ok(None);
    };
    let Some(results) = results.and_then(index_of) else {
        return Ok(None);
    };
    let Some(args) = args else {
        return Ok(None);
    };
    let Some(args) = read_list(alloc, args)? else {
        return Ok(None);
    };
    Ok(Some(Section::Start {
        func_index,
        args,
        results,
    }))
}
