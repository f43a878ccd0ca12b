// The body of `core-instance`.
ghost use Rattle.std.specs.Prelude.{◌≡◌, IfOk, option_map, option_and_then};
ghost use Rattle.wcv_listing.specs.Fields.{both, index, array_of};
ghost use Rattle.wcv_listing.specs.CoreForms.{core_arg_of, core_listed_of, core_instance_of};
ghost use Rattle.wcv_listing.specs.Seen.{view};
ghost use Rattle.wcv_syntax.specs.Model.{core_instantiate};
ghost use Rattle.wcv_syntax.specs.View.{core_instance_view};

use crate::alias::read_core_sort;
use crate::fields::{one_field, two_fields};
use crate::list::{FromValue, read_list};
use crate::node::Node;
use crate::value::{index_of, pair_of, text_of, triple_of};
use std::alloc::Global;
use wcv_core::{OutOfMemory, Text};
use wcv_syntax::{Export, Instance, InstantiationArg};

// A core instance under the name of a module that is imported.
impl FromValue for InstantiationArg {
    ghost seen = { λ arg. arg };

    ghost meant = { core_arg_of };

    fn from_value(
        alloc: Global,
        value: Node<'_, '_>,
    ) -> Result<Option<InstantiationArg>, OutOfMemory> {
        let Some((name, index)) = pair_of(value) else {
            return Ok(None);
        };
        let Some(name) = text_of(name) else {
            return Ok(None);
        };
        let Some(index) = index_of(index) else {
            return Ok(None);
        };
        let name = Text::new(alloc, name)?;
        Ok(Some(InstantiationArg { name, index }))
    }
}

// A core item under a name.
impl FromValue for Export {
    ghost seen = { λ listed. listed };

    ghost meant = { core_listed_of };

    fn from_value(alloc: Global, value: Node<'_, '_>) -> Result<Option<Export>, OutOfMemory> {
        let Some((name, kind, index)) = triple_of(value) else {
            return Ok(None);
        };
        let Some(name) = text_of(name) else {
            return Ok(None);
        };
        let Some(kind) = read_core_sort(kind) else {
            return Ok(None);
        };
        let Some(index) = index_of(index) else {
            return Ok(None);
        };
        let name = Text::new(alloc, name)?;
        Ok(Some(Export { name, kind, index }))
    }
}

// A core module that is instantiated with arguments.
fn read_instantiation(
    alloc: Global,
    core_module: Option<Node<'_, '_>>,
    args: Option<Node<'_, '_>>,
) -> Result<Option<Instance>, OutOfMemory>
    ensures { IfOk result (λ made. option_map core_instance_view made ≡ both core_instantiate (option_and_then index (option_map view core_module.entry)) (option_and_then (array_of core_arg_of) (option_map view args.entry))) }
{
    let Some(module_index) = core_module.and_then(index_of) else {
        return Ok(None);
    };
    let Some(args) = args else {
        return Ok(None);
    };
    let Some(args) = read_list(alloc, args)? else {
        return Ok(None);
    };
    Ok(Some(Instance::Instantiate { module_index, args }))
}

/// The body of `core-instance`.
pub fn read_core_instance(
    alloc: Global,
    value: Node<'_, '_>,
) -> Result<Option<Instance>, OutOfMemory>
    ensures { IfOk result (λ made. option_map core_instance_view made ≡ core_instance_of (view value.entry)) }
{
    if let Some((module, args)) = two_fields(value, "module", "args") {
        read_instantiation(alloc, module, args)
    } else if let Some(exports) = one_field(value, "exports") {
        let Some(exports) = exports else {
            return Ok(None);
        };
        Ok(read_list(alloc, exports)?.map(Instance::FromExports))
    } else {
        Ok(None)
    }
}
