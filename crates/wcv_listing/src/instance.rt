// The body of `instance`.
ghost use Rattle.std.specs.Prelude.{◌≡◌, IfOk, option_map, option_and_then};
ghost use Rattle.wcv_listing.specs.Fields.{both, index, array_of};
ghost use Rattle.wcv_listing.specs.Forms.{export_of, arg_of, instance_of};
ghost use Rattle.wcv_listing.specs.Seen.{view};
ghost use Rattle.wcv_syntax.specs.Model.{instantiate};
ghost use Rattle.wcv_syntax.specs.View.{instance_view};

use crate::alias::read_sort;
use crate::fields::{one_field, two_fields};
use crate::forms::read_export;
use crate::list::{FromValue, read_list};
use crate::node::Node;
use crate::value::{index_of, text_of, triple_of};
use std::alloc::Global;
use wcv_core::{OutOfMemory, Text};
use wcv_syntax::{ComponentExport, ComponentInstance, ComponentInstantiationArg};

// An item under the name of an import.
impl FromValue for ComponentInstantiationArg {
    ghost seen = { λ arg. arg };

    ghost meant = { arg_of };

    fn from_value(
        alloc: Global,
        value: Node<'_, '_>,
    ) -> Result<Option<ComponentInstantiationArg>, OutOfMemory> {
        let Some((name, kind, index)) = triple_of(value) else {
            return Ok(None);
        };
        let Some(name) = text_of(name) else {
            return Ok(None);
        };
        let Some(kind) = read_sort(kind) else {
            return Ok(None);
        };
        let Some(index) = index_of(index) else {
            return Ok(None);
        };
        let name = Text::new(alloc, name)?;
        Ok(Some(ComponentInstantiationArg { name, kind, index }))
    }
}

// An export of an instance that is made of items.
impl FromValue for ComponentExport {
    ghost seen = { λ export. export };

    ghost meant = { export_of };

    fn from_value(
        alloc: Global,
        value: Node<'_, '_>,
    ) -> Result<Option<ComponentExport>, OutOfMemory> {
        read_export(alloc, value)
    }
}

// A component that is instantiated with arguments.
fn read_instantiation(
    alloc: Global,
    component: Option<Node<'_, '_>>,
    args: Option<Node<'_, '_>>,
) -> Result<Option<ComponentInstance>, OutOfMemory>
    ensures { IfOk result (λ made. option_map instance_view made ≡ both instantiate (option_and_then index (option_map view component.entry)) (option_and_then (array_of arg_of) (option_map view args.entry))) }
{
    let Some(component_index) = component.and_then(index_of) else {
        return Ok(None);
    };
    let Some(args) = args else {
        return Ok(None);
    };
    let Some(args) = read_list(alloc, args)? else {
        return Ok(None);
    };
    Ok(Some(ComponentInstance::Instantiate {
        component_index,
        args,
    }))
}

/// The body of `instance`.
pub fn read_instance(
    alloc: Global,
    value: Node<'_, '_>,
) -> Result<Option<ComponentInstance>, OutOfMemory>
    ensures { IfOk result (λ made. option_map instance_view made ≡ instance_of (view value.entry)) }
{
    if let Some((component, args)) = two_fields(value, "component", "args") {
        read_instantiation(alloc, component, args)
    } else if let Some(exports) = one_field(value, "exports") {
        let Some(exports) = exports else {
            return Ok(None);
        };
        Ok(read_list(alloc, exports)?.map(ComponentInstance::FromExports))
    } else {
        Ok(None)
    }
}
