// Lists with one entry.
ghost use Rattle.std.specs.Prelude.{◌≡◌, All, IfOk};
ghost use Rattle.wcv_types.specs.Entities.{EntityStands, EntryStands};

use bitflags::Flags;
use std::alloc::Global;
use wcv_core::{Error, ExternKind, OutOfMemory, PrimitiveValType, Text, WasmFeatures};
use wcv_names::{ComponentNameContext, NameSet};
use wcv_syntax::ComponentExternName;
use wcv_types::{ComponentEntityType, ComponentValType, ItemMap, TypeAlloc, TypeInfo};

pub const U32: ComponentValType = ComponentValType::Primitive(PrimitiveValType::U32);

// A name with nothing beside it.
fn bare_name(alloc: Global, name: &str) -> Result<ComponentExternName, OutOfMemory> {
    Ok(ComponentExternName {
        name: Text::new(alloc, name)?,
        implements: None,
        version_suffix: None,
        external_id: None,
    })
}

/// An entity joins a list with nothing in it.
#[tactic(auto, using(crate::proofs::Standing::one_stands))]
fn join(
    name: &ComponentExternName,
    ty: ComponentEntityType,
    features: &WasmFeatures,
    types: &mut TypeAlloc,
) -> Result<ItemMap, Error>
    requires { EntityStands types.old ty }
    ensures items { IfOk result (All (EntryStands types.old)) }
    ensures types { types.new ≡ types.old }
{
    let alloc = types.allocator();
    let mut keys = NameSet::new(alloc);
    let mut items = ItemMap::new(alloc);
    let mut info = TypeInfo { size: 1, depth: 1 };
    let context = ComponentNameContext::new(alloc);
    match context.validate_extern(
        name,
        ExternKind::Import,
        &ty,
        types,
        0,
        &mut keys,
        &mut items,
        &mut info,
        features,
    ) {
        Ok(()) => Ok(items),
        Err(error) => Err(error),
    }
}

/// A list with one entity under a name.
pub fn one_entry(
    name: &str,
    ty: ComponentEntityType,
    features: &WasmFeatures,
    types: &mut TypeAlloc,
) -> Result<ItemMap, Error>
    requires { EntityStands types.old ty }
    ensures items { IfOk result (All (EntryStands types.old)) }
    ensures types { types.new ≡ types.old }
{
    match bare_name(types.allocator(), name) {
        Ok(name) => join(&name, ty, features, types),
        Err(error) => Err(Error::from(error)),
    }
}
