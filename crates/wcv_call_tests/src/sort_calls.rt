// Calls of the arena over a value and a reference to a resource.
ghost use Rattle.std.specs.Prelude.{All};
ghost use Rattle.wcv_types.specs.Entities.{any_part, EntryStands};
ghost use Rattle.wcv_types.specs.Standing.{Stands};

use crate::sorts::{U32, one_entry};
use bitflags::Flags;
use wcv_core::{PrimitiveValType, WasmFeatures};
use wcv_text::push_type;
use wcv_types::{
    ComponentAnyTypeId, ComponentEntityType, ComponentType, ComponentValType, ItemMap, NodeStore,
    Paths, ResourceSet, TypeAlloc, TypeInfo,
};
use wcv_walks::FreeVariables;

/// Whether the resources that are free in a type are found.
fn are_found(types: &TypeAlloc, id: ComponentAnyTypeId) -> bool
    requires { Stands types.now (any_part id) }
{
    let mut free = ResourceSet::new(types.allocator());
    types.free_variables_any_type_id(id, &mut free).is_ok()
}

/// They are, in a reference to a resource, which stays as it is where it is built again.
pub fn a_reference_stays(types: &mut TypeAlloc) -> bool {
    match types.alloc_resource_id() {
        Ok(id) => {
            let found = are_found(types, ComponentAnyTypeId::Resource(id));
            let parts = types.no_parts();
            match types.rebuild(id, &parts) {
                Ok(made) => [made == id, found] == [true; 2],
                Err(_) => false,
            }
        }
        Err(_) => false,
    }
}

/// Whether the text of a component that imports these is that one.
fn is_text(types: &TypeAlloc, imports: ItemMap) -> bool
    requires { All (EntryStands types.now) imports }
{
    let alloc = types.allocator();
    let ty = ComponentType {
        info: TypeInfo { size: 1, depth: 1 },
        imports,
        exports: ItemMap::new(alloc),
        imported_resources: Paths::new(alloc),
        defined_resources: Paths::new(alloc),
    };
    let mut text = String::new(alloc);
    let _ = push_type(alloc, &mut text, types, &ty);
    text.as_str() == "import \"v\" value u32\n"
}

/// An imported value has its text.
pub fn a_value_has_its_text(types: &mut TypeAlloc) -> bool {
    match one_entry(
        "v",
        ComponentEntityType::Value(U32),
        &WasmFeatures::all(),
        types,
    ) {
        Ok(imports) => is_text(types, imports),
        Err(_) => false,
    }
}

const U8: ComponentValType = ComponentValType::Primitive(PrimitiveValType::U8);

/// A value type is no other one.
pub fn value_types_are_equal(types: &mut TypeAlloc) -> bool {
    matches!(types.val_type_eq(&U32, &U8), Ok(false))
}
