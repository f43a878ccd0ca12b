// Types of components.
use crate::info::TypeInfo;
use crate::item_map::ItemMap;
use crate::paths::Paths;

/// A component type: its imports and its exports, and the resources that it imports and defines.
#[derive(Drop)]
pub struct ComponentType {
    pub info: TypeInfo,
    pub imports: ItemMap,
    pub exports: ItemMap,
    pub imported_resources: Paths,
    pub defined_resources: Paths,
}
