// Types of instances.
use crate::info::TypeInfo;
use crate::item_map::ItemMap;
use crate::resource_set::ResourceSet;

/// An instance type: its exports, and the resources that it owns, each of which stands in its exports.
#[derive(Drop)]
pub struct ComponentInstanceType {
    pub info: TypeInfo,
    pub defined_resources: ResourceSet,
    pub exports: ItemMap,
}
