// The types of core modules and of core instances.
use crate::core_maps::{ExportMap, ImportMap};
use crate::ids::ComponentCoreModuleTypeId;
use crate::info::TypeInfo;
use wcv_core::CoreTypeId;

/// The type of a core module: what it imports and what it exports.
#[derive(Drop)]
pub struct ModuleType {
    pub info: TypeInfo,
    pub imports: ImportMap,
    pub exports: ExportMap,
    /// The core types that its declarations gave. They are no part of the type.
    pub types: Vec<CoreTypeId>,
}

/// What a core instance was made of.
#[derive(Drop)]
pub enum CoreInstanceTypeKind {
    /// A module: the instance exports what the module exports.
    Instantiated(ComponentCoreModuleTypeId),
    Exports(ExportMap),
}

/// The type of a core instance.
#[derive(Drop)]
pub struct InstanceType {
    pub info: TypeInfo,
    pub kind: CoreInstanceTypeKind,
}
