// Lists of core items.
use std::alloc::Global;
use wcv_core::{EntityType, MemoryType, OutOfMemory, Text};
use wcv_types::ExportMap;

pub const MEMORY: MemoryType = MemoryType {
    initial: 1,
    maximum: None,
    memory64: false,
    shared: false,
    page_size_log2: 16,
};

// The export of a memory.
fn exports(alloc: Global) -> Result<ExportMap, OutOfMemory> {
    let mut exports = ExportMap::new(alloc);
    exports.push((Text::new(alloc, "e")?, EntityType::Memory(MEMORY)))?;
    Ok(exports)
}

// Whether they are copied, and found by their names.
fn are_copied(alloc: Global, exports: &ExportMap) -> bool {
    let copied = exports.copy(alloc).is_ok();
    let by_name = exports.by_name(alloc).is_ok();
    copied && by_name
}

pub fn exports_are_copied(alloc: Global) -> bool {
    match exports(alloc) {
        Ok(exports) => are_copied(alloc, &exports),
        Err(_) => false,
    }
}
