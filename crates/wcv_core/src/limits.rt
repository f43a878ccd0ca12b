//! The limits of this validator, all in one place. What passes one is refused with the kind `Limit`, and a
//! listing with too many bytes by a status of its own. `specs/Limits.antt` has the same numbers for contracts.

/// The most entries of a space of types, functions or core items, and of a list of imports or of exports. Types
/// are counted together with core types, and functions with core functions. So are the distinct core types of an
/// arena, and the types of a core module.
pub const MAX_ENTRIES: usize = 1_000_000;

/// The most core modules, components, values, and instances together with core instances.
pub const MAX_INSTANCES: usize = 1_000;

/// The most components and declared types that are open at once, the root's component among them.
pub const MAX_OPEN: usize = 100;

/// The size that a type, or the whole of a component's entries, may have.
pub const MAX_SIZE: u64 = 1_000_000;

/// How deep a type may be nested.
pub const MAX_DEPTH: u64 = 512;

/// The most elements of a list of a fixed length.
pub const MAX_ELEMENTS: u32 = 65_536;

/// The most bytes that a value type may take in memory.
pub const MAX_ABI_SIZE: u64 = 268_435_456;

/// The most declared supertypes above a core type.
pub const MAX_SUPERTYPES: u64 = 63;

/// The most parameters of a function, and the most parameters or results of a core function.
pub const MAX_PARAMS: usize = 1_000;

/// The most entries of any other list in an item.
pub const MAX_LIST: usize = 100_000;

/// The most bytes of a text in an item.
pub const MAX_TEXT: usize = 100_000;

/// The most bytes of a listing.
pub const MAX_LISTING: usize = 67_108_864;
