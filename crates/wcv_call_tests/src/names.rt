// Names of imports and exports by themselves, and their keys.
use bitflags::Flags;
use std::alloc::Global;
use wcv_core::WasmFeatures;
use wcv_names::NameSet;
use wcv_syntax::{ComponentName, ComponentNameKind};

// Whether the name is of a setter, and there is memory for the name of its getter.
fn has_getter(alloc: Global, name: &ComponentName) -> bool {
    match name.kind() {
        ComponentNameKind::MethodSetter(_, _) => name.getter_for_setter(alloc).is_ok(),
        _ => false,
    }
}

// So, and for its keys.
fn is_known(alloc: Global, name: &ComponentName) -> bool {
    [
        name.uniqueness_key(alloc).is_ok(),
        name.kind().uniqueness_key(alloc).is_ok(),
        has_getter(alloc, name),
    ] == [true; 3]
}

pub fn a_setter_has_a_getter(alloc: Global) -> bool {
    let features = WasmFeatures::CM_ACCESSORS;
    match ComponentName::new_with_features(alloc, "[method][set]R.F", 5, features) {
        Ok(name) => is_known(alloc, &name),
        Err(_) => false,
    }
}

pub fn a_key_joins_a_set(alloc: Global) -> bool {
    match String::from_str(alloc, "k") {
        Ok(key) => NameSet::new(alloc).push(key).is_ok(),
        Err(_) => false,
    }
}
