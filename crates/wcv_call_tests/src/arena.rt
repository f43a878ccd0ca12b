// What is asked of an arena with nothing in it: one function owns it.
use crate::core_types::a_function_type_is_interned;
use crate::sort_calls::{a_reference_stays, a_value_has_its_text, value_types_are_equal};
use bitflags::Flags;
use std::alloc::Global;
use wcv_core::WasmFeatures;
use wcv_types::TypeAlloc;

/// Whether the answers are those that are due.
fn answers(alloc: Global, types: &mut TypeAlloc) -> [bool; 4] {
    [
        a_function_type_is_interned(alloc, types),
        a_value_has_its_text(types),
        a_reference_stays(types),
        value_types_are_equal(types),
    ]
}

// So in an arena of their own.
pub fn answers_of_arena(alloc: Global) -> [bool; 4] {
    let mut types = TypeAlloc::new(alloc, WasmFeatures::all());
    answers(alloc, &mut types)
}
