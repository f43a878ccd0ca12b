// A core type that joins an arena by the call for function types.
use std::alloc::Global;
use wcv_core::FuncType;
use wcv_types::TypeAlloc;

/// A function type has the first id of an arena with nothing in it.
#[tactic(auto, using(crate::proofs::Closing::func_closed))]
pub fn a_function_type_is_interned(alloc: Global, types: &mut TypeAlloc) -> bool {
    let func = FuncType {
        params: Vec::new(alloc),
        results: Vec::new(alloc),
    };
    match types.intern_func_type(func, 0) {
        Ok(id) => id.index == 0,
        Err(_) => false,
    }
}
