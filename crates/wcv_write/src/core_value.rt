// Core value types.
ghost use Rattle.std.specs.Prelude.{◌++◌, ◌≡◌, OnOk};
ghost use Rattle.wcv_write.specs.Core.{heap_data, ref_type_data, core_value_data};
ghost use Rattle.wcv_write.specs.Json.{tokens_of};

use crate::indices::Indices;
use crate::list::ToJson;
use crate::member::write_mark;
use crate::output::Output;
use std::alloc::AllocError;
use wcv_core::{HeapType, RefType, ValType};

// Writes a heap type.
fn write_heap(out: &mut Output, heap: HeapType) -> Result<(), AllocError>
    ensures { OnOk result (out.new ≡ out.old ++ tokens_of (heap_data heap)) }
{
    match heap {
        HeapType::Abstract(heap) => out.text(heap.word()),
        HeapType::Index(index) => out.count(index as u64),
        HeapType::Id(_) => out.null(),
    }
}

/// Writes a reference type.
#[tactic(auto, unfolding(crate::specs::Core::ref_type_data))]
pub fn write_ref_type(out: &mut Output, ty: &RefType) -> Result<(), AllocError>
    ensures { OnOk result (out.new ≡ out.old ++ tokens_of (ref_type_data ty.now)) }
{
    out.begin_object()?;
    write_mark(out, "null", ty.nullable)?;
    out.key("ref")?;
    write_heap(out, ty.heap)?;
    write_mark(out, "shared", ty.shared)?;
    out.end_object()
}

/// Writes a core value type.
#[tactic(auto, unfolding(crate::specs::Core::core_value_data))]
pub fn write_core_value(out: &mut Output, value: &ValType) -> Result<(), AllocError>
    ensures { OnOk result (out.new ≡ out.old ++ tokens_of (core_value_data value.now)) }
{
    match value {
        ValType::I32 => out.text("i32"),
        ValType::I64 => out.text("i64"),
        ValType::F32 => out.text("f32"),
        ValType::F64 => out.text("f64"),
        ValType::V128 => out.text("v128"),
        ValType::Ref(ty) => write_ref_type(out, ty),
    }
}

impl ToJson for ValType {
    ghost form = { λ _ value. core_value_data value };

    fn write<I: Indices>(&self, out: &mut Output, _indices: &I) -> Result<(), AllocError> {
        write_core_value(out, self)
    }
}
