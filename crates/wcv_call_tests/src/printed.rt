// A group of core types as it is printed.
use std::alloc::Global;
use wcv_core::{
    CompositeInnerType, CoreTypeId, FieldType, HeapType, OutOfMemory, RecGroup, RefType,
    StorageType, StructType, SubType, SuperType, ValType,
};

const BYTE: FieldType = FieldType {
    storage: StorageType::I8,
    mutable: true,
};

const REFERENCE: FieldType = FieldType {
    storage: StorageType::Val(ValType::Ref(RefType {
        nullable: true,
        shared: false,
        heap: HeapType::Index(0),
    })),
    mutable: false,
};

/// A struct type with a supertype.
fn group(alloc: Global) -> Result<RecGroup, OutOfMemory> {
    let fields = vec![in alloc; BYTE, REFERENCE]?;
    let ty = SubType {
        is_final: false,
        supertype: Some(SuperType::Id(CoreTypeId { index: 7 })),
        shared: true,
        inner: CompositeInnerType::Struct(StructType { fields }),
    };
    let types = vec![in alloc; ty]?;
    Ok(RecGroup { types })
}

/// Whether the group has that text.
fn has_text(alloc: Global, group: &RecGroup) -> bool {
    match format!(in alloc; "{group}") {
        Ok(text) => {
            text.as_str()
                == "(rec (type (sub #7 (shared (struct (field (mut i8)) (field (ref null 0)))))))"
        }
        Err(_) => false,
    }
}

pub fn a_group_is_printed(alloc: Global) -> bool {
    match group(alloc) {
        Ok(group) => has_text(alloc, &group),
        Err(_) => false,
    }
}
