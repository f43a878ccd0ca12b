// Core types as texts, in the manner of the text format. An index stands as it was written, and an id of the table
// behind `#`.
ghost use Rattle.std.specs.Prelude.{◌≡◌, codes, ◌++◌, Some};
ghost use Rattle.wcv_core.specs.CoreForm.{func_form, struct_form, composite_form, sub_form};
ghost use Rattle.wcv_core.specs.CoreShown.{mark_shown, id_shown, heap_shown, ref_shown, val_shown, storage_shown, field_shown, vals_shown, fields_shown, form_shown, super_shown, above_shown, sub_shown, types_shown, greatest_shown, table_shown, pages_shown, memory_shown, global_shown, entity_shown};

use crate::core_types::{
    ArrayType, CompositeInnerType, CoreTypeId, EntityType, FieldType, FuncType, GlobalType,
    HeapType, MemoryType, RecGroup, RefType, StorageType, StructType, SubType, SuperType,
    TableType, ValType,
};
use std::fmt;

/// A text, where that is so.
fn mark(is: bool, text: &'static str) -> &'static str
    ensures { result.now ≡ mark_shown is text.now }
{
    if is { text } else { "" }
}

impl fmt::Display for CoreTypeId {
    ghost output = { λ id. Some (id_shown id) };

    fn fmt<W: fmt::Write>(&self, f: &mut fmt::Formatter<W>) -> fmt::Result {
        let index = self.index;
        write!(f, "#{index}")
    }
}

impl fmt::Display for HeapType {
    ghost output = { λ heap. Some (heap_shown heap) };

    fn fmt<W: fmt::Write>(&self, f: &mut fmt::Formatter<W>) -> fmt::Result {
        match self {
            HeapType::Abstract(name) => write!(f, "{name}"),
            HeapType::Index(index) => write!(f, "{index}"),
            HeapType::Id(id) => write!(f, "{id}"),
        }
    }
}

impl fmt::Display for RefType {
    ghost output = { λ ty. Some (ref_shown ty) };

    fn fmt<W: fmt::Write>(&self, f: &mut fmt::Formatter<W>) -> fmt::Result {
        let null = mark(self.nullable, "null ");
        let open = mark(self.shared, "(shared ");
        let heap = self.heap;
        let close = mark(self.shared, ")");
        write!(f, "(ref {null}{open}{heap}{close})")
    }
}

impl fmt::Display for ValType {
    ghost output = { λ ty. Some (val_shown ty) };

    fn fmt<W: fmt::Write>(&self, f: &mut fmt::Formatter<W>) -> fmt::Result {
        match self {
            ValType::I32 => f.write_str("i32"),
            ValType::I64 => f.write_str("i64"),
            ValType::F32 => f.write_str("f32"),
            ValType::F64 => f.write_str("f64"),
            ValType::V128 => f.write_str("v128"),
            ValType::Ref(ty) => write!(f, "{ty}"),
        }
    }
}

impl fmt::Display for StorageType {
    ghost output = { λ ty. Some (storage_shown ty) };

    fn fmt<W: fmt::Write>(&self, f: &mut fmt::Formatter<W>) -> fmt::Result {
        match self {
            StorageType::I8 => f.write_str("i8"),
            StorageType::I16 => f.write_str("i16"),
            StorageType::Val(ty) => write!(f, "{ty}"),
        }
    }
}

impl fmt::Display for FieldType {
    ghost output = { λ ty. Some (field_shown ty) };

    fn fmt<W: fmt::Write>(&self, f: &mut fmt::Formatter<W>) -> fmt::Result {
        let open = mark(self.mutable, "(mut ");
        let storage = self.storage;
        let close = mark(self.mutable, ")");
        write!(f, "{open}{storage}{close}")
    }
}

/// Value types, each behind a space.
#[derive(Drop)]
struct Values<'a>(&'a [ValType]);

impl fmt::Display for Values<'_> {
    ghost output = { λ values. Some (vals_shown values.0.now) };

    fn fmt<W: fmt::Write>(&self, f: &mut fmt::Formatter<W>) -> fmt::Result {
        for ty in self.0 {
            write!(f, " {ty}")?;
        }
        Ok(())
    }
}

/// Fields, each behind a space.
#[derive(Drop)]
struct Fields<'a>(&'a [FieldType]);

impl fmt::Display for Fields<'_> {
    ghost output = { λ fields. Some (fields_shown fields.0.now) };

    fn fmt<W: fmt::Write>(&self, f: &mut fmt::Formatter<W>) -> fmt::Result {
        for ty in self.0 {
            write!(f, " (field {ty})")?;
        }
        Ok(())
    }
}

impl fmt::Display for FuncType {
    ghost output = { λ ty. Some (form_shown (func_form ty.params.items ty.results.items)) };

    fn fmt<W: fmt::Write>(&self, f: &mut fmt::Formatter<W>) -> fmt::Result {
        let params = Values(&self.params);
        let results = Values(&self.results);
        write!(f, "(func (param{params}) (result{results}))")
    }
}

impl fmt::Display for StructType {
    ghost output = { λ ty. Some (form_shown (struct_form ty.fields.items)) };

    fn fmt<W: fmt::Write>(&self, f: &mut fmt::Formatter<W>) -> fmt::Result {
        let fields = Fields(&self.fields);
        write!(f, "(struct{fields})")
    }
}

impl fmt::Display for ArrayType {
    ghost use Rattle.wcv_core.specs.CoreForm.{array_form};

    ghost output = { λ ty. Some (form_shown (array_form ty.field)) };

    fn fmt<W: fmt::Write>(&self, f: &mut fmt::Formatter<W>) -> fmt::Result {
        let field = self.field;
        write!(f, "(array {field})")
    }
}

impl fmt::Display for CompositeInnerType {
    ghost output = { λ ty. Some (form_shown (composite_form ty)) };

    fn fmt<W: fmt::Write>(&self, f: &mut fmt::Formatter<W>) -> fmt::Result {
        match self {
            CompositeInnerType::Func(ty) => write!(f, "{ty}"),
            CompositeInnerType::Struct(ty) => write!(f, "{ty}"),
            CompositeInnerType::Array(ty) => write!(f, "{ty}"),
        }
    }
}

impl fmt::Display for SuperType {
    ghost output = { λ ty. Some (super_shown ty) };

    fn fmt<W: fmt::Write>(&self, f: &mut fmt::Formatter<W>) -> fmt::Result {
        match self {
            SuperType::Index(index) => write!(f, "{index}"),
            SuperType::Id(id) => write!(f, "{id}"),
        }
    }
}

/// A declared supertype, before a space.
#[derive(Drop)]
struct Above(Option<SuperType>);

impl fmt::Display for Above {
    ghost output = { λ above. Some (above_shown above.0) };

    fn fmt<W: fmt::Write>(&self, f: &mut fmt::Formatter<W>) -> fmt::Result {
        match self.0 {
            Some(ty) => write!(f, "{ty} "),
            None => Ok(()),
        }
    }
}

impl fmt::Display for SubType {
    ghost output = { λ ty. Some (sub_shown (sub_form ty)) };

    #[tactic(auto, unfolding(crate::specs::CoreShown::sub_shown))]
    fn fmt<W: fmt::Write>(&self, f: &mut fmt::Formatter<W>) -> fmt::Result {
        let last = mark(self.is_final, "final ");
        let above = Above(self.supertype);
        let open = mark(self.shared, "(shared ");
        let inner = &self.inner;
        let close = mark(self.shared, ")");
        write!(f, "(sub {last}{above}{open}{inner}{close})")
    }
}

/// Types of a group, each behind a space.
#[derive(Drop)]
struct Types<'a>(&'a [SubType]);

impl fmt::Display for Types<'_> {
    ghost output = { λ types. Some (types_shown types.0.now) };

    fn fmt<W: fmt::Write>(&self, f: &mut fmt::Formatter<W>) -> fmt::Result {
        for ty in self.0 {
            write!(f, " (type {ty})")?;
        }
        Ok(())
    }
}

impl fmt::Display for RecGroup {
    ghost output = { λ group. Some (codes "(rec" ++ types_shown group.types.items ++ codes ")") };

    fn fmt<W: fmt::Write>(&self, f: &mut fmt::Formatter<W>) -> fmt::Result {
        let types = Types(&self.types);
        write!(f, "(rec{types})")
    }
}

/// The greatest number, behind a space.
#[derive(Drop)]
struct Greatest(Option<u64>);

impl fmt::Display for Greatest {
    ghost output = { λ greatest. Some (greatest_shown greatest.0) };

    fn fmt<W: fmt::Write>(&self, f: &mut fmt::Formatter<W>) -> fmt::Result {
        match self.0 {
            Some(number) => write!(f, " {number}"),
            None => Ok(()),
        }
    }
}

impl fmt::Display for TableType {
    ghost output = { λ ty. Some (table_shown ty) };

    fn fmt<W: fmt::Write>(&self, f: &mut fmt::Formatter<W>) -> fmt::Result {
        let wide = mark(self.table64, "i64 ");
        let min = self.initial;
        let max = Greatest(self.maximum);
        let shared = mark(self.shared, " shared");
        let element = self.element_type;
        write!(f, "(table {wide}{min}{max}{shared} {element})")
    }
}

/// How large pages are, behind a space.
#[derive(Drop)]
struct Pages(u32);

impl fmt::Display for Pages {
    ghost output = { λ pages. Some (pages_shown pages.0) };

    #[tactic(auto, unfolding(crate::specs::CoreShown::pages_shown))]
    fn fmt<W: fmt::Write>(&self, f: &mut fmt::Formatter<W>) -> fmt::Result {
        let exponent = self.0;
        write!(f, " (pagesize 2^{exponent})")
    }
}

impl fmt::Display for MemoryType {
    ghost output = { λ ty. Some (memory_shown ty) };

    fn fmt<W: fmt::Write>(&self, f: &mut fmt::Formatter<W>) -> fmt::Result {
        let wide = mark(self.memory64, "i64 ");
        let min = self.initial;
        let max = Greatest(self.maximum);
        let shared = mark(self.shared, " shared");
        let pages = Pages(self.page_size_log2);
        write!(f, "(memory {wide}{min}{max}{shared}{pages})")
    }
}

impl fmt::Display for GlobalType {
    ghost output = { λ ty. Some (global_shown ty) };

    fn fmt<W: fmt::Write>(&self, f: &mut fmt::Formatter<W>) -> fmt::Result {
        let shared = mark(self.shared, "shared ");
        let open = mark(self.mutable, "(mut ");
        let content = self.content_type;
        let close = mark(self.mutable, ")");
        write!(f, "(global {shared}{open}{content}{close})")
    }
}

impl fmt::Display for EntityType {
    ghost output = { λ ty. Some (entity_shown ty) };

    fn fmt<W: fmt::Write>(&self, f: &mut fmt::Formatter<W>) -> fmt::Result {
        match self {
            EntityType::Func(id) => write!(f, "(func (type {id}))"),
            EntityType::Table(ty) => write!(f, "{ty}"),
            EntityType::Memory(ty) => write!(f, "{ty}"),
            EntityType::Global(ty) => write!(f, "{ty}"),
            EntityType::Tag(id) => write!(f, "(tag (type {id}))"),
        }
    }
}
