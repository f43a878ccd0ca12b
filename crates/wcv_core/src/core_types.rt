// Core types of WebAssembly, as plain data.
ghost use Rattle.std.specs.Prelude.{◌≡◌, Some};
ghost use Rattle.wcv_core.specs.CoreFeatures.{heap_word};

use std::fmt;

/// The id of a core type in the table of core types.
#[derive(Clone, Copy, Debug, PartialEq, Eq, Hash, PartialOrd, Ord)]
pub struct CoreTypeId {
    pub index: u64,
}

/// A heap type that is named by a word.
#[derive(Clone, Copy, PartialEq, Eq)]
pub enum AbstractHeap {
    Func,
    NoFunc,
    Extern,
    NoExtern,
    Any,
    Eq,
    I31,
    Struct,
    Array,
    None,
    Exn,
    NoExn,
}

impl AbstractHeap {
    /// The word that names the heap.
    pub fn word(&self) -> &'static str
        ensures { result.now ≡ heap_word self.now }
    {
        match self {
            AbstractHeap::Func => "func",
            AbstractHeap::NoFunc => "nofunc",
            AbstractHeap::Extern => "extern",
            AbstractHeap::NoExtern => "noextern",
            AbstractHeap::Any => "any",
            AbstractHeap::Eq => "eq",
            AbstractHeap::I31 => "i31",
            AbstractHeap::Struct => "struct",
            AbstractHeap::Array => "array",
            AbstractHeap::None => "none",
            AbstractHeap::Exn => "exn",
            AbstractHeap::NoExn => "noexn",
        }
    }
}

impl fmt::Display for AbstractHeap {
    ghost output = { λ name. Some (heap_word name) };

    fn fmt<W: fmt::Write>(&self, f: &mut fmt::Formatter<W>) -> fmt::Result {
        f.write_str(self.word())
    }
}

/// What a reference points to. An index is that of a type as it was written, an id that of a type in
/// the table of core types.
#[derive(Clone, Copy)]
pub enum HeapType {
    Abstract(AbstractHeap),
    Index(u32),
    Id(CoreTypeId),
}

/// A reference type.
#[derive(Clone, Copy)]
pub struct RefType {
    pub nullable: bool,
    pub shared: bool,
    pub heap: HeapType,
}

/// A core value type.
#[derive(Clone, Copy)]
pub enum ValType {
    I32,
    I64,
    F32,
    F64,
    V128,
    Ref(RefType),
}

/// A core function type.
#[derive(Drop)]
pub struct FuncType {
    pub params: Vec<ValType>,
    pub results: Vec<ValType>,
}

/// How a field is stored.
#[derive(Clone, Copy)]
pub enum StorageType {
    I8,
    I16,
    Val(ValType),
}

/// A field of a struct, or the elements of an array.
#[derive(Clone, Copy)]
pub struct FieldType {
    pub storage: StorageType,
    pub mutable: bool,
}

/// A struct type.
#[derive(Drop)]
pub struct StructType {
    pub fields: Vec<FieldType>,
}

/// An array type.
#[derive(Clone, Copy)]
pub struct ArrayType {
    pub field: FieldType,
}

/// A declared supertype, by an index as it was written or by its id.
#[derive(Clone, Copy)]
pub enum SuperType {
    Index(u32),
    Id(CoreTypeId),
}

/// The form of a core type.
#[derive(Drop)]
pub enum CompositeInnerType {
    Func(FuncType),
    Struct(StructType),
    Array(ArrayType),
}

/// A core type with its place among the others.
#[derive(Drop)]
pub struct SubType {
    pub is_final: bool,
    pub supertype: Option<SuperType>,
    pub shared: bool,
    pub inner: CompositeInnerType,
}

/// A group of core types that may name one another.
#[derive(Drop)]
pub struct RecGroup {
    pub types: Vec<SubType>,
}

/// A core table type. Sizes count elements.
#[derive(Clone, Copy)]
pub struct TableType {
    pub element_type: RefType,
    pub initial: u64,
    pub maximum: Option<u64>,
    pub table64: bool,
    pub shared: bool,
}

/// A core memory type. Sizes count pages of 2 to the power `page_size_log2` bytes.
#[derive(Clone, Copy)]
pub struct MemoryType {
    pub initial: u64,
    pub maximum: Option<u64>,
    pub memory64: bool,
    pub shared: bool,
    pub page_size_log2: u32,
}

/// A core global type.
#[derive(Clone, Copy)]
pub struct GlobalType {
    pub content_type: ValType,
    pub mutable: bool,
    pub shared: bool,
}

/// What a core import or export is.
#[derive(Clone, Copy)]
pub enum EntityType {
    Func(CoreTypeId),
    Table(TableType),
    Memory(MemoryType),
    Global(GlobalType),
    Tag(CoreTypeId),
}
