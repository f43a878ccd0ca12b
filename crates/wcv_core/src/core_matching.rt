// Subtypes and the matching of value types, over the groups of a table.
ghost use Rattle.std.specs.Prelude.{◌≡◌, ◌+◌, ◌<◌};
ghost use Rattle.wcv_core.specs.CoreForm.{CompositeForm};
ghost use Rattle.wcv_core.specs.CoreGroups.{IsHeapWithin, IsValWithin, total};
ghost use Rattle.wcv_core.specs.CoreAbove.{is_declared};
ghost use Rattle.wcv_core.specs.CoreMatching.{form_heap, type_at, bottom_of, name_matches, heap_matches, ref_shared, ref_matches, val_matches};

use crate::core_rows::Rows;
use crate::core_types::{AbstractHeap, CompositeInnerType, CoreTypeId, HeapType, RefType, ValType};

impl Rows {
    /// Whether `a` is `b` or has it as a declared supertype. The walk ends at the depth of `b`.
    pub fn is_declared_subtype(&self, a: CoreTypeId, b: CoreTypeId) -> bool
        requires a { a.index < total self.now }
        requires b { b.index < total self.now }
        ensures { result ≡ is_declared self.now a.index b.index }
    {
        let least = self.depth(b);
        let mut at = a.index;
        while self.depth(CoreTypeId { index: at }) > least {
            match self.parent(CoreTypeId { index: at }) {
                Some(parent) => at = parent,
                None => return false,
            }
        }
        at == b.index
    }

    /// The heap, named by a word, that a type's form matches.
    fn form_heap(&self, id: CoreTypeId) -> AbstractHeap
        requires { id.index < total self.now }
        ensures { result ≡ form_heap (type_at self.now id.index).inner }
    {
        match self.get(id).inner {
            CompositeInnerType::Func(_) => AbstractHeap::Func,
            CompositeInnerType::Struct(_) => AbstractHeap::Struct,
            CompositeInnerType::Array(_) => AbstractHeap::Array,
        }
    }

    /// Whether a reference is shared, by the type that it names or by its own mark.
    pub fn is_shared(&self, r: RefType) -> bool
        requires { IsHeapWithin (total self.now) 0 r.heap }
        ensures { result ≡ ref_shared self.now r }
    {
        match r.heap {
            HeapType::Id(id) => self.get(id).shared,
            _ => r.shared,
        }
    }

    fn heap_matches(&self, a: HeapType, b: HeapType) -> bool
        requires a { IsHeapWithin (total self.now) 0 a }
        requires b { IsHeapWithin (total self.now) 0 b }
        ensures { result ≡ heap_matches self.now a b }
    {
        match (a, b) {
            (HeapType::Id(a), HeapType::Id(b)) => self.is_declared_subtype(a, b),
            (HeapType::Id(a), HeapType::Abstract(b)) => name_matches(self.form_heap(a), b),
            (HeapType::Abstract(a), HeapType::Id(b)) => a == bottom_of(self.form_heap(b)),
            (HeapType::Abstract(a), HeapType::Abstract(b)) => name_matches(a, b),
            _ => false,
        }
    }

    /// Whether the first value type matches the second. Neither names a type by an index, and the ids in
    /// them are of this table.
    pub fn val_type_matches(&self, a: &ValType, b: &ValType) -> bool
        requires a { IsValWithin (total self.now) 0 a.now }
        requires b { IsValWithin (total self.now) 0 b.now }
        ensures { result ≡ val_matches self.now a.now b.now }
    {
        match (*a, *b) {
            (ValType::I32, ValType::I32) => true,
            (ValType::I64, ValType::I64) => true,
            (ValType::F32, ValType::F32) => true,
            (ValType::F64, ValType::F64) => true,
            (ValType::V128, ValType::V128) => true,
            (ValType::Ref(q), ValType::Ref(r)) => self.ref_matches(q, r),
            _ => false,
        }
    }

    fn ref_matches(&self, q: RefType, r: RefType) -> bool
        requires a { IsHeapWithin (total self.now) 0 q.heap }
        requires b { IsHeapWithin (total self.now) 0 r.heap }
        ensures { result ≡ ref_matches self.now q r }
    {
        (!q.nullable || r.nullable)
            && self.is_shared(q) == self.is_shared(r)
            && self.heap_matches(q.heap, r.heap)
    }
}

/// The heap below all types of the form that this heap names.
fn bottom_of(form: AbstractHeap) -> AbstractHeap
    ensures { (f : CompositeForm) → form ≡ form_heap f → result ≡ bottom_of f }
{
    match form {
        AbstractHeap::Func => AbstractHeap::NoFunc,
        _ => AbstractHeap::None,
    }
}

/// Whether heaps that are named by words match.
fn name_matches(a: AbstractHeap, b: AbstractHeap) -> bool
    ensures { result ≡ name_matches a b }
{
    match b {
        AbstractHeap::Any => match a {
            AbstractHeap::Any
            | AbstractHeap::Eq
            | AbstractHeap::I31
            | AbstractHeap::Struct
            | AbstractHeap::Array
            | AbstractHeap::None => true,
            _ => false,
        },
        AbstractHeap::Eq => match a {
            AbstractHeap::Eq
            | AbstractHeap::I31
            | AbstractHeap::Struct
            | AbstractHeap::Array
            | AbstractHeap::None => true,
            _ => false,
        },
        AbstractHeap::I31 | AbstractHeap::Struct | AbstractHeap::Array => a == b
            || a == AbstractHeap::None,
        AbstractHeap::Func => a == AbstractHeap::Func || a == AbstractHeap::NoFunc,
        AbstractHeap::Extern => a == AbstractHeap::Extern || a == AbstractHeap::NoExtern,
        AbstractHeap::Exn => a == AbstractHeap::Exn || a == AbstractHeap::NoExn,
        _ => a == b,
    }
}
