// Whether value types and functions are the same, as each side reads its resources.
ghost use Rattle.std.specs.Prelude.{◌≡◌, ◌&&◌, ◌+◌, ◌≤◌, true, All, option_copied, bytes_eq};
ghost use Rattle.std.specs.Cmp.Lexicographic.{pointwise};
ghost use Rattle.std.specs.Option.{option_eq};
ghost use Rattle.wcv_types.specs.Alike.{role_of};
ghost use Rattle.wcv_types.specs.Entities.{SlotStands};
ghost use Rattle.wcv_types.specs.SameSeen.{primitive_number, same_former, same_primitive, same_role};
ghost use Rattle.wcv_types.specs.Seen.{seen};
ghost use Rattle.wcv_types.specs.Standing.{Stands};
ghost use Rattle.wcv_types.specs.Unfold.{defined_slots, former_of, option_slot, parts_of, value_parts, value_slot, value_slots, tree_at, trees};
ghost use Rattle.wcv_types.specs.declared.arena.Node.TheVariants as n;
ghost use Rattle.wcv_types.specs.declared.ids.Part.TheVariants as p;
ghost use Rattle.wcv_matching.specs.AtomTests.{same_seen};
ghost use Rattle.wcv_matching.specs.Matching.{outside};
ghost use Rattle.wcv_atoms.specs.Extent.{extent, value_extent, values_extent};
ghost use Rattle.wcv_atoms.specs.Readings.{reads};
ghost use Rattle.wcv_values.specs.SeenValues.{labelled, same_slots, seen_value, seen_view, ViewStands, inner_extent};

use std::sync::ledger::Ledger;
use wcv_atoms::{Readings, visited};
use wcv_core::{PrimitiveValType, Text};
use wcv_types::{ComponentDefinedType, ComponentFuncTypeId, ComponentValType, Steps, TypeAlloc};

/// A value type as it is seen: a primitive under a name is the primitive.
#[derive(Clone, Copy)]
enum SeenValue<'a> {
    LeftOut,
    Primitive(PrimitiveValType),
    Node(&'a ComponentDefinedType),
}

fn primitive_number(primitive: PrimitiveValType) -> u8
    ensures { result ≡ primitive_number primitive }
{
    match primitive {
        PrimitiveValType::Bool => 0,
        PrimitiveValType::S8 => 1,
        PrimitiveValType::U8 => 2,
        PrimitiveValType::S16 => 3,
        PrimitiveValType::U16 => 4,
        PrimitiveValType::S32 => 5,
        PrimitiveValType::U32 => 6,
        PrimitiveValType::S64 => 7,
        PrimitiveValType::U64 => 8,
        PrimitiveValType::F32 => 9,
        PrimitiveValType::F64 => 10,
        PrimitiveValType::Char => 11,
        PrimitiveValType::String => 12,
        PrimitiveValType::ErrorContext => 13,
    }
}

/// Whether both are one primitive, or both are none.
fn same_primitive(a: Option<PrimitiveValType>, b: Option<PrimitiveValType>) -> bool
    ensures { result ≡ option_eq same_primitive a b }
{
    match a {
        Some(p) => match b {
            Some(q) => primitive_number(p) == primitive_number(q),
            None => false,
        },
        None => b.is_none(),
    }
}

/// Whether the texts are the same, one by one.
fn same_texts(a: &[Text], b: &[Text]) -> bool
    ensures { result ≡ pointwise bytes_eq a.now b.now }
{
    if a.len() != b.len() {
        return false;
    }
    for k in 0..a.len() {
        let x = &a[k];
        let y = &b[k];
        if x.as_str() != y.as_str() {
            return false;
        }
    }
    true
}

/// Whether the two are formed in one way.
fn same_form(a: &ComponentDefinedType, b: &ComponentDefinedType) -> bool
    ensures { result ≡ same_former (former_of a.now) (former_of b.now) }
{
    a.form() == b.form()
        && (same_primitive(a.primitive(), b.primitive())
            && (a.fixed_length() == b.fixed_length() && same_texts(a.names(), b.names())))
}

/// Whether both have one label, or none.
fn same_label(a: Option<&Text>, b: Option<&Text>) -> bool
    ensures { result ≡ same_role (role_of (option_copied a.entry)) (role_of (option_copied b.entry)) }
{
    match a {
        Some(l) => match b {
            Some(m) => l.as_str() == m.as_str(),
            None => false,
        },
        None => b.is_none(),
    }
}

/// What a value type is seen as. It takes a step where this is a node.
fn view_of<'a, L: Ledger>(
    types: &'a TypeAlloc,
    ty: Option<ComponentValType>,
    steps: &mut Steps<L>,
) -> SeenValue<'a>
    requires { SlotStands types.now (option_slot ty) }
    ensures view { (f : _) → seen_value (trees types.now.nodes) f ty ≡ seen_view (trees types.now.nodes) f result }
    ensures stands { ViewStands types.now ty result }
    ensures counted { steps.new + inner_extent (trees types.now.nodes) result ≤ steps.old + value_extent (trees types.now.nodes) ty }
{
    match ty {
        Some(ComponentValType::Primitive(primitive)) => SeenValue::Primitive(primitive),
        Some(ComponentValType::Ty(id)) => {
            let shape = visited(types, id, steps);
            match shape.primitive() {
                Some(primitive) => SeenValue::Primitive(primitive),
                None => SeenValue::Node(shape),
            }
        }
        None => SeenValue::LeftOut,
    }
}

/// Whether two value types are the same, or both are left out.
#[cycle(same_values)]
pub fn same_value<L: Ledger>(
    types: &TypeAlloc,
    left: &Readings,
    right: &Readings,
    a: Option<ComponentValType>,
    b: Option<ComponentValType>,
    steps: &mut Steps<L>,
) -> bool
    requires a { SlotStands types.now (option_slot a) }
    requires b { SlotStands types.now (option_slot b) }
    ensures same { result ≡ same_seen (seen_value (trees types.now.nodes) (reads left.now) a) (seen_value (trees types.now.nodes) (reads right.now) b) }
    ensures counted { steps.new ≤ steps.old + (value_extent (trees types.now.nodes) a + value_extent (trees types.now.nodes) b) }
{
    match view_of(types, a, steps) {
        SeenValue::LeftOut => match view_of(types, b, steps) {
            SeenValue::LeftOut => true,
            _ => false,
        },
        SeenValue::Primitive(p) => match view_of(types, b, steps) {
            SeenValue::Primitive(q) => same_primitive(Some(p), Some(q)),
            _ => false,
        },
        SeenValue::Node(s) => match view_of(types, b, steps) {
            SeenValue::Node(t) => {
                same_form(s, t) && same_contents(types, left, right, s, t, steps)
            },
            _ => false,
        },
    }
}

/// Whether two parts have one label, or none, and are the same.
#[cycle(same_values)]
fn same_part<L: Ledger>(
    types: &TypeAlloc,
    left: &Readings,
    right: &Readings,
    labels: (Option<&Text>, Option<&Text>),
    a: Option<ComponentValType>,
    b: Option<ComponentValType>,
    steps: &mut Steps<L>,
) -> bool
    requires a { SlotStands types.now (option_slot a) }
    requires b { SlotStands types.now (option_slot b) }
    ensures same { result ≡ (same_role (role_of (option_copied labels.entry.0)) (role_of (option_copied labels.entry.1)) && same_seen (seen_value (trees types.now.nodes) (reads left.now) a) (seen_value (trees types.now.nodes) (reads right.now) b)) }
    ensures counted { steps.new ≤ steps.old + (value_extent (trees types.now.nodes) a + value_extent (trees types.now.nodes) b) }
{
    same_label(labels.0, labels.1) && same_value(types, left, right, a, b, steps)
}

/// Whether two types that are formed in one way are made of the same.
#[cycle(same_values)]
fn same_contents<L: Ledger>(
    types: &TypeAlloc,
    left: &Readings,
    right: &Readings,
    a: &ComponentDefinedType,
    b: &ComponentDefinedType,
    steps: &mut Steps<L>,
) -> bool
    requires form { same_former (former_of a.now) (former_of b.now) ≡ true }
    requires a { All (Stands types.now) (parts_of (n.Defined a.now)) }
    requires b { All (Stands types.now) (parts_of (n.Defined b.now)) }
    ensures same { result ≡ same_slots (trees types.now.nodes) (reads left.now) (reads right.now) (defined_slots a.now) (defined_slots b.now) }
    ensures counted { steps.new ≤ steps.old + (values_extent (trees types.now.nodes) (value_parts a.now) + values_extent (trees types.now.nodes) (value_parts b.now)) }
{
    if let Some(x) = a.handle() {
        match b.handle() {
            Some(y) => {
                let read = left.read(x.resource());
                return read.is(right.read(y.resource()));
            }
            None => return false,
        }
    }
    if a.value_count() != b.value_count() {
        return false;
    }
    for k in 0..a.value_count() {
        let labels = (a.label_at(k), b.label_at(k));
        let x = a.value_at(k);
        let y = b.value_at(k);
        if !same_part(types, left, right, labels, x, y, steps) {
            return false;
        }
    }
    true
}

/// Whether the parameters are the same, name by name.
fn same_params<L: Ledger>(
    types: &TypeAlloc,
    left: &Readings,
    right: &Readings,
    a: &[(Text, ComponentValType)],
    b: &[(Text, ComponentValType)],
    steps: &mut Steps<L>,
) -> bool
    requires a { All (λ p. SlotStands types.now (value_slot p.1)) a.now }
    requires b { All (λ p. SlotStands types.now (value_slot p.1)) b.now }
    ensures same { result ≡ same_slots (trees types.now.nodes) (reads left.now) (reads right.now) (value_slots (labelled a.now)) (value_slots (labelled b.now)) }
    ensures counted { steps.new ≤ steps.old + (values_extent (trees types.now.nodes) (labelled a.now) + values_extent (trees types.now.nodes) (labelled b.now)) }
{
    if a.len() != b.len() {
        return false;
    }
    for k in 0..a.len() {
        let x = &a[k];
        let y = &b[k];
        let labels = (Some(&x.0), Some(&y.0));
        if !same_part(types, left, right, labels, Some(x.1), Some(y.1), steps) {
            return false;
        }
    }
    true
}

/// Whether two functions are the same.
pub fn same_func<L: Ledger>(
    types: &TypeAlloc,
    left: &Readings,
    right: &Readings,
    a: ComponentFuncTypeId,
    b: ComponentFuncTypeId,
    steps: &mut Steps<L>,
) -> bool
    requires a { Stands types.now (p.Func a) }
    requires b { Stands types.now (p.Func b) }
    ensures same { result ≡ same_seen (seen (outside (reads left.now)) (tree_at types.now (p.Func a))) (seen (outside (reads right.now)) (tree_at types.now (p.Func b))) }
    ensures counted { steps.new ≤ steps.old + (extent (tree_at types.now (p.Func a)) + extent (tree_at types.now (p.Func b))) }
{
    let x = visited(types, a, steps);
    let y = visited(types, b, steps);
    x.async_ == y.async_
        && (same_params(types, left, right, &x.params, &y.params, steps)
            && same_value(types, left, right, x.result, y.result, steps))
}
