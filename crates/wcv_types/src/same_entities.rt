// Entities with the same ids.
ghost use Rattle.std.specs.Prelude.{◌≡◌, true, length};
ghost use Rattle.wcv_types.specs.Entities.{retyped};

use crate::ids::ComponentAnyTypeId;
use crate::item_map::ComponentItem;
use crate::shapes::{ComponentEntityType, ComponentValType};
use wcv_core::Text;

/// Whether the value types are one primitive or one node.
fn is_same_value(a: ComponentValType, b: ComponentValType) -> bool
    ensures { result ≡ true → a ≡ b }
{
    match (a, b) {
        (ComponentValType::Primitive(p), ComponentValType::Primitive(q)) => p == q,
        (ComponentValType::Ty(i), ComponentValType::Ty(j)) => i == j,
        _ => false,
    }
}

/// Whether the types are one.
fn is_same_type(a: ComponentAnyTypeId, b: ComponentAnyTypeId) -> bool
    ensures { result ≡ true → a ≡ b }
{
    a == b
}

/// Whether the entities have the same ids.
fn is_same_entity(a: ComponentEntityType, b: ComponentEntityType) -> bool
    ensures { result ≡ true → a ≡ b }
{
    match (a, b) {
        (ComponentEntityType::Module(i), ComponentEntityType::Module(j)) => i == j,
        (ComponentEntityType::Func(i), ComponentEntityType::Func(j)) => i == j,
        (ComponentEntityType::Value(v), ComponentEntityType::Value(w)) => is_same_value(v, w),
        (
            ComponentEntityType::Ty {
                created: c,
                referenced: r,
            },
            ComponentEntityType::Ty {
                created: d,
                referenced: s,
            },
        ) => is_same_type(c, d) && is_same_type(r, s),
        (ComponentEntityType::Instance(i), ComponentEntityType::Instance(j)) => i == j,
        (ComponentEntityType::Component(i), ComponentEntityType::Component(j)) => i == j,
        _ => false,
    }
}

/// Whether the pairs have these types.
pub fn have_types(pairs: &[(Text, ComponentItem)], tys: &[ComponentEntityType]) -> bool
    requires { length tys.now ≡ length pairs.now }
    ensures { result ≡ true → retyped pairs.now tys.now ≡ pairs.now }
{
    for k in 0..pairs.len() {
        if !is_same_entity(pairs[k].1.ty, tys[k]) {
            return false;
        }
    }
    true
}
