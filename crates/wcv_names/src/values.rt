// Value types, as names speak of them.
ghost use Rattle.std.specs.Prelude.{◌≡◌, option_copied};
ghost use Rattle.wcv_types.specs.NamedBySet.{node_id};
ghost use Rattle.wcv_names.specs.ResourceNames.{names_of};
ghost use Rattle.wcv_names.specs.Rules as rules;
ghost use Rattle.wcv_names.specs.Shapes.{option_tree, OptionStands, IsShape, IsShapeOf, own_part, borrow_part, ok_part};

use crate::context::ComponentNameContext;
use wcv_types::{
    AliasableResourceId, ComponentDefinedType, ComponentDefinedTypeId, ComponentValType, TypeAlloc,
};

/// The node that the value type is, where it is there and is one.
fn node_of(ty: Option<ComponentValType>) -> Option<ComponentDefinedTypeId>
    ensures { result ≡ node_id ty }
{
    match ty {
        Some(ComponentValType::Ty(id)) => Some(id),
        _ => None,
    }
}

/// What the value type is made of, if it is a node.
#[tactic(auto, using(crate::proofs::Shaping::node_there, crate::proofs::Shaping::node_shape, crate::proofs::Shaping::node_stands))]
fn shape_of(types: &TypeAlloc, ty: Option<ComponentValType>) -> Option<&ComponentDefinedType>
    requires { OptionStands types.now ty }
    ensures shape { IsShape types.now ty (option_copied result) }
    ensures stands { IsShapeOf types.now (option_copied result) }
{
    match node_of(ty) {
        Some(id) => Some(types.get(id)),
        None => None,
    }
}

/// What an owning handle owns.
fn owned(shape: Option<&ComponentDefinedType>) -> Option<AliasableResourceId>
    ensures { result ≡ own_part (option_copied shape.entry) }
{
    match shape {
        Some(ComponentDefinedType::Own(id)) => Some(*id),
        _ => None,
    }
}

/// What a borrowing handle borrows.
fn borrowed(shape: Option<&ComponentDefinedType>) -> Option<AliasableResourceId>
    ensures { result ≡ borrow_part (option_copied shape.entry) }
{
    match shape {
        Some(ComponentDefinedType::Borrow(id)) => Some(*id),
        _ => None,
    }
}

/// What a `result` holds where it is ok.
fn ok_of(shape: Option<&ComponentDefinedType>) -> Option<Option<ComponentValType>>
    ensures { result ≡ ok_part (option_copied shape.entry) }
{
    match shape {
        Some(ComponentDefinedType::Result { ok, .. }) => Some(*ok),
        _ => None,
    }
}

/// Of a `result` what it holds where it is ok, of other types themselves.
#[tactic(auto, using(crate::proofs::Shaping::ok_tree, crate::proofs::Shaping::no_ok_tree, crate::proofs::Shaping::ok_stands))]
pub fn if_ok(types: &TypeAlloc, ty: Option<ComponentValType>) -> Option<ComponentValType>
    requires { OptionStands types.now ty }
    ensures tree { option_tree types.now result ≡ rules.if_ok (option_tree types.now ty) }
    ensures stands { OptionStands types.now result }
{
    let shape = shape_of(types, ty);
    match ok_of(shape) {
        Some(ok) => ok,
        None => ty,
    }
}

/// Whether the value type is left out.
#[tactic(auto, using(crate::proofs::Shaping::left_out_is))]
pub fn is_left_out(types: &TypeAlloc, ty: Option<ComponentValType>) -> bool
    requires { OptionStands types.now ty }
    ensures { result ≡ rules.is_left_out (option_tree types.now ty) }
{
    let _ = shape_of(types, ty);
    ty.is_none()
}

impl ComponentNameContext {
    /// Whether the value type is a handle that owns what has the name.
    #[tactic(auto, using(crate::proofs::Shaping::own_tree, crate::proofs::Shaping::no_own_tree))]
    pub fn is_own(&self, types: &TypeAlloc, ty: Option<ComponentValType>, name: &str) -> bool
        requires { OptionStands types.now ty }
        ensures { result ≡ rules.is_own (names_of self.now) name.now (option_tree types.now ty) }
    {
        let shape = shape_of(types, ty);
        match owned(shape) {
            Some(id) => self.is_named(&id, name),
            None => false,
        }
    }

    /// Whether the value type is a handle that borrows what has the name.
    #[tactic(auto, using(crate::proofs::Shaping::borrow_tree, crate::proofs::Shaping::no_borrow_tree))]
    pub fn is_borrow(&self, types: &TypeAlloc, ty: Option<ComponentValType>, name: &str) -> bool
        requires { OptionStands types.now ty }
        ensures { result ≡ rules.is_borrow (names_of self.now) name.now (option_tree types.now ty) }
    {
        let shape = shape_of(types, ty);
        match borrowed(shape) {
            Some(id) => self.is_named(&id, name),
            None => false,
        }
    }
}
