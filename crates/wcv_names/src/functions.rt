// Functions of an arena, and what getters and setters have to do with each other.
ghost use Rattle.std.specs.Prelude.{◌≡◌, Some};
ghost use Rattle.wcv_syntax.specs.NameViews.{kind_view};
ghost use Rattle.wcv_types.specs.Entities.{entity_tree, EntityStands};
ghost use Rattle.wcv_types.specs.Standing.{Stands};
ghost use Rattle.wcv_types.specs.Unfold.{tree_at, trees};
ghost use Rattle.wcv_types.specs.declared.ids.Part.TheVariants as part;
ghost use Rattle.wcv_names.specs.FuncTrees.{IsFunction, func_part as func_part_of};
ghost use Rattle.wcv_names.specs.Rules as rules;
ghost use Rattle.wcv_names.specs.Shapes.{option_tree, OptionStands, param_trees, ParamsStand, FuncStands};

use crate::shapes::behind_first;
use crate::values::if_ok;
use wcv_core::Text;
use wcv_syntax::ComponentNameKind;
use wcv_types::{
    ComponentEntityType, ComponentFuncType, ComponentFuncTypeId, ComponentValType, TypeAlloc,
};

/// The function type that the entity is, if it is one.
pub fn func_part(ty: &ComponentEntityType) -> Option<ComponentFuncTypeId>
    ensures { result ≡ func_part_of ty.now }
{
    match ty {
        ComponentEntityType::Func(id) => Some(*id),
        _ => None,
    }
}

/// The function type.
#[tactic(auto, using(crate::proofs::FuncTrees::func_stands, crate::proofs::FuncTrees::is_function))]
pub fn func_of(types: &TypeAlloc, id: ComponentFuncTypeId) -> &ComponentFuncType
    requires { Stands types.now (part.Func id) }
    ensures stands { FuncStands types.now result.now }
    ensures tree { IsFunction types.now (tree_at types.now (part.Func id)) result.now }
{
    types.get(id)
}

/// The value that a getter gives; none of what is no getter.
#[tactic(auto, using(crate::proofs::FuncTrees::entity_func, crate::proofs::FuncTrees::entity_is_func, crate::proofs::FuncTrees::function_gives, crate::proofs::FuncTrees::other_gives))]
pub fn gotten(ty: &ComponentEntityType, types: &TypeAlloc) -> Option<ComponentValType>
    requires { EntityStands types.now ty.now }
    ensures tree { option_tree types.now result ≡ rules.gotten (entity_tree (trees types.now.nodes) ty.now) }
    ensures stands { OptionStands types.now result }
{
    match func_part(ty) {
        Some(id) => {
            let func = func_of(types, id);
            if_ok(types, func.result)
        }
        None => None,
    }
}

/// The type of the first parameter.
fn first_type(params: &[(Text, ComponentValType)], types: &TypeAlloc) -> Option<ComponentValType>
    requires { ParamsStand types.now params.now }
    ensures tree { option_tree types.now result ≡ rules.first_type (param_trees types.now params.now) }
    ensures stands { OptionStands types.now result }
{
    let _ = types;
    match params.first() {
        Some(param) => Some(param.1),
        None => None,
    }
}

/// The value that a setter takes.
pub fn taken(
    kind: &ComponentNameKind<'_>,
    func: &ComponentFuncType,
    types: &TypeAlloc,
) -> Option<ComponentValType>
    requires { FuncStands types.now func.now }
    ensures tree { option_tree types.now result ≡ rules.taken (kind_view kind.now) (param_trees types.now func.now.params.items) }
    ensures stands { OptionStands types.now result }
{
    let params = func.params.as_slice();
    match kind {
        ComponentNameKind::Method(_, _)
        | ComponentNameKind::MethodGetter(_, _)
        | ComponentNameKind::MethodSetter(_, _) => first_type(behind_first(params), types),
        _ => first_type(params, types),
    }
}
