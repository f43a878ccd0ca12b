// What is known of a function type, from the arena.
ghost use Rattle.std.specs.Prelude.{◌≡◌, [], ◌∷◌, All};
ghost use Rattle.wcv_types.specs.Facts.{IsFactsOf};
ghost use Rattle.wcv_types.specs.Standing.{Stands, Fits};
ghost use Rattle.wcv_types.specs.Sums.{IsSumOf};
ghost use Rattle.wcv_types.specs.Tree.{here};
ghost use Rattle.wcv_types.specs.Unfold.{field_slots, option_slot, parts_in, slot_parts, tree_of, trees};
ghost use Rattle.wcv_types.specs.declared.arena.Node.TheVariants as n;

use crate::arena::TypeAlloc;
use crate::defined_facts::value_facts;
use crate::facts::{Facts, nothing_abi};
use crate::info::TypeInfo;
use crate::lowered_types::LoweredTypes;
use crate::shapes::{ComponentFuncType, ComponentValType};
use crate::sum::Sum;
use wcv_core::Text;

/// What is known of the parameters and the result, added up.
fn func_sum(
    types: &TypeAlloc,
    params: &[(Text, ComponentValType)],
    gives: Option<ComponentValType>,
) -> Sum
    requires { All (Stands types.now) (parts_in (field_slots params.now ((here, option_slot gives) ∷ []))) }
    ensures { IsSumOf result (slot_parts (trees types.now.nodes) (field_slots params.now ((here, option_slot gives) ∷ []))) }
{
    let mut sum = Sum::new();
    for param in params {
        sum.add(value_facts(types, Some(param.1)));
    }
    sum.add(value_facts(types, gives));
    sum
}

impl ComponentFuncType {
    /// The function type over these parameters and this result, with its size and its depth.
    pub fn over(
        types: &TypeAlloc,
        async_: bool,
        params: Vec<(Text, ComponentValType)>,
        gives: Option<ComponentValType>,
    ) -> ComponentFuncType
        requires { All (Stands types.now) (parts_in (field_slots params.items ((here, option_slot gives) ∷ []))) }
        ensures fits { Fits types.now (n.Func result) }
        ensures mark { result.async_ ≡ async_ }
        ensures params { result.params ≡ params }
        ensures gives { result.result ≡ gives }
    {
        let sum = func_sum(types, &params, gives);
        ComponentFuncType {
            async_,
            info: TypeInfo {
                size: sum.size.saturating_add(1),
                depth: sum.depth.saturating_add(1),
            },
            params,
            result: gives,
        }
    }
}

/// What is known of a function type that may be added to the arena.
pub fn func_facts(types: &TypeAlloc, shape: &ComponentFuncType) -> Facts
    requires { Fits types.now (n.Func shape.now) }
    ensures { IsFactsOf result (tree_of (trees types.now.nodes) (n.Func shape.now)) }
{
    let sum = func_sum(types, &shape.params, shape.result);
    Facts {
        info: shape.info,
        abi: nothing_abi(),
        plain: sum.plain,
        refers: sum.refers,
        flat: LoweredTypes::new(),
    }
}
