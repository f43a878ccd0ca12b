// Functions, as names speak of them.
ghost use Rattle.std.specs.Prelude.{◌≡◌};
ghost use Rattle.wcv_syntax.specs.NameViews.{kind_view};
ghost use Rattle.wcv_names.specs.ResourceNames.{names_of};
ghost use Rattle.wcv_names.specs.Rules as rules;
ghost use Rattle.wcv_syntax.specs.ExternName.{get as gets, set as sets};
ghost use Rattle.wcv_names.specs.Shapes.{option_tree, param_trees, FuncStands, ParamsStand, rest_of};

use crate::context::ComponentNameContext;
use crate::values::{if_ok, is_left_out};
use wcv_core::Text;
use wcv_syntax::ComponentNameKind;
use wcv_types::{ComponentFuncType, ComponentValType, TypeAlloc};

/// The parameters behind the first.
pub fn behind_first(params: &[(Text, ComponentValType)]) -> &[(Text, ComponentValType)]
    ensures { result.now ≡ rest_of params.now }
{
    match params {
        [_, rest @ ..] => rest,
        [] => params,
    }
}

/// Whether a function with these parameters besides `self` is a getter.
fn is_getter(
    func: &ComponentFuncType,
    params: &[(Text, ComponentValType)],
    types: &TypeAlloc,
) -> bool
    requires { FuncStands types.now func.now }
    ensures { result ≡ rules.is_used_so gets func.now.async_ (param_trees types.now params.now) (option_tree types.now func.now.result) }
{
    if func.async_ || !params.is_empty() {
        return false;
    }
    let value = if_ok(types, func.result);
    !is_left_out(types, value)
}

/// Whether it is a setter.
fn is_setter(
    func: &ComponentFuncType,
    params: &[(Text, ComponentValType)],
    types: &TypeAlloc,
) -> bool
    requires { FuncStands types.now func.now }
    ensures { result ≡ rules.is_used_so sets func.now.async_ (param_trees types.now params.now) (option_tree types.now func.now.result) }
{
    if func.async_ || params.len() != 1 {
        return false;
    }
    let value = if_ok(types, func.result);
    is_left_out(types, value)
}

impl ComponentNameContext {
    /// Whether the first parameter is `self`, a borrow of what has the name.
    fn takes_self(&self, params: &[(Text, ComponentValType)], types: &TypeAlloc, name: &str) -> bool
        requires { ParamsStand types.now params.now }
        ensures { result ≡ rules.takes_self (names_of self.now) name.now (param_trees types.now params.now) }
    {
        match params.first() {
            Some(param) => {
                param.0.as_str() == "self" && self.is_borrow(types, Some(param.1), name)
            }
            None => false,
        }
    }

    /// Whether the function looks as the name says.
    pub fn function_fits(
        &self,
        kind: &ComponentNameKind<'_>,
        func: &ComponentFuncType,
        types: &TypeAlloc,
    ) -> bool
        requires { FuncStands types.now func.now }
        ensures { result ≡ rules.function_fits (names_of self.now) (kind_view kind.now) func.now.async_ (param_trees types.now func.now.params.items) (option_tree types.now func.now.result) }
    {
        let params = func.params.as_slice();
        let rest = behind_first(params);
        match kind {
            ComponentNameKind::Label(_) | ComponentNameKind::Interface(_) => true,
            ComponentNameKind::Getter(_) => is_getter(func, params, types),
            ComponentNameKind::Setter(_) => is_setter(func, params, types),
            ComponentNameKind::Constructor(resource) => {
                let made = if_ok(types, func.result);
                !func.async_ && self.is_own(types, made, resource)
            }
            ComponentNameKind::Method(resource, _) => self.takes_self(params, types, resource),
            ComponentNameKind::MethodGetter(resource, _) => {
                self.takes_self(params, types, resource) && is_getter(func, rest, types)
            }
            ComponentNameKind::MethodSetter(resource, _) => {
                self.takes_self(params, types, resource) && is_setter(func, rest, types)
            }
            ComponentNameKind::Static(resource, _) => self.has_name(resource),
            ComponentNameKind::StaticGetter(resource, _) => {
                self.has_name(resource) && is_getter(func, params, types)
            }
            ComponentNameKind::StaticSetter(resource, _) => {
                self.has_name(resource) && is_setter(func, params, types)
            }
        }
    }
}
