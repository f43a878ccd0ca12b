// Instances are added to a state call by call, where what the call asks is given by a law.
ghost use Rattle.std.specs.Prelude.{[], ◌∷◌, OnOk};
ghost use Rattle.wcv_syntax.specs.View.{instance_view};
ghost use Rattle.wcv_lower.specs.Checks.{IsFree};
ghost use Rattle.wcv_lower.specs.Instances.{instance_left};
ghost use Rattle.wcv_state.specs.Stack.{IsOpen};
ghost use Rattle.wcv_link.specs.Reached.{IsReached};

use wcv_core::Error;
use wcv_link::{Instances, states_that_are_reached_may_instantiate};
use wcv_state::ComponentState;
use wcv_syntax::ComponentInstance;
use wcv_types::TypeAlloc;

/// An instance, of a component or of items, joins a state that is reached, which it stays.
pub fn add_to_reached(
    instance: ComponentInstance,
    state: &mut ComponentState,
    types: &mut TypeAlloc,
) -> Result<(), Error>
    requires reached { IsReached types.old (state.old ∷ []) }
    requires open { IsOpen types.old state.old }
    requires left { IsFree (instance_left (instance_view instance)) }
    ensures reached { OnOk result (IsReached types.new (state.new ∷ [])) }
{
    states_that_are_reached_may_instantiate();
    state.add_instance(instance, types, 0)
}
