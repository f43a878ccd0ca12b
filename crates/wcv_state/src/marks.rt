// The mark on states that a call refused.
ghost use Rattle.std.specs.Prelude.{◌≡◌};
ghost use Rattle.wcv_state.specs.Stack.{all_spent};

use crate::state::ComponentState;

/// Marks each of the states as spent.
pub fn mark_all_spent(components: &mut [ComponentState])
    ensures { components.new ≡ all_spent components.old }
{
    for state in components.iter_mut() {
        state.mark_spent();
    }
}
