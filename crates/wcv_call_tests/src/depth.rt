// How deep components may stand in one another, which no listing reaches: JSON's own nesting ends before.
ghost use Rattle.wcv_decls.specs.Declaring.{AreReady};

use wcv_core::ErrorKind;
use wcv_decls::open_component;
use wcv_state::ComponentState;
use wcv_types::TypeAlloc;

/// A hundred components may be open, and no more.
pub fn a_hundred_are_open(states: &mut Vec<ComponentState>, types: &TypeAlloc) -> bool
    requires { AreReady types.now states.old.items }
{
    for offset in 0..101 {
        if let Err(error) = open_component(0, states, types, offset) {
            return error.kind() == ErrorKind::Limit && error.offset() == 99 && states.len() == 100;
        }
    }
    false
}
