// All tables, and the one test over them.
use crate::arena::answers_of_arena;
use crate::base::a_label_is_kept;
use crate::items::an_item_is_copied;
use crate::layouts::LAYOUTS;
use crate::lists::exports_are_copied;
use crate::names::{a_key_joins_a_set, a_setter_has_a_getter};
use crate::printed::a_group_is_printed;
use crate::shared::a_shared_type_is_read_once;
use crate::states::{Question, holds, other_answer};
use std::alloc::Global;

// Whether each case is answered as is due.
fn cases(alloc: Global) -> [bool; 9] {
    [
        a_label_is_kept(alloc),
        a_group_is_printed(alloc),
        a_setter_has_a_getter(alloc),
        a_key_joins_a_set(alloc),
        an_item_is_copied(alloc),
        exports_are_copied(alloc),
        a_shared_type_is_read_once(alloc),
        holds(alloc, Question::Depth, ""),
        holds(alloc, Question::Module, ""),
    ]
}

#[test]
fn all_is_answered_as_is_due(rt: HostRuntime) {
    assert_eq!(rt; cases(rt.alloc()), [true; 9]);
    assert_eq!(rt; answers_of_arena(rt.alloc()), [true; 4]);
    assert_eq!(rt; other_answer(rt.alloc(), Question::Layout, LAYOUTS), "");
}
