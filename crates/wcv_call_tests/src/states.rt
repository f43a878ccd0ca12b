// What is asked over a state with nothing in it, in a list, and an arena: one function owns them.
ghost use Rattle.std.specs.Prelude.{IfOk};
ghost use Rattle.wcv_decls.specs.Declaring.{AreReady};
ghost use Rattle.wcv_types.specs.Arena.{Arena};

use crate::depth::a_hundred_are_open;
use crate::joining::types_are_laid_out;
use crate::modules::a_module_is_exported;
use bitflags::Flags;
use std::alloc::Global;
use wcv_core::{OutOfMemory, WasmFeatures};
use wcv_state::{ComponentKind, ComponentState};
use wcv_types::TypeAlloc;

/// A component with nothing in it, where each feature holds, alone.
fn alone(alloc: Global) -> Result<Vec<ComponentState>, OutOfMemory>
    ensures { IfOk result (λ states. (a : Arena) → AreReady a states.items) }
{
    let mut states = Vec::new(alloc);
    states.push(ComponentState::new(alloc, ComponentKind::Component, WasmFeatures::all()))?;
    Ok(states)
}

/// What is asked.
#[derive(Clone, Copy)]
pub enum Question {
    Depth,
    Module,
    Layout,
}

/// Whether the answer is the one that is due.
fn answers(
    alloc: Global,
    question: Question,
    line: &str,
    states: &mut Vec<ComponentState>,
    types: &mut TypeAlloc,
) -> bool
    requires { AreReady types.old states.old.items }
{
    match question {
        Question::Depth => a_hundred_are_open(states, types),
        Question::Module => a_module_is_exported(alloc, &mut states[0], types),
        Question::Layout => types_are_laid_out(alloc, line, states, types),
    }
}

// So over a state and an arena with nothing in them.
pub fn holds(alloc: Global, question: Question, line: &str) -> bool {
    match alone(alloc) {
        Ok(mut states) => {
            let mut types = TypeAlloc::new(alloc, WasmFeatures::all());
            answers(alloc, question, line, &mut states, &mut types)
        }
        Err(_) => false,
    }
}

/// The first line of which the answer is another than is due, or no text.
pub fn other_answer<'a>(alloc: Global, question: Question, lines: &'a str) -> &'a str {
    for line in lines.split('\n') {
        if !holds(alloc, question, line) {
            return line;
        }
    }
    ""
}
