// States of declared types and of components, which stand on top of the others while what is inside them is
// read.
ghost use Rattle.std.specs.Prelude.{◌≡◌, ◌+◌, ◌++◌, OnOk, OnErr, IfErr};
ghost use Rattle.wcv_core.specs.Limits.{max_open};
ghost use Rattle.wcv_lower.specs.Checks.{IsFree, no_type_room, too_many};
ghost use Rattle.wcv_lower.specs.Context.{counts};
ghost use Rattle.wcv_lower.specs.Declared.{full_stack};
ghost use Rattle.wcv_spaces.specs.Contents.{kind_of};
ghost use Rattle.wcv_spaces.specs.Promises.{MemoryOrCausedBy};
ghost use Rattle.wcv_decls.specs.Declaring.{stack_in, top_in, AreReady, Opened};

use crate::core_type::innermost;
use crate::room::check_types;
use wcv_core::limits::MAX_OPEN;
use wcv_core::{Error, ErrorKind, OutOfMemory, Refusal, Why};
use wcv_state::{ComponentKind, ComponentState};
use wcv_types::TypeAlloc;

/// Whether one more may be open. What it is, is for the message.
pub fn check_open(count: usize, word: &'static str, offset: u64) -> Result<(), Refusal<'static>>
    ensures ok { OnOk result (IsFree (too_many max_open (count + 1))) }
    ensures err { IfErr result (MemoryOrCausedBy (too_many max_open (count + 1)) offset) }
{
    if count >= MAX_OPEN {
        let why = Why::new(
            "no room for one more open %w: there are %1 open components and types, at most %2 are allowed",
        );
        let why = why.word(word).numbers([count as u64, MAX_OPEN as u64, 0]);
        return Err(Error::new(ErrorKind::Limit, offset, why));
    }
    Ok(())
}

/// Whether a declared type may be read: there is room for one more open type, and for its own type at the end.
fn check_declared(
    components: &[ComponentState],
    types: &TypeAlloc,
    offset: u64,
    check_limit: bool,
) -> Result<(), Refusal<'static>>
    requires { AreReady types.now components.now }
    ensures full { OnOk result (IsFree (full_stack (stack_in types.now components.now))) }
    ensures room { OnOk result (IsFree (no_type_room check_limit (counts (top_in types.now components.now)))) }
    ensures err { IfErr result (MemoryOrCausedBy (full_stack (stack_in types.now components.now) ++ no_type_room check_limit (counts (top_in types.now components.now))) offset) }
{
    check_open(components.len(), "type", offset)?;
    check_types(check_limit, innermost(components), types, offset)
}

/// A state that is new stands on top of the others. Out of memory these stay as they were.
pub fn push_state(
    kind: ComponentKind,
    components: &mut Vec<ComponentState>,
    types: &TypeAlloc,
) -> Result<(), OutOfMemory>
    requires { AreReady types.now components.old.items }
    ensures ok { OnOk result (Opened (kind_of kind) types.now components.old.items components.new.items) }
    ensures ready { OnOk result (AreReady types.now components.new.items) }
    ensures same { OnErr result (components.new.items ≡ components.old.items) }
{
    let features = *innermost(components.as_slice()).features();
    let state = ComponentState::new(types.allocator(), kind, features);
    components.push(state)?;
    Ok(())
}

/// Opens a declared type of that kind, where nothing bars it.
pub fn open_type(
    kind: ComponentKind,
    components: &mut Vec<ComponentState>,
    types: &TypeAlloc,
    offset: u64,
    check_limit: bool,
) -> Result<(), Error>
    requires { AreReady types.now components.old.items }
    ensures ok { OnOk result (Opened (kind_of kind) types.now components.old.items components.new.items) }
    ensures ready { OnOk result (AreReady types.now components.new.items) }
    ensures full { OnOk result (IsFree (full_stack (stack_in types.now components.old.items))) }
    ensures room { OnOk result (IsFree (no_type_room check_limit (counts (top_in types.now components.old.items)))) }
    ensures err { IfErr result (MemoryOrCausedBy (full_stack (stack_in types.now components.old.items) ++ no_type_room check_limit (counts (top_in types.now components.old.items))) offset) }
    ensures same { OnErr result (components.new.items ≡ components.old.items) }
{
    check_declared(components.as_slice(), types, offset, check_limit)?;
    push_state(kind, components, types)?;
    Ok(())
}
