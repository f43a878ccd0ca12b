// The lines of nodes.
ghost use Rattle.std.specs.Prelude.{◌≡◌, [], ◌∷◌, ◌++◌, Some, false, string_bytes, OnOk};
ghost use Rattle.wcv_types.specs.Standing.{HasIdentity, Stands, identity_of};
ghost use Rattle.wcv_types.specs.Text.{has_line, with_resources};
ghost use Rattle.wcv_types.specs.Tree.{Text, head};
ghost use Rattle.wcv_types.specs.Unfold.{tree_at};
ghost use Rattle.wcv_text.specs.LineList.{say_node};
ghost use Rattle.wcv_text.specs.Nodes.{form_of, own_line};
ghost use Rattle.wcv_text.specs.Numbers.{so_far, Appends, Writes};

use crate::core_item_line::push_module;
use crate::defined_line::push_defined;
use crate::entry_list::{push_component, push_instance};
use crate::func_line::push_func;
use crate::identity;
use crate::item_groups::push_items;
use crate::numbers::Numbers;
use crate::resource_line::push_reference;
use std::alloc::AllocError;
use std::fmt::Write;
use wcv_types::{Part, TypeAlloc};

/// Appends the form of the type, and gives numbers to the resources that it mentions.
fn push_form(
    text: &mut String,
    numbers: &mut Numbers<'_>,
    types: &TypeAlloc,
    part: Part,
) -> Result<(), AllocError>
    requires stands { Stands types.now part }
    requires line { HasIdentity part }
    ensures given { OnOk result ((t : Text) → so_far numbers.new t ≡ with_resources (so_far numbers.old t) (head (tree_at types.now part))) }
    ensures form { OnOk result (Appends numbers.new (string_bytes text.old) (string_bytes text.new) (λ w. form_of w (tree_at types.now part))) }
{
    match part {
        Part::Defined(id) => push_defined(text, numbers, types.get(id)),
        Part::Func(id) => push_func(text, numbers, types.get(id)),
        Part::Resource(id) => push_reference(text, numbers, id.resource()),
        Part::Instance(id) => push_instance(text, numbers, types.get(id)),
        Part::Component(id) => push_component(text, numbers, types.get(id)),
        Part::Module(id) => push_module(text, numbers, types.get(id)),
        Part::CoreInstance(_) => Ok(()),
        Part::Core(_) => unreachable!(),
    }
}

/// Appends the own line of a type that has none.
fn push_line(
    text: &mut String,
    numbers: &mut Numbers<'_>,
    types: &TypeAlloc,
    part: Part,
) -> Result<(), AllocError>
    requires stands { Stands types.now part }
    requires line { HasIdentity part }
    requires no_line { has_line (so_far numbers.old []) (Some (identity_of part)) ≡ false }
    ensures { OnOk result (Writes numbers.old (string_bytes text.old) numbers.new (string_bytes text.new) (own_line part (tree_at types.now part))) }
{
    let number = numbers.lines();
    write!(text, "{number}: ")?;
    push_form(text, numbers, types, part)?;
    text.push_str("\n")?;
    numbers.add_line(identity::identity_of(part))
}

/// Appends the line of the type behind those of the core groups that its core items name, where it has none yet.
pub fn push_node(
    text: &mut String,
    numbers: &mut Numbers<'_>,
    types: &TypeAlloc,
    part: Part,
) -> Result<(), AllocError>
    requires stands { Stands types.now part }
    requires line { HasIdentity part }
    ensures { OnOk result (Writes numbers.old (string_bytes text.old) numbers.new (string_bytes text.new) (say_node types.now part)) }
{
    if numbers.has_line(identity::identity_of(part)) {
        return Ok(());
    }
    push_items(text, numbers, types, part)?;
    push_line(text, numbers, types, part)
}
