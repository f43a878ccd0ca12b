// The lines of core groups.
ghost use Rattle.std.specs.Prelude.{◌≡◌, suc, sum_by, ◌+◌, ◌<◌, ◌∷◌, ◌++◌, [], List, map, codes, false, string_bytes, OnOk};
ghost use Rattle.wcv_core.specs.CoreForm.{Group};
ghost use Rattle.wcv_types.specs.CoreText.{sub_text, group_text, group_at, item_ids};
ghost use Rattle.wcv_types.specs.Quoting.{listed};
ghost use Rattle.wcv_types.specs.Text.{Written, has_group, with_group, write_groups};
ghost use Rattle.wcv_types.specs.Tree.{Text};
ghost use Rattle.wcv_text.specs.Groups.{done, all_done, visit_steps, steps_of, all_steps};
ghost use Rattle.wcv_text.specs.Numbers.{Appends, Writes, Shows, so_far};

use crate::core_ids::{Ids, named_by, older_in};
use crate::core_line::push_sub;
use crate::core_place::place;
use crate::mentions::separator_at;
use crate::numbers::Numbers;
use std::alloc::{AllocError, Global};
use std::fmt::Write;
use wcv_core::{CoreTypeId, EntityType};

/// What is still to be done.
#[derive(Clone, Copy)]
pub enum Step {
    /// Lines for the type's group and for the older ones that it names, where they have none.
    Visit(CoreTypeId),
    /// The line of the type's group, where it has none.
    Line(CoreTypeId),
}

/// Appends the types of the group that a core type stands in, with commas between them.
fn push_types(text: &mut String, numbers: &Numbers<'_>, id: CoreTypeId) -> Result<(), AllocError>
    ensures { OnOk result (Appends numbers.now (string_bytes text.old) (string_bytes text.new) (λ w. listed [] (map (sub_text w.core w.groups) (group_at w.core id.index)))) }
{
    let (first, len) = place(numbers.core, id);
    for k in 0..len {
        let index = first.index + k;
        text.push_str(separator_at(", ", k as usize))?;
        push_sub(text, numbers, numbers.core.get(CoreTypeId { index }))?;
    }
    Ok(())
}

/// Appends the form of that group.
fn push_form(text: &mut String, numbers: &Numbers<'_>, id: CoreTypeId) -> Result<(), AllocError>
    ensures { OnOk result (Appends numbers.now (string_bytes text.old) (string_bytes text.new) (λ w. group_text w.core w.groups (group_at w.core id.index))) }
{
    text.push_str("rec {")?;
    push_types(text, numbers, id)?;
    text.push_str("}")
}

/// Appends the line of that group, which has none.
fn push_line(text: &mut String, numbers: &mut Numbers<'_>, id: CoreTypeId) -> Result<(), AllocError>
    requires { has_group (so_far numbers.old []) id.index ≡ false }
    ensures shows { OnOk result (Writes numbers.old (string_bytes text.old) numbers.new (string_bytes text.new) (λ w. with_group w id.index)) }
    ensures core { numbers.new.core ≡ numbers.old.core }
{
    let number = numbers.group_lines();
    write!(text, "g{number}: ")?;
    push_form(text, numbers, id)?;
    text.push_str("\n")?;
    numbers.add_group(id)
}

/// Puts visits of the types behind the steps, the last type first, so that the first is visited next.
fn push_visits(steps: &mut Vec<Step>, ids: &Ids) -> Result<(), AllocError>
    ensures done { OnOk result ((w : Written) → all_done steps.new.items w ≡ all_done steps.old.items (write_groups w ids.now)) }
    ensures count { OnOk result ((gs : List Group) → all_steps gs steps.new.items ≡ all_steps gs steps.old.items + sum_by (λ i. visit_steps (suc i) gs i) ids.now) }
{
    for k in 0..ids.len() {
        let last = ids.len() - 1 - k;
        steps.push(Step::Visit(ids.get(last)))?;
    }
    Ok(())
}

/// Puts what a visit of the type consists of behind the steps: its group's line, and before it visits of the
/// older types that it names.
fn unfold(
    alloc: Global,
    steps: &mut Vec<Step>,
    numbers: &Numbers<'_>,
    id: CoreTypeId,
) -> Result<(), AllocError>
    requires no_line { has_group (so_far numbers.now []) id.index ≡ false }
    ensures done { OnOk result ((t : Text) → all_done steps.new.items (so_far numbers.now t) ≡ all_done steps.old.items (done (Step.Visit id) (so_far numbers.now t))) }
    ensures count { OnOk result (all_steps numbers.now.core.now steps.new.items < all_steps numbers.now.core.now steps.old.items + steps_of numbers.now.core.now (Step.Visit id)) }
{
    let named = older_in(alloc, numbers.core, id)?;
    steps.push(Step::Line(id))?;
    push_visits(steps, &named)
}

/// Takes one step, and puts what is left of it behind the others.
fn take_step(
    alloc: Global,
    text: &mut String,
    numbers: &mut Numbers<'_>,
    steps: &mut Vec<Step>,
    step: Step,
) -> Result<(), AllocError>
    ensures goes { OnOk result ((before : Text × Text) (w : Written) → Shows numbers.old before (string_bytes text.old) w → (v : Written) × Shows numbers.new before (string_bytes text.new) v × (all_done steps.new.items v ≡ all_done steps.old.items (done step w))) }
    ensures count { OnOk result (all_steps numbers.old.core.now steps.new.items < all_steps numbers.old.core.now steps.old.items + steps_of numbers.old.core.now step) }
    ensures core { numbers.new.core ≡ numbers.old.core }
{
    match step {
        Step::Visit(id) => {
            if !numbers.has_group(id) {
                unfold(alloc, steps, numbers, id)?;
            }
        }
        Step::Line(id) => {
            if !numbers.has_group(id) {
                push_line(text, numbers, id)?;
            }
        }
    }
    Ok(())
}

/// Appends lines for the group of the type and for those that it names, where they have none yet, parts before
/// the whole. The steps stand in a list of their own, so that a long chain of groups needs no deep recursion.
fn push_group(
    alloc: Global,
    text: &mut String,
    numbers: &mut Numbers<'_>,
    id: CoreTypeId,
) -> Result<(), AllocError>
    ensures shows { OnOk result (Writes numbers.old (string_bytes text.old) numbers.new (string_bytes text.new) (λ w. write_groups w (id.index ∷ []))) }
    ensures core { numbers.new.core ≡ numbers.old.core }
{
    let mut steps = Vec::new(alloc);
    steps.push(Step::Visit(id))?;
    while let Some(step) = steps.pop() {
        take_step(alloc, text, numbers, &mut steps, step)?;
    }
    Ok(())
}

/// So for the type that the core item names, where it names one.
pub fn push_groups(
    alloc: Global,
    text: &mut String,
    numbers: &mut Numbers<'_>,
    item: EntityType,
) -> Result<(), AllocError>
    ensures shows { OnOk result (Writes numbers.old (string_bytes text.old) numbers.new (string_bytes text.new) (λ w. write_groups w (item_ids item))) }
    ensures core { numbers.new.core ≡ numbers.old.core }
{
    match named_by(item) {
        Some(id) => push_group(alloc, text, numbers, id),
        None => Ok(()),
    }
}
