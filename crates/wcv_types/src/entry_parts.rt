// The parts of imports and exports.
ghost use Rattle.std.specs.Prelude.{◌≡◌, ◌≤◌, ◌+◌, ◌++◌, length, slice_get, option_to_list, OnOk};
ghost use Rattle.wcv_types.specs.Entities.{entry_parts};
ghost use Rattle.wcv_types.specs.Unfold.{any_part, entity_slot, slot_refs};

use crate::ids::{ComponentAnyTypeId, Part};
use crate::item_map::ComponentItem;
use crate::parts::Parts;
use crate::shapes::{ComponentEntityType, ComponentValType};
use wcv_core::{OutOfMemory, Text};

/// The id as a part.
pub fn part_of_any(id: ComponentAnyTypeId) -> Part
    ensures { result ≡ any_part id }
{
    match id {
        ComponentAnyTypeId::Resource(id) => Part::Resource(id),
        ComponentAnyTypeId::Defined(id) => Part::Defined(id),
        ComponentAnyTypeId::Func(id) => Part::Func(id),
        ComponentAnyTypeId::Instance(id) => Part::Instance(id),
        ComponentAnyTypeId::Component(id) => Part::Component(id),
    }
}

/// The first part of what is imported or exported: of a type, the node that the entry makes.
fn first_part(ty: ComponentEntityType) -> Option<Part>
    ensures { result ≡ slice_get (slot_refs (entity_slot ty)) 0 }
{
    match ty {
        ComponentEntityType::Module(id) => Some(Part::Module(id)),
        ComponentEntityType::Func(id) => Some(Part::Func(id)),
        ComponentEntityType::Value(ComponentValType::Primitive(_)) => None,
        ComponentEntityType::Value(ComponentValType::Ty(id)) => Some(Part::Defined(id)),
        ComponentEntityType::Ty { created, .. } => Some(part_of_any(created)),
        ComponentEntityType::Instance(id) => Some(Part::Instance(id)),
        ComponentEntityType::Component(id) => Some(Part::Component(id)),
    }
}

/// The second: of a type, the node that the entry names.
fn second_part(ty: ComponentEntityType) -> Option<Part>
    ensures { result ≡ slice_get (slot_refs (entity_slot ty)) 1 }
{
    match ty {
        ComponentEntityType::Ty { referenced, .. } => Some(part_of_any(referenced)),
        _ => None,
    }
}

/// How many parts there are.
fn count_entity(ty: ComponentEntityType) -> usize
    ensures count { result ≡ length (slot_refs (entity_slot ty)) }
    ensures bound { result ≤ 2 }
{
    match ty {
        ComponentEntityType::Value(ComponentValType::Primitive(_)) => 0,
        ComponentEntityType::Ty { .. } => 2,
        _ => 1,
    }
}

/// How many parts the entries have.
#[tactic(auto, using(crate::proofs::EntryLists::count_next, crate::proofs::EntryLists::all_counted))]
pub fn count_entries(entries: &[(Text, ComponentItem)]) -> usize
    ensures count { result ≡ length (entry_parts entries.now) }
    ensures bound { result ≤ length entries.now + length entries.now }
{
    let mut count = 0;
    for entry in entries {
        count += count_entity(entry.1.ty);
    }
    count
}

/// The k-th part of the entries.
#[tactic(auto, using(crate::proofs::EntryLists::next_entry, crate::proofs::EntryLists::no_entry))]
pub fn nth_entry_part(entries: &[(Text, ComponentItem)], k: usize) -> Option<Part>
    ensures { result ≡ slice_get (entry_parts entries.now) k }
{
    let mut left = k;
    for entry in entries {
        let count = count_entity(entry.1.ty);
        if left < count {
            return if left == 0 {
                first_part(entry.1.ty)
            } else {
                second_part(entry.1.ty)
            };
        }
        left -= count;
    }
    None
}

/// The part joins the list, where it is there.
fn push_some(part: Option<Part>, parts: &mut Parts) -> Result<(), OutOfMemory>
    ensures { OnOk result (parts.new ≡ parts.old ++ option_to_list part) }
{
    match part {
        Some(part) => parts.push(part),
        None => Ok(()),
    }
}

/// The parts of what is imported or exported join the list, in order.
#[tactic(auto, using(crate::proofs::EntryLists::entity_pushed))]
pub fn push_entity(ty: ComponentEntityType, parts: &mut Parts) -> Result<(), OutOfMemory>
    ensures { OnOk result (parts.new ≡ parts.old ++ slot_refs (entity_slot ty)) }
{
    push_some(first_part(ty), parts)?;
    push_some(second_part(ty), parts)
}

/// So do the parts of the entries.
#[tactic(auto, using(crate::proofs::EntryLists::next_entry, crate::proofs::EntryLists::no_entry))]
pub fn push_entries(entries: &[(Text, ComponentItem)], parts: &mut Parts) -> Result<(), OutOfMemory>
    ensures { OnOk result (parts.new ≡ parts.old ++ entry_parts entries.now) }
{
    for entry in entries {
        push_entity(entry.1.ty, parts)?;
    }
    Ok(())
}
