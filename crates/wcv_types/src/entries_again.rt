// Imports, exports and resources of a node, copied for a node with other parts.
ghost use Rattle.std.specs.Prelude.{◌≡◌, [], ◌∷◌, ◌++◌, IfOk, OnOk};
ghost use Rattle.std.specs.Map.{keys_of};
ghost use Rattle.wcv_types.specs.Rebuild.{FillsSlot, Fills, after_slot, refill_slot, refill, after};
ghost use Rattle.wcv_types.specs.Tree.{Role, Extern_name};
ghost use Rattle.wcv_types.specs.Unfold.{entity_slot, entry_name, entry_slots};

use crate::again::copy_text;
use crate::item_map::{ComponentItem, ItemMap};
use crate::paths::Paths;
use crate::refill::Refill;
use std::alloc::Global;
use wcv_core::{OutOfMemory, Place, Text};

/// A copy of the text, where it is there.
pub fn copy_option(alloc: Global, text: &Option<Text>) -> Result<Option<Text>, OutOfMemory>
    ensures { IfOk result (λ t. t ≡ text.now) }
{
    match text {
        None => Ok(None),
        Some(text) => Ok(Some(copy_text(alloc, text)?)),
    }
}

/// The entry with other parts joins those that were made.
fn push_again(
    alloc: Global,
    entry: &(Text, ComponentItem),
    parts: &mut Refill<'_>,
    again: &mut ItemMap,
) -> Result<(), OutOfMemory>
    requires { FillsSlot (entity_slot entry.now.1.ty) parts.old }
    ensures slots { OnOk result ((role : Extern_name → Role) → entry_slots role again.new ≡ entry_slots role again.old ++ (role (entry_name entry.now), refill_slot (entity_slot entry.now.1.ty) parts.old) ∷ []) }
    ensures left { OnOk result (parts.new ≡ after_slot (entity_slot entry.now.1.ty) parts.old) }
{
    let ty = parts.entity(entry.1.ty);
    again.push_copy(alloc, entry, ty)
}

/// The entries with other parts.
#[tactic(auto, using(crate::proofs::EntriesRefilled::none_yet, crate::proofs::EntriesRefilled::all_made))]
pub fn entries_again(
    alloc: Global,
    entries: &[(Text, ComponentItem)],
    parts: &mut Refill<'_>,
) -> Result<ItemMap, OutOfMemory>
    requires { (role : Extern_name → Role) → Fills (entry_slots role entries.now) parts.old }
    ensures slots { IfOk result (λ es. (role : Extern_name → Role) → entry_slots role es ≡ refill (entry_slots role entries.now) parts.old) }
    ensures names { IfOk result (λ es. keys_of es ≡ keys_of entries.now) }
    ensures left { OnOk result ((role : Extern_name → Role) → parts.new ≡ after (entry_slots role entries.now) parts.old) }
{
    let mut again = ItemMap::new(alloc);
    for entry in entries {
        push_again(alloc, entry, parts, &mut again)?;
    }
    Ok(again)
}

/// A copy of resources and the places where they stand.
pub fn copy_paths(alloc: Global, paths: &Paths) -> Result<Paths, OutOfMemory>
    ensures { IfOk result (λ copied. copied ≡ paths.now) }
{
    let mut copied = Paths::new(alloc);
    for k in 0..paths.len() {
        match paths.get_index(k) {
            Some((resource, place)) => {
                copied.insert(*resource, Place::new(alloc, place.positions())?)?;
            }
            None => unreachable!(),
        }
    }
    Ok(copied)
}
