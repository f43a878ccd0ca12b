// Lists of parts.
ghost use Rattle.std.specs.Prelude.{◌≡◌, suc, [], ◌∷◌, ◌++◌, length, slice_get, option_copied, MatchOption, OnOk, OnErr};
ghost use Rattle.wcv_types.specs.Unfold.{parts_in, field_slots, option_slot, rank, slot_refs};

use crate::ids::Part;
use crate::shapes::ComponentValType;
use std::alloc::Global;
use std::marker::Model;
use wcv_core::{OutOfMemory, Text};

/// Parts of a type, in order. Contracts see it as the list of them.
#[derive(Drop)]
pub struct Parts {
    parts: Vec<Part>,
}

impl Model for Parts {
    ghost use Rattle.std.specs.Prelude.{List};
    ghost use Rattle.wcv_types.specs.declared.ids.Part.{Part};

    ghost Value = { List Part };

    ghost view = { λ p. p.parts.items };
}

impl Parts {
    /// No part.
    pub fn new(alloc: Global) -> Parts
        ensures { result ≡ [] }
    {
        Parts {
            parts: Vec::new(alloc),
        }
    }

    /// One more part, behind all others. Out of memory nothing changes.
    pub fn push(&mut self, part: Part) -> Result<(), OutOfMemory>
        ensures ok { OnOk result (self.new ≡ self.old ++ part ∷ []) }
        ensures err { OnErr result (self.new ≡ self.old) }
    {
        self.parts.push(part)?;
        Ok(())
    }

    /// How many there are.
    pub fn len(&self) -> usize
        ensures { result ≡ length self.now }
    {
        self.parts.len()
    }

    /// All of them, lent.
    pub fn as_slice(&self) -> &[Part]
        ensures { result.now ≡ self.now }
    {
        self.parts.as_slice()
    }

    /// The part at this position.
    pub fn get_index(&self, k: usize) -> Option<&Part>
        ensures { option_copied result ≡ slice_get self.now k }
    {
        self.parts.get(k)
    }
}

/// The part that a value type is joins the list, where it is there and is a node.
pub fn push_option(ty: Option<ComponentValType>, parts: &mut Parts) -> Result<(), OutOfMemory>
    ensures { OnOk result (parts.new ≡ parts.old ++ slot_refs (option_slot ty)) }
{
    match ty {
        Some(ComponentValType::Ty(id)) => parts.push(Part::Defined(id)),
        _ => Ok(()),
    }
}

/// So of each field, in order.
#[tactic(auto, using(crate::proofs::Slots::next_field, crate::proofs::Slots::no_field))]
pub fn push_fields(
    fields: &[(Text, ComponentValType)],
    parts: &mut Parts,
) -> Result<(), OutOfMemory>
    ensures { OnOk result (parts.new ≡ parts.old ++ parts_in (field_slots fields.now [])) }
{
    for field in fields {
        push_option(Some(field.1), parts)?;
    }
    Ok(())
}

/// The place of a node. A resource reference and a core type are none.
pub fn place_of(part: Part) -> Option<u64>
    ensures { MatchOption result (rank part ≡ 0) (λ k. rank part ≡ suc k) }
{
    match part {
        Part::Defined(id) => Some(id.index),
        Part::Func(id) => Some(id.index),
        Part::Instance(id) => Some(id.index),
        Part::Component(id) => Some(id.index),
        Part::Module(id) => Some(id.index),
        Part::CoreInstance(id) => Some(id.index),
        Part::Resource(_) | Part::Core(_) => None,
    }
}
