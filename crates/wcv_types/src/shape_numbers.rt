// The numbers of shapes of value types.
ghost use Rattle.std.specs.Prelude.{◌≡◌, List, Some, IfSome, IfOk, OnOk};
ghost use Rattle.wcv_types.specs.Alike.{form_primitive};
ghost use Rattle.wcv_types.specs.Entities.{SlotStands};
ghost use Rattle.wcv_types.specs.ShapeNumbers.{codes_in, shape_number, Keeps, Numbered};
ghost use Rattle.wcv_types.specs.Standing.{Stands};
ghost use Rattle.wcv_types.specs.Unfold.{option_slot, slot_tree, tree_at, trees};
ghost use Rattle.wcv_types.specs.declared.arena.Node.{Node};
ghost use Rattle.wcv_types.specs.declared.ids.Part.TheVariants as part;

use crate::arena::TypeAlloc;
use crate::ids::ComponentDefinedTypeId;
use crate::same_types::leaf_at;
use crate::shape_codes::{form_code, leaf_number, push_entry};
use crate::shapes::{ComponentValType, node_of};
use std::alloc::Global;
use std::collections::BTreeMap;
use wcv_core::OutOfMemory;

/// A defined type, and the number of its shape.
#[derive(Clone, Copy)]
pub struct Given {
    pub place: u64,
    pub number: u64,
}

/// Numbers of shapes, by their codes. A code is found in an ordered map: a look-up among `n` codes makes some
/// `log n` comparisons, each at most as long as the code looked up, whoever chose the names.
#[derive(Drop)]
pub struct ShapeNumbers {
    codes: BTreeMap<(Vec<u64>, Vec<u8>), u64>,
    /// The number of the next code.
    next: u64,
    /// What was given to defined types, each by where its node is kept.
    given: BTreeMap<u64, Given>,
    alloc: Global,
}

impl ShapeNumbers {
    /// No number.
    pub fn new(alloc: Global) -> ShapeNumbers
        ensures { (xs : List Node) → Numbered xs result }
    {
        ShapeNumbers {
            codes: BTreeMap::new(alloc),
            next: 15,
            given: BTreeMap::new(alloc),
            alloc,
        }
    }

    /// The number that a defined type has, if it or one that shares its node was given one.
    fn known(&self, types: &TypeAlloc, id: ComponentDefinedTypeId) -> Option<u64>
        requires stands { Stands types.now (part.Defined id) }
        requires numbers { Numbered types.now.nodes self.now }
        ensures { IfSome result (λ n. shape_number (codes_in self.now.codes) (tree_at types.now (part.Defined id)) ≡ Some n) }
    {
        let place = id.index as usize;
        match self.given.get(&types.nodes.position(place)) {
            Some(given) => {
                let other = ComponentDefinedTypeId { index: given.place };
                if !types.nodes.shares(place, given.place as usize) {
                    return None;
                }
                let _ = types.get(id);
                let _ = types.get(other);
                Some(given.number)
            }
            None => None,
        }
    }

    /// The number of a code. One that is not there is given the next.
    fn number_of_code(
        &mut self,
        types: &TypeAlloc,
        code: (Vec<u64>, Vec<u8>),
    ) -> Result<u64, OutOfMemory>
        requires { Numbered types.now.nodes self.old }
        ensures number { IfOk result (λ n. codes_in self.new.codes (code.0.items, code.1.items) ≡ Some n) }
        ensures keeps { Keeps (codes_in self.old.codes) (codes_in self.new.codes) }
        ensures numbers { Numbered types.now.nodes self.new }
    {
        let _ = types;
        if let Some(number) = self.codes.get(&code) {
            return Ok(*number);
        }
        let number = self.next;
        if number == u64::MAX {
            return Err(OutOfMemory);
        }
        match self.codes.insert(code, number) {
            Ok(_) => {
                self.next = number + 1;
                Ok(number)
            }
            Err(refused) => {
                drop(refused);
                Err(OutOfMemory)
            }
        }
    }

    /// The defined type has the number from then on.
    fn keep(
        &mut self,
        types: &TypeAlloc,
        id: ComponentDefinedTypeId,
        number: u64,
    ) -> Result<(), OutOfMemory>
        requires stands { Stands types.now (part.Defined id) }
        requires number { shape_number (codes_in self.old.codes) (tree_at types.now (part.Defined id)) ≡ Some number }
        requires numbers { Numbered types.now.nodes self.old }
        ensures codes { self.new.codes ≡ self.old.codes }
        ensures numbers { Numbered types.now.nodes self.new }
    {
        let place = types.nodes.position(id.index as usize);
        match self.given.insert(
            place,
            Given {
                place: id.index,
                number,
            },
        ) {
            Ok(_) => Ok(()),
            Err(_) => Err(OutOfMemory),
        }
    }
}

/// The number of the shape of a value type, or of what is left out. Of each node it is found once.
pub fn value_number(
    types: &TypeAlloc,
    numbers: &mut ShapeNumbers,
    ty: Option<ComponentValType>,
) -> Result<u64, OutOfMemory>
    requires stands { SlotStands types.now (option_slot ty) }
    requires numbers { Numbered types.now.nodes numbers.old }
    ensures number { IfOk result (λ n. shape_number (codes_in numbers.new.codes) (slot_tree (trees types.now.nodes) (option_slot ty)) ≡ Some n) }
    ensures keeps { Keeps (codes_in numbers.old.codes) (codes_in numbers.new.codes) }
    ensures numbers { Numbered types.now.nodes numbers.new }
{
    let id = match node_of(ty) {
        Some(id) => id,
        None => return Ok(leaf_number(leaf_at(ty))),
    };
    let shape = types.get(id);
    if let Some(primitive) = shape.primitive() {
        return Ok(leaf_number(Some(primitive)));
    }
    if let Some(number) = numbers.known(types, id) {
        return Ok(number);
    }
    let mut code = form_code(numbers.alloc, shape)?;
    for k in 0..shape.value_count() {
        let part = value_number(types, numbers, shape.value_at(k))?;
        push_entry(&mut code, shape.label_at(k), part)?;
    }
    let number = numbers.number_of_code(types, code)?;
    numbers.keep(types, id, number)?;
    Ok(number)
}
