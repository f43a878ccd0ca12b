// Components inside others: where the reading stands, and which of them ended.
ghost use Rattle.std.specs.Prelude.{ℕ, List, [], ◌∷◌, ◌++◌, ◌≡◌, OnOk};
ghost use Rattle.wcv_core.specs.Names as names;
ghost use Rattle.wcv_core.specs.Names.{deeper};

use std::alloc::Global;
use wcv_core::{OutOfMemory, Place};
use wcv_types::ComponentTypeId;

/// A component inside another: where it stands, and its type, by its id in the arena.
#[derive(Drop)]
pub struct Nested {
    pub place: Place,
    pub ty: ComponentTypeId,
}

/// The place of what is read, and the components inside others that ended before, in that order.
#[derive(Drop)]
pub struct Nesting {
    place: Vec<u64>,
    ended: Vec<Nested>,
}

impl Nesting {
    /// Before the first item of a root.
    pub fn new(alloc: Global) -> Nesting
        ensures place { result.place.items ≡ [] }
        ensures ended { result.ended.items ≡ [] }
    {
        Nesting {
            place: Vec::new(alloc),
            ended: Vec::new(alloc),
        }
    }

    /// Goes on to the item of that position.
    pub fn enter(&mut self, position: usize) -> Result<(), OutOfMemory>
        ensures place { OnOk result (self.new.place.items ≡ deeper self.old.place.items position) }
        ensures ended { self.new.ended.items ≡ self.old.ended.items }
    {
        self.place.push(position as u64)?;
        Ok(())
    }

    /// Goes back from the item to the list in which it stands.
    pub fn leave(&mut self)
        ensures place { (w : names.Place) (k : ℕ) → self.old.place.items ≡ deeper w k → self.new.place.items ≡ w }
        ensures ended { self.new.ended.items ≡ self.old.ended.items }
    {
        match self.place.pop() {
            Some(_position) => (),
            None => (),
        }
    }

    /// A component ended at the place.
    pub fn end(&mut self, ty: ComponentTypeId, alloc: Global) -> Result<(), OutOfMemory>
        ensures place { OnOk result (self.new.place.items ≡ self.old.place.items) }
        ensures ended { OnOk result (self.new.ended.items ≡ self.old.ended.items ++ record { place = self.old.place.items; ty = ty } ∷ []) }
    {
        let place = Place::new(alloc, self.place.as_slice())?;
        self.ended.push(Nested { place, ty })?;
        Ok(())
    }

    /// Those that ended, in that order.
    pub fn into_ended(self) -> Vec<Nested>
        ensures { result ≡ self.ended }
    {
        self.ended
    }
}
