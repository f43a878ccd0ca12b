// An arena that writes down how often it is read.
use std::cell::Cell;
use std::sync::ledger::Ledger;
use wcv_core::OutOfMemory;
use wcv_types::{NodeSort, NodeStore, Part, Parts, Steps, TypeAlloc, TypeSort};

/// An arena, and how often a node of it was read.
#[derive(Drop)]
pub struct CountedTypes {
    pub types: TypeAlloc,
    reads: Cell<u64>,
}

impl CountedTypes {
    ghost use Rattle.std.specs.Prelude.{◌≡◌};

    /// An arena that was not read yet.
    pub fn new(types: TypeAlloc) -> CountedTypes
        ensures { result.types ≡ types }
    {
        CountedTypes {
            types,
            reads: Cell::new(0),
        }
    }

    /// How often a node was read.
    pub fn reads(&self) -> u64 {
        self.reads.get()
    }
}

impl NodeStore for CountedTypes {
    ghost use Rattle.wcv_types.specs.Arena.{Arena};

    ghost arena = { λ a. a.types };

    fn view<S: NodeSort, L: Ledger>(&self, id: S, steps: &mut Steps<L>) -> &S::Shape {
        self.reads.set(self.reads.get().saturating_add(1));
        self.types.view(id, steps)
    }

    fn mentions_resource(&self, part: Part) -> bool {
        self.types.mentions_resource(part)
    }

    fn rebuild<S: TypeSort>(&mut self, id: S, parts: &Parts) -> Result<S, OutOfMemory> {
        self.types.rebuild(id, parts)
    }

    fn no_parts(&self) -> Parts {
        self.types.no_parts()
    }
}
