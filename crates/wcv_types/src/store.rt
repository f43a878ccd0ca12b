// Arenas whose every read is counted.
ghost use Rattle.std.specs.Prelude.{◌≡◌, ◌+◌, ◌<◌, [], slice_get, Some, IfOk, OnErr};
ghost use Rattle.wcv_types.specs.Led.{Led};
ghost use Rattle.wcv_types.specs.Rebuild.{Refits, Rebuilt};
ghost use Rattle.wcv_types.specs.Resources.{mentions};
ghost use Rattle.wcv_types.specs.Standing.{Stands, Unfolds};
ghost use Rattle.wcv_types.specs.Unfold.{place, parts_at, parts_of, tree_at};

use crate::arena::TypeAlloc;
use crate::ids::Part;
use crate::parts::{Parts, place_of};
use crate::sorts::{NodeSort, TypeSort};
use std::marker::Model;
use std::sync::ledger::{Blank, Book, Ledger, Share};
use wcv_core::OutOfMemory;

/// How many nodes were read. It takes no memory. Contracts see it as that number.
#[derive(Drop)]
pub struct Steps<L: Ledger> {
    book: Book<L>,
    share: Share<L>,
}

impl<L: Ledger> Model for Steps<L> {
    ghost use Rattle.std.specs.Prelude.{ℕ, ◌<◌};

    ghost Value = { ℕ };

    ghost view = { λ s. s.book.total };

    ghost invariant = { λ s. 0 < s.share.parts };
}

impl<L: Ledger> Steps<L> {
    /// None yet.
    pub fn new(blank: Blank) -> Steps<L>
        requires name { blank.name ≡ L.name }
        requires parts { blank.parts ≡ L.parts }
        requires some { 0 < blank.parts }
        ensures { result ≡ 0 }
    {
        let (book, share) = blank.open::<L>();
        Steps { book, share }
    }

    /// One more.
    fn tick(&mut self)
        ensures { self.new ≡ self.old + 1 }
    {
        self.book.add(&mut self.share, 1);
    }
}

/// An arena whose every read is counted.
pub trait NodeStore {
    ghost use Rattle.wcv_types.specs.Arena.{Arena};

    /// The arena.
    ghost arena: { Self → Arena };

    /// The node. It counts one.
    fn view<S: NodeSort, L: Ledger>(&self, id: S, steps: &mut Steps<L>) -> &S::Shape
        requires { Stands (arena self.now) (S.as_part id) }
        ensures found { slice_get (arena self.now).nodes (place (S.as_part id)) ≡ Some (S.as_node result.now) }
        ensures parts { parts_at (arena self.now) (S.as_part id) ≡ parts_of (S.as_node result.now) }
        ensures unfolds { Unfolds (arena self.now) (S.as_part id) }
        ensures led { Led (tree_at (arena self.now) (S.as_part id)) }
        ensures counted { steps.new ≡ steps.old + 1 };

    /// Whether a reference to a resource stands in the type. It shows no node.
    fn mentions_resource(&self, part: Part) -> bool
        requires { Stands (arena self.now) part }
        ensures { result ≡ mentions (tree_at (arena self.now) part) };

    /// The same type with other parts. It shows no node.
    fn rebuild<S: TypeSort>(&mut self, id: S, parts: &Parts) -> Result<S, OutOfMemory>
        requires stands { Stands (arena self.old) (S.as_part id) }
        requires refits { Refits (arena self.old) (S.as_part id) parts.now }
        ensures ok { IfOk result (λ made. Rebuilt (arena self.old) (arena self.new) (S.as_part id) parts.now (S.as_part made)) }
        ensures err { OnErr result (arena self.new ≡ arena self.old) };

    /// No part. It takes no memory.
    fn no_parts(&self) -> Parts
        ensures { result ≡ [] };
}

impl NodeStore for TypeAlloc {
    ghost use Rattle.wcv_types.specs.Arena.{Arena};

    ghost arena = { λ a. a };

    fn view<S: NodeSort, L: Ledger>(&self, id: S, steps: &mut Steps<L>) -> &S::Shape {
        steps.tick();
        self.nodes_fit();
        S::node(self, id)
    }

    fn mentions_resource(&self, part: Part) -> bool {
        match place_of(part) {
            Some(place) => self.refers(place),
            None => matches!(part, Part::Resource(_)),
        }
    }

    fn rebuild<S: TypeSort>(&mut self, id: S, parts: &Parts) -> Result<S, OutOfMemory> {
        id.rebuild(self, parts)
    }

    fn no_parts(&self) -> Parts {
        Parts::new(self.allocator())
    }
}
