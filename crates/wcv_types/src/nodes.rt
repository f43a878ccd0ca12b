// The nodes of an arena, each with what is kept of it.
ghost use Rattle.std.specs.Prelude.{◌≡◌, ◌<◌, [], ◌∷◌, ◌++◌, length, slice_get, true, Some, OnOk, OnErr};
ghost use Rattle.wcv_types.specs.Facts.{IsFactsOf};
ghost use Rattle.wcv_types.specs.ShapeNumbers.{Numbered};
ghost use Rattle.wcv_types.specs.Unfold.{head_of, slots_of, slot_parts, tree_of, tree_in, trees};
ghost use Rattle.wcv_types.specs.Tree as tree;
ghost use Rattle.wcv_types.specs.declared.arena.Node.{Node};

use crate::arena::Node;
use crate::facts::Facts;
use crate::indexed_node::IndexedNode;
use crate::shape_numbers::ShapeNumbers;
use std::alloc::Global;
use std::marker::Model;
use std::mem::replace;
use wcv_core::OutOfMemory;

/// What a node is made of, and what is kept of it. Equal nodes share it.
#[derive(Drop)]
pub struct Known {
    pub node: IndexedNode,
    pub facts: Facts,
}

/// Nodes in order. Contracts see them as their list.
#[derive(Drop)]
pub struct Nodes {
    known: Vec<Known>,
    /// Of each node, where it stands among those.
    positions: Vec<usize>,
    /// The numbers that their shapes were given.
    numbers: ShapeNumbers,
}

impl Model for Nodes {
    ghost use Rattle.std.specs.Prelude.{List};
    ghost use Rattle.wcv_types.specs.Facts.{nodes_at, AllKnown};
    ghost use Rattle.wcv_types.specs.ShapeNumbers.{Numbered};
    ghost use Rattle.wcv_types.specs.declared.arena.Node.{Node};

    ghost Value = { List Node };

    ghost view = { λ n. nodes_at n.known.items n.positions.items };

    ghost invariant = { λ n. AllKnown n.known.items n.positions.items × Numbered (nodes_at n.known.items n.positions.items) n.numbers };
}

impl Nodes {
    /// No nodes.
    pub fn new(alloc: Global) -> Nodes
        ensures { result ≡ [] }
    {
        Nodes {
            known: Vec::new(alloc),
            positions: Vec::new(alloc),
            numbers: ShapeNumbers::new(alloc),
        }
    }

    /// How many there are.
    pub fn len(&self) -> usize
        ensures { result ≡ length self.now }
    {
        self.positions.len()
    }

    /// One more, behind all others. Out of memory they stay as they were.
    pub fn push(&mut self, node: IndexedNode, facts: Facts) -> Result<(), OutOfMemory>
        requires { IsFactsOf facts (tree_of (trees self.old) node) }
        ensures ok { OnOk result (self.new ≡ self.old ++ node ∷ []) }
        ensures err { OnErr result (self.new ≡ self.old) }
    {
        let position = self.known.len();
        self.known.push(Known { node, facts })?;
        if self.positions.push(position).is_err() {
            self.known.truncate(position);
            return Err(OutOfMemory);
        }
        Ok(())
    }

    /// The node at that place once more, behind all others. Nothing of it is copied. Out of memory they stay
    /// as they were.
    pub fn push_again(&mut self, place: usize) -> Result<(), OutOfMemory>
        requires within { place < length self.old }
        requires unfolds { (x : Node) → slice_get self.old place ≡ Some x → tree_in (trees self.old) place ≡ tree.node (head_of place x) (slot_parts (trees self.old) (slots_of x)) }
        ensures ok { OnOk result ((x : Node) × (slice_get self.old place ≡ Some x) × (self.new ≡ self.old ++ x ∷ [])) }
        ensures err { OnErr result (self.new ≡ self.old) }
    {
        let position = self.positions[place];
        self.positions.push(position)?;
        Ok(())
    }

    /// What is known of the node at that place, and the node.
    pub fn known(&self, place: usize) -> &Known
        requires { place < length self.now }
        ensures node { slice_get self.now place ≡ Some result.now.node }
        ensures facts { IsFactsOf result.now.facts (tree_in (trees self.now) place) }
    {
        &self.known[self.positions[place]]
    }

    /// The node at that place.
    pub fn get(&self, place: usize) -> &Node
        requires { place < length self.now }
        ensures { slice_get self.now place ≡ Some result.now }
    {
        self.known(place).node.node()
    }

    /// What is kept of it.
    pub fn facts(&self, place: usize) -> Facts
        requires { place < length self.now }
        ensures { IsFactsOf result (tree_in (trees self.now) place) }
    {
        self.known(place).facts
    }

    /// Where the node at that place stands among what nodes are made of.
    pub fn position(&self, place: usize) -> u64
        requires { place < length self.now }
    {
        self.positions[place] as u64
    }

    /// Whether two places share what their node is made of.
    #[tactic(auto, using(crate::proofs::Sharing::shared_nodes))]
    pub fn shares(&self, a: usize, b: usize) -> bool
        requires a { a < length self.now }
        requires b { b < length self.now }
        ensures { result ≡ true → slice_get self.now a ≡ slice_get self.now b }
    {
        if self.positions[a] != self.positions[b] {
            return false;
        }
        true
    }

    /// The numbers of shapes, which are not there until they are put back.
    pub fn take_numbers(&mut self, alloc: Global) -> ShapeNumbers
        ensures numbers { Numbered self.old result }
        ensures same { self.new ≡ self.old }
    {
        replace(&mut self.numbers, ShapeNumbers::new(alloc))
    }

    /// The numbers of shapes are these from then on.
    pub fn put_numbers(&mut self, numbers: ShapeNumbers)
        requires { Numbered self.old numbers }
        ensures { self.new ≡ self.old }
    {
        self.numbers = numbers;
    }
}
