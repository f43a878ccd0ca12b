// What a comparison keeps of pairs of nodes that pass with each other.
ghost use Rattle.std.specs.Prelude.{◌≡◌, [], true, IfSome, OnErr, OnOk};
ghost use Rattle.wcv_types.specs.Arena.{Arena};
ghost use Rattle.wcv_matching.specs.Matching.{Reading};
ghost use Rattle.wcv_matching.specs.OnePass.{Atom};
ghost use Rattle.wcv_compare.specs.Compared.{has_pair, kept_place, with_pair, ArePassed, IsPairOf, Pass};

use indexmap::IndexSet;
use std::alloc::Global;
use std::marker::Model;
use std::mem::swap;
use wcv_core::OutOfMemory;
use wcv_types::ComponentEntityType;

/// Two nodes, by their places.
#[derive(Clone, Copy, PartialEq, Eq, Hash)]
pub struct NodePair {
    pub left: u64,
    pub right: u64,
}

/// Two nodes that are compared at a level.
#[derive(Clone, Copy, PartialEq, Eq, Hash)]
pub struct LevelPair {
    pub level: u64,
    pub nodes: NodePair,
}

/// Pairs of nodes, each once. Contracts see it as the list of them.
#[derive(Drop)]
pub struct PairSet {
    pairs: IndexSet<LevelPair>,
}

impl Model for PairSet {
    ghost use Rattle.std.specs.Prelude.{List};
    ghost use Rattle.wcv_compare.specs.declared.compared.LevelPair.{LevelPair};

    ghost Value = { List LevelPair };

    ghost view = { λ s. s.pairs.keys };
}

impl PairSet {
    /// No pair.
    fn new(alloc: Global) -> PairSet
        ensures { result ≡ [] }
    {
        PairSet {
            pairs: IndexSet::new(alloc),
        }
    }

    /// One more pair. Out of memory nothing changes.
    fn push(&mut self, pair: LevelPair) -> Result<(), OutOfMemory>
        ensures ok { OnOk result (self.new ≡ with_pair self.old pair) }
        ensures err { OnErr result (self.new ≡ self.old) }
    {
        match self.pairs.insert(pair) {
            Ok(_) => Ok(()),
            Err(_) => Err(OutOfMemory),
        }
    }

    /// Whether the set has the pair.
    fn contains(&self, pair: &LevelPair) -> bool
        ensures { result ≡ has_pair self.now pair.now }
    {
        self.pairs.contains(pair)
    }
}

/// The place of a node of which is kept what it passes with.
fn kept_place(ty: ComponentEntityType) -> Option<u64>
    ensures { result ≡ kept_place ty }
{
    match ty {
        ComponentEntityType::Module(id) => Some(id.index),
        ComponentEntityType::Func(id) => Some(id.index),
        ComponentEntityType::Instance(id) => Some(id.index),
        ComponentEntityType::Component(id) => Some(id.index),
        ComponentEntityType::Value(_) | ComponentEntityType::Ty { .. } => None,
    }
}

/// The pair of two entities at the level.
fn pair_of(level: u64, a: ComponentEntityType, b: ComponentEntityType) -> Option<LevelPair>
    ensures { IfSome result (IsPairOf level a b) }
{
    let left = match kept_place(a) {
        Some(left) => left,
        None => return None,
    };
    let right = match kept_place(b) {
        Some(right) => right,
        None => return None,
    };
    let nodes = NodePair { left, right };
    Some(LevelPair { level, nodes })
}

/// Pairs of nodes that pass with each other while the resources of both sides are read as they are: those that are
/// the same and those that match, and the same where the sides are exchanged.
#[derive(Drop)]
pub struct Compared {
    pub same: PairSet,
    pub matching: PairSet,
    pub same_flipped: PairSet,
    pub matching_flipped: PairSet,
}

impl Compared {
    /// No pair.
    pub fn new(alloc: Global) -> Compared
        ensures { (a : Arena) (f g : Reading Atom) → ArePassed a f g result }
    {
        Compared {
            same: PairSet::new(alloc),
            matching: PairSet::new(alloc),
            same_flipped: PairSet::new(alloc),
            matching_flipped: PairSet::new(alloc),
        }
    }

    /// Exchanges the sides.
    pub(crate) fn flip(&mut self)
        ensures { (a : Arena) (f g : Reading Atom) → ArePassed a f g self.old → ArePassed a g f self.new }
    {
        swap(&mut self.same, &mut self.same_flipped);
        swap(&mut self.matching, &mut self.matching_flipped);
    }

    /// Whether the pair is known to pass.
    pub(crate) fn knows(
        &self,
        exact: bool,
        level: u64,
        a: ComponentEntityType,
        b: ComponentEntityType,
    ) -> bool
        ensures { result ≡ true → (t : Arena) (f g : Reading Atom) → ArePassed t f g self.now → Pass t exact level f g a b }
    {
        match pair_of(level, a, b) {
            Some(pair) => {
                if exact {
                    self.same.contains(&pair)
                } else {
                    self.matching.contains(&pair)
                }
            }
            None => false,
        }
    }

    /// The pair passes, and is known from then on.
    pub(crate) fn keep(
        &mut self,
        exact: bool,
        level: u64,
        a: ComponentEntityType,
        b: ComponentEntityType,
    ) -> Result<(), OutOfMemory>
        ensures { OnOk result ((t : Arena) (f g : Reading Atom) → ArePassed t f g self.old → Pass t exact level f g a b → ArePassed t f g self.new) }
    {
        match pair_of(level, a, b) {
            Some(pair) => {
                if exact {
                    self.same.push(pair)
                } else {
                    self.matching.push(pair)
                }
            }
            None => Ok(()),
        }
    }
}
