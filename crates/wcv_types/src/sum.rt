// What is known of parts, added up.
ghost use Rattle.std.specs.Prelude.{◌≡◌, ◌+◌, ◌≤◌, [], ◌∷◌, ◌++◌, List, min, max};
ghost use Rattle.wcv_types.specs.Abi as abi;
ghost use Rattle.wcv_types.specs.Facts.{is_plain, IsFactsOf};
ghost use Rattle.wcv_types.specs.Named.{is_named};
ghost use Rattle.wcv_types.specs.Sums.{HasAlign, IsSumOf};
ghost use Rattle.wcv_types.specs.Tree.{Role, none};
ghost use Rattle.wcv_types.specs.Unfold.{Type_tree, Slot, Slots, slot_tree, slot_parts};

use crate::facts::Facts;
use crate::lowered_types::LoweredTypes;

/// The least multiple of an alignment that is at least that size.
pub fn align_up(size: u64, align: u64) -> u64
    requires { 1 ≤ align }
    ensures { result ≡ min (abi.align_up align size) 18446744073709551615 }
{
    let rest = size % align;
    if rest == 0 {
        size
    } else {
        size.saturating_add(align - rest)
    }
}

/// How parts lie in memory, with pointers of one size: where they end one behind another, their greatest
/// alignment and their greatest size.
#[derive(Clone, Copy)]
pub struct Extent {
    pub end: u64,
    pub align: u64,
    pub greatest: u64,
}

impl Extent {
    /// That of no parts.
    fn new() -> Extent
        ensures { result ≡ record { end = 0; align = 1; greatest = 0 } }
    {
        Extent {
            end: 0,
            align: 1,
            greatest: 0,
        }
    }

    /// One more part.
    fn add(&mut self, size: u64, align: u64)
        requires { 1 ≤ align }
        ensures { self.new ≡ record { end = min (abi.align_up align self.old.end + size) 18446744073709551615; align = max self.old.align align; greatest = max self.old.greatest size } }
    {
        self.end = align_up(self.end, align).saturating_add(size);
        self.align = self.align.max(align);
        self.greatest = self.greatest.max(size);
    }
}

/// What is known of the parts of a type, added up: their sizes, their greatest depth, whether none has to be
/// named, whether one refers to a resource, what stands in them, how they lie in memory with pointers of 4 and
/// of 8 bytes, and their flat types, one behind another and joined.
#[derive(Clone, Copy)]
pub struct Sum {
    pub size: u32,
    pub depth: u32,
    pub plain: bool,
    pub refers: bool,
    pub contains_ptr: bool,
    pub contains_handle: bool,
    pub contains_borrow: bool,
    pub narrow: Extent,
    pub wide: Extent,
    pub all: LoweredTypes,
    pub cases: LoweredTypes,
}

impl Sum {
    /// That of no parts.
    pub fn new() -> Sum
        ensures { IsSumOf result none }
    {
        Sum {
            size: 0,
            depth: 0,
            plain: true,
            refers: false,
            contains_ptr: false,
            contains_handle: false,
            contains_borrow: false,
            narrow: Extent::new(),
            wide: Extent::new(),
            all: LoweredTypes::new(),
            cases: LoweredTypes::new(),
        }
    }

    /// One more part.
    pub fn add(&mut self, part: Facts)
        requires { HasAlign part }
        ensures { (ts : List Type_tree) (ss : Slots) (s : Role × Slot) → IsSumOf self.old (slot_parts ts ss) → IsFactsOf part (slot_tree ts s.1) → is_plain (slot_tree ts s.1) ≡ is_named [] (slot_tree ts s.1) → IsSumOf self.new (slot_parts ts (ss ++ s ∷ [])) }
    {
        self.size = self.size.saturating_add(part.info.size);
        self.depth = self.depth.max(part.info.depth);
        self.plain = self.plain & part.plain;
        self.refers = self.refers | part.refers;
        self.contains_ptr = self.contains_ptr | part.abi.contains_ptr;
        self.contains_handle = self.contains_handle | part.abi.contains_handle;
        self.contains_borrow = self.contains_borrow | part.abi.contains_borrow;
        self.narrow.add(part.abi.size32, part.abi.align32);
        self.wide.add(part.abi.size64, part.abi.align64);
        self.all.append(&part.flat);
        self.cases = self.cases.joined(&part.flat);
    }
}
