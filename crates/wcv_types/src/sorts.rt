// The sorts of types.
ghost use Rattle.std.specs.Prelude.{◌≡◌, suc, ◌<◌, ◌++◌, List, ◌∷◌, length, slice_get, Some, All, OnOk, OnErr, IfOk};
ghost use Rattle.wcv_types.specs.Unfold.{place, rank, parts_of, parts_at, tree_at, unfolded, IsInfoOf};
ghost use Rattle.wcv_types.specs.Rebuild.{Refits, Rebuilt};
ghost use Rattle.wcv_types.specs.Standing.{Stands, StandsBefore, Fits, with_node};

use crate::arena::TypeAlloc;
use crate::ids::Part;
use crate::info::TypeInfo;
use crate::parts::Parts;
use wcv_core::OutOfMemory;

/// A sort of types, seen one type at a time.
pub trait TypeSort: Copy {
    ghost use Rattle.wcv_types.specs.declared.ids.Part.{Part};

    /// The id as a part.
    ghost as_part: { Self → Part };

    /// The id as a part.
    fn part(self) -> Part
        ensures { result ≡ as_part self };

    /// The size and the depth of the type.
    fn info(self, types: &TypeAlloc) -> TypeInfo
        requires { Stands types.now (as_part self) }
        ensures { IsInfoOf result (tree_at types.now (as_part self)) };

    /// How many parts the type has.
    fn part_count(self, types: &TypeAlloc) -> usize
        requires { Stands types.now (as_part self) }
        ensures { result ≡ length (parts_at types.now (as_part self)) };

    /// The same type with other parts, as a new node behind all others. What has no parts stays.
    fn rebuild(self, types: &mut TypeAlloc, parts: &Parts) -> Result<Self, OutOfMemory>
        requires stands { Stands types.old (as_part self) }
        requires refits { Refits types.old (as_part self) parts.now }
        ensures ok { IfOk result (λ made. Rebuilt types.old types.new (as_part self) parts.now (as_part made)) }
        ensures err { OnErr result (types.new ≡ types.old) };
}

/// A sort of types that are nodes of the arena.
pub trait NodeSort: TypeSort {
    ghost use Rattle.wcv_types.specs.declared.arena.Node.{Node};

    /// What the node is made of.
    type Shape;

    /// The shape as a node.
    ghost as_node: { Self.Shape → Node };

    /// The node.
    fn node(types: &TypeAlloc, id: Self) -> &Self::Shape
        requires { Stands types.now (Self.as_part id) }
        ensures found { slice_get types.now.nodes (place (Self.as_part id)) ≡ Some (as_node result.now) }
        ensures unfolds { tree_at types.now (Self.as_part id) ≡ unfolded types.now (place (Self.as_part id)) (as_node result.now) }
        ensures before { All (StandsBefore types.now (rank (Self.as_part id))) (parts_of (as_node result.now)) };

    /// The k-th part of the type.
    fn part_at(self, types: &TypeAlloc, k: usize) -> Part
        requires stands { Stands types.now (Self.as_part self) }
        requires below { k < length (parts_at types.now (Self.as_part self)) }
        ensures { slice_get (parts_at types.now (Self.as_part self)) k ≡ Some result };

    /// The parts of the node join the list, in order.
    fn parts_into(shape: &Self::Shape, parts: &mut Parts) -> Result<(), OutOfMemory>
        ensures { OnOk result (parts.new ≡ parts.old ++ parts_of (as_node shape.now)) };

    /// A new node, after all others.
    fn store(types: &mut TypeAlloc, shape: Self::Shape) -> Result<Self, OutOfMemory>
        requires { Fits types.old (as_node shape) }
        ensures added { IfOk result (λ _. types.new ≡ with_node types.old (as_node shape)) }
        ensures last { IfOk result (λ id. rank (Self.as_part id) ≡ suc (length types.old.nodes)) }
        ensures stands { IfOk result (λ id. Stands types.new (Self.as_part id)) }
        ensures err { OnErr result (types.new ≡ types.old) };
}
