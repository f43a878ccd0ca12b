// Nodes that a comparison goes into, each of which is one step.
ghost use Rattle.std.specs.Prelude.{◌≡◌, ◌+◌, slice_get, Some, All};
ghost use Rattle.wcv_types.specs.Standing.{AreNamesApart, Stands, StandsBefore};
ghost use Rattle.wcv_types.specs.Unfold.{parts_of, place, rank, tree_at, unfolded};

use std::sync::ledger::Ledger;
use wcv_types::{NodeSort, NodeStore, Steps, TypeAlloc};

/// The node, where a comparison goes into it, or a path passes it. It counts one, for all that is done with the node
/// there: its entries, fields, labels and own resources are gone through a fixed number of times.
pub fn visited<'a, S: NodeSort, L: Ledger>(
    types: &'a TypeAlloc,
    id: S,
    steps: &mut Steps<L>,
) -> &'a S::Shape
    requires { Stands types.now (S.as_part id) }
    ensures found { slice_get types.now.nodes (place (S.as_part id)) ≡ Some (S.as_node result.now) }
    ensures unfolds { tree_at types.now (S.as_part id) ≡ unfolded types.now (place (S.as_part id)) (S.as_node result.now) }
    ensures before { All (StandsBefore types.now (rank (S.as_part id))) (parts_of (S.as_node result.now)) }
    ensures apart { AreNamesApart (S.as_node result.now) }
    ensures counted { steps.new ≡ steps.old + 1 }
{
    types.nodes_fit();
    let _ = types.view(id, steps);
    types.get(id)
}
