// Where core types stand in their groups.
ghost use Rattle.std.specs.Prelude.{◌≡◌, ◌+◌, ◌^◌, ◌≤◌, ◌<◌};
ghost use Rattle.wcv_core.specs.CoreGroups.{place_from, total};

use wcv_core::{CoreTypeId, CoreTypes};

/// The first type of the group that a core type stands in, and the length of the group. Past the end of the
/// table it is a group of no types that would come next.
#[tactic(auto, using(crate::proofs::Firsts::past_the_end))]
pub fn place(core: &CoreTypes, id: CoreTypeId) -> (CoreTypeId, u64)
    ensures place { (result.0.index, result.1) ≡ place_from 0 core.now id.index }
    ensures within { result.0.index + result.1 ≤ total core.now }
    ensures fits { total core.now < 2 ^ 64 }
{
    let len = core.len() as u64;
    if id.index < len {
        core.group_of(id)
    } else {
        (CoreTypeId { index: len }, 0)
    }
}
