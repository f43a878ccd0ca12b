// The rebuilding of types under a map.
ghost use Rattle.std.specs.Prelude.{◌≡◌, true, not, ◌&&◌, ◌+◌, ◌++◌, IfOk, OnOk, OnErr};
ghost use Rattle.wcv_types.specs.Led.{Led};
ghost use Rattle.wcv_types.specs.Rebuild.{Refits, MadeAgain};
ghost use Rattle.wcv_types.specs.Resources.{mentions};
ghost use Rattle.wcv_types.specs.Standing.{Extends, Stands, Unfolds};
ghost use Rattle.wcv_types.specs.Unfold.{parts_at, tree_at};
ghost use Rattle.wcv_remap.specs.Map.{gives_types, goes_to, is_node, same_part};
ghost use Rattle.wcv_remap.specs.Remap.{any_other, HygienicAt, IsInside, Remapped, Settled, Sound};

use crate::map::Remapping;
use std::sync::ledger::Ledger;
use wcv_core::OutOfMemory;
use wcv_types::{ComponentAnyTypeId, NodeSort, NodeStore, Part, Parts, Steps};

/// Where the map sends the type, or None where the type has to be looked at.
fn found(map: &Remapping, part: Part) -> Option<Part>
    ensures { result ≡ goes_to map.now part }
{
    match part {
        Part::Resource(id) => match map.get(ComponentAnyTypeId::Resource(id)) {
            Some(to) => Some(to),
            None => Some(Part::Resource(map.reference(id))),
        },
        Part::Defined(id) => map.get(ComponentAnyTypeId::Defined(id)),
        Part::Func(id) => map.get(ComponentAnyTypeId::Func(id)),
        Part::Instance(id) => map.get(ComponentAnyTypeId::Instance(id)),
        Part::Component(id) => map.get(ComponentAnyTypeId::Component(id)),
        Part::Module(_) | Part::CoreInstance(_) | Part::Core(_) => Some(part),
    }
}

/// The parts of a node of that sort join the list. It reads the node once.
fn read<S: NodeSort, N: NodeStore, L: Ledger>(
    types: &N,
    id: S,
    parts: &mut Parts,
    steps: &mut Steps<L>,
) -> Result<(), OutOfMemory>
    requires stands { Stands (N.arena types.now) (S.as_part id) }
    ensures read { OnOk result (parts.new ≡ parts.old ++ parts_at (N.arena types.now) (S.as_part id)) }
    ensures unfolds { Unfolds (N.arena types.now) (S.as_part id) }
    ensures led { Led (tree_at (N.arena types.now) (S.as_part id)) }
    ensures counted { steps.new ≡ steps.old + 1 }
{
    let shape = types.view(id, steps);
    S::parts_into(shape, parts)
}

/// The parts of a node join the list. It reads the node once.
fn parts_into<N: NodeStore, L: Ledger>(
    types: &N,
    part: Part,
    parts: &mut Parts,
    steps: &mut Steps<L>,
) -> Result<(), OutOfMemory>
    requires stands { Stands (N.arena types.now) part }
    requires node { is_node part ≡ true }
    ensures read { OnOk result (parts.new ≡ parts.old ++ parts_at (N.arena types.now) part) }
    ensures unfolds { Unfolds (N.arena types.now) part }
    ensures led { Led (tree_at (N.arena types.now) part) }
    ensures counted { steps.new ≡ steps.old + 1 }
{
    match part {
        Part::Defined(id) => read(types, id, parts, steps),
        Part::Func(id) => read(types, id, parts, steps),
        Part::Instance(id) => read(types, id, parts, steps),
        Part::Component(id) => read(types, id, parts, steps),
        _ => unreachable!(),
    }
}

/// A node that is made again with other parts.
fn made_again<N: NodeStore>(types: &mut N, part: Part, parts: &Parts) -> Result<Part, OutOfMemory>
    requires stands { Stands (N.arena types.old) part }
    requires node { is_node part ≡ true }
    requires refits { Refits (N.arena types.old) part parts.now }
    ensures ok { IfOk result (λ to. MadeAgain (N.arena types.old) (N.arena types.new) part parts.now to) }
    ensures err { OnErr result (N.arena types.new ≡ N.arena types.old) }
{
    match part {
        Part::Defined(id) => Ok(Part::Defined(types.rebuild(id, parts)?)),
        Part::Func(id) => Ok(Part::Func(types.rebuild(id, parts)?)),
        Part::Instance(id) => Ok(Part::Instance(types.rebuild(id, parts)?)),
        Part::Component(id) => Ok(Part::Component(types.rebuild(id, parts)?)),
        _ => unreachable!(),
    }
}

fn is_same(a: Part, b: Part) -> bool
    ensures { result ≡ same_part a b }
{
    match (a, b) {
        (Part::Resource(q), Part::Resource(r)) => {
            q.resource.index == r.resource.index && q.stamp == r.stamp
        }
        (Part::Defined(i), Part::Defined(j)) => i.index == j.index,
        (Part::Func(i), Part::Func(j)) => i.index == j.index,
        (Part::Instance(i), Part::Instance(j)) => i.index == j.index,
        (Part::Component(i), Part::Component(j)) => i.index == j.index,
        (Part::Module(i), Part::Module(j)) => i.index == j.index,
        (Part::CoreInstance(i), Part::CoreInstance(j)) => i.index == j.index,
        (Part::Core(i), Part::Core(j)) => i.index == j.index,
        _ => false,
    }
}

/// Whether some part is another than that at its place.
#[tactic(auto, using(crate::proofs::Lists::next_pair, crate::proofs::Lists::no_pair, crate::proofs::Lists::no_second))]
fn differ(a: &[Part], b: &[Part]) -> bool
    ensures { result ≡ any_other a.now b.now }
{
    for k in 0..a.len() {
        if k >= b.len() {
            return false;
        }
        if !is_same(a[k], b[k]) {
            return true;
        }
    }
    false
}

/// What becomes of a node whose parts became others.
#[tactic(auto, using(crate::proofs::Rebuilding::settles_same, crate::proofs::Rebuilding::settles_made))]
fn settle<N: NodeStore>(
    types: &mut N,
    part: Part,
    old: &Parts,
    new: &Parts,
) -> Result<Part, OutOfMemory>
    requires stands { Stands (N.arena types.old) part }
    requires node { is_node part ≡ true }
    requires old { old.now ≡ parts_at (N.arena types.old) part }
    requires refits { Refits (N.arena types.old) part new.now }
    ensures settled { IfOk result (λ to. Settled (N.arena types.old) (N.arena types.new) part new.now to) }
    ensures err { OnErr result (N.arena types.new ≡ N.arena types.old) }
{
    if differ(old.as_slice(), new.as_slice()) {
        made_again(types, part, new)
    } else {
        Ok(part)
    }
}

/// Whether the type stays as it is, whatever stands in it: it mentions no resource, and no type was given.
fn stays<N: NodeStore>(types: &N, part: Part, map: &Remapping) -> bool
    requires { Stands (N.arena types.now) part }
    ensures { result ≡ (not (gives_types map.now) && not (mentions (tree_at (N.arena types.now) part))) }
{
    !map.gives_types() && !types.mentions_resource(part)
}

/// The type with what the map makes of it. It reads a node only where the map does not have it yet, and where
/// something in it may go elsewhere.
pub fn remap_part<N: NodeStore, L: Ledger>(
    types: &mut N,
    part: Part,
    map: &mut Remapping,
    steps: &mut Steps<L>,
) -> Result<Part, OutOfMemory>
    requires stands { Stands (N.arena types.old) part }
    requires inside { IsInside part }
    requires sound { Sound (N.arena types.old) map.old }
    requires hygienic { HygienicAt (N.arena types.old) map.old part }
    ensures grown { Extends (N.arena types.old) (N.arena types.new) }
    ensures done { IfOk result (λ to. Remapped (N.arena types.old) (N.arena types.new) map.old map.new steps.old steps.new part to) }
{
    if stays(types, part, map) {
        return Ok(part);
    }
    if let Some(to) = found(map, part) {
        return Ok(to);
    }
    let mut parts = types.no_parts();
    parts_into(types, part, &mut parts, steps)?;
    let mut tos = types.no_parts();
    for p in parts.as_slice() {
        let to = remap_part(types, *p, map, steps)?;
        tos.push(to)?;
    }
    let to = settle(types, part, &parts, &tos)?;
    map.keep(part, to)?;
    Ok(to)
}
