// Sets of resources without those that a type owns.
ghost use Rattle.std.specs.Prelude.{◌≡◌, true, false, OnOk, OnErr};
ghost use Rattle.wcv_core.specs.Names.{number, member};
ghost use Rattle.wcv_types.specs.Gathering.{Gains, Continues};
ghost use Rattle.wcv_types.specs.Resources as resources;
ghost use Rattle.wcv_types.specs.Sets.{resource_names};
ghost use Rattle.wcv_types.specs.Standing.{Stands};
ghost use Rattle.wcv_types.specs.Tree.{head};
ghost use Rattle.wcv_types.specs.Unfold.{tree_at};

use wcv_core::OutOfMemory;
use wcv_types::{Part, ResourceId, ResourceSet, TypeAlloc};

/// Whether the type owns the resource.
fn owns(types: &TypeAlloc, part: Part, id: ResourceId) -> bool
    requires { Stands types.now part }
    ensures { result ≡ resources.owns (head (tree_at types.now part)) (number id.index) }
{
    match part {
        Part::Instance(of) => types.get(of).defined_resources.contains(&id),
        Part::Component(of) => {
            let shape = types.get(of);
            shape.imported_resources.get(&id).is_some() | shape.defined_resources.get(&id).is_some()
        }
        _ => false,
    }
}

/// The resources of a set join another, but for those that the type owns.
pub fn free_outside(
    types: &TypeAlloc,
    part: Part,
    inside: &ResourceSet,
    free: &mut ResourceSet,
) -> Result<(), OutOfMemory>
    requires { Stands types.now part }
    ensures ok { OnOk result (Gains (λ r. (member r (resource_names inside.now) ≡ true) × (resources.owns (head (tree_at types.now part)) r ≡ false)) free.old free.new) }
    ensures err { OnErr result (Continues free.old free.new) }
{
    for k in 0..inside.len() {
        match inside.get_index(k) {
            Some(id) => push_unowned(types, part, *id, free)?,
            None => unreachable!(),
        }
    }
    Ok(())
}

/// The resources of a set join another.
pub fn join(set: &ResourceSet, free: &mut ResourceSet) -> Result<(), OutOfMemory>
    ensures ok { OnOk result (Gains (λ r. member r (resource_names set.now) ≡ true) free.old free.new) }
    ensures err { OnErr result (Continues free.old free.new) }
{
    for k in 0..set.len() {
        match set.get_index(k) {
            Some(id) => free.push(*id)?,
            None => unreachable!(),
        }
    }
    Ok(())
}

/// A resource joins the set, unless the type owns it.
fn push_unowned(
    types: &TypeAlloc,
    part: Part,
    id: ResourceId,
    free: &mut ResourceSet,
) -> Result<(), OutOfMemory>
    requires { Stands types.now part }
    ensures ok { OnOk result (Gains (λ r. (r ≡ number id.index) × (resources.owns (head (tree_at types.now part)) r ≡ false)) free.old free.new) }
    ensures err { OnErr result (Continues free.old free.new) }
{
    if owns(types, part, id) {
        return Ok(());
    }
    free.push(id)
}
