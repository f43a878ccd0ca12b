// Whether types own the same resources.
ghost use Rattle.std.specs.Prelude.{◌≡◌, option_copied};
ghost use Rattle.std.specs.List.{list_all};
ghost use Rattle.wcv_types.specs.Entities.{any_part};
ghost use Rattle.wcv_types.specs.Sets.{has_resource};
ghost use Rattle.wcv_types.specs.Standing.{Stands};
ghost use Rattle.wcv_types.specs.Tree.{owned};
ghost use Rattle.wcv_types.specs.Unfold.{tree_at};
ghost use Rattle.wcv_matching.specs.OnePass.{same_members};
ghost use Rattle.wcv_atoms.specs.IdPasses.{OwnsBy};

use wcv_types::{ComponentAnyTypeId, ResourceSet, TypeAlloc};

/// Whether each resource of the one set is in the other.
fn all_among(a: &ResourceSet, b: &ResourceSet) -> bool
    ensures { result ≡ list_all (has_resource b.now) a.now }
{
    for k in 0..a.len() {
        if let Some(resource) = a.get_index(k) {
            if !b.contains(resource) {
                return false;
            }
        }
    }
    true
}

/// The resources of its own that an instance type has.
fn owned_resources(types: &TypeAlloc, id: ComponentAnyTypeId) -> Option<&ResourceSet>
    requires { Stands types.now (any_part id) }
    ensures { OwnsBy (option_copied result) (tree_at types.now (any_part id)) }
{
    match id {
        ComponentAnyTypeId::Instance(id) => Some(&types.get(id).defined_resources),
        _ => None,
    }
}

/// Whether both types own the same resources, as instance types do.
pub fn same_owned(types: &TypeAlloc, a: ComponentAnyTypeId, b: ComponentAnyTypeId) -> bool
    requires a { Stands types.now (any_part a) }
    requires b { Stands types.now (any_part b) }
    ensures { result ≡ same_members (owned (tree_at types.now (any_part a))) (owned (tree_at types.now (any_part b))) }
{
    match owned_resources(types, a) {
        Some(x) => match owned_resources(types, b) {
            Some(y) => all_among(x, y) && all_among(y, x),
            None => x.len() == 0,
        },
        None => match owned_resources(types, b) {
            Some(y) => y.len() == 0,
            None => true,
        },
    }
}
