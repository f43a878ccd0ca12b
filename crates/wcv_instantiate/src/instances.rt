// Instances that are made of instance types, where one is imported or exported.
ghost use Rattle.std.specs.Prelude.{◌≡◌, ◌<◌, ◌∷◌, ◌++◌, [], None, true, false, All, IfOk, OnOk, OnErr};
ghost use Rattle.std.specs.Map.{lookup};
ghost use Rattle.wcv_lower.specs.Owned.{OwnsApart};
ghost use Rattle.wcv_instantiate.specs.Instances.{InstanceMade};
ghost use Rattle.wcv_instantiate.specs.Opening.{one_more, owns_none, ExportsRemapped, InstancePushed, IsOpened, Replaced, TypePushed, TypesRemapped};
ghost use Rattle.wcv_remap.specs.Entities.{EntityHygienic};
ghost use Rattle.wcv_remap.specs.Map.{resource_to};
ghost use Rattle.wcv_remap.specs.Remap.{Sound};
ghost use Rattle.wcv_types.specs.ByName.{NamesDiffer};
ghost use Rattle.wcv_types.specs.Entities.{EntryStands};
ghost use Rattle.wcv_types.specs.Sets.{same_resource};
ghost use Rattle.wcv_types.specs.Standing.{Extends, Stands};
ghost use Rattle.wcv_types.specs.Unfold.{tree_at};
ghost use Rattle.wcv_types.specs.declared.ids.Part.TheVariants as part;

use std::marker::Brand;
use std::sync::ledger::{Blank, Ledger};
use wcv_core::{OutOfMemory, Place, Text};
use wcv_subtype::{Remapping, remap_component_entity};
use wcv_types::{
    ComponentEntityType, ComponentInstanceType, ComponentInstanceTypeId, ComponentItem, ItemMap,
    NodeStore, Paths, ResourceId, ResourceSet, Steps, TypeAlloc,
};
use wcv_walks::ResourcePaths;

/// An instance of an instance type or of a component, and the resources that are new in it, each with a path to it.
#[derive(Drop)]
pub struct NewInstance {
    pub ty: ComponentInstanceTypeId,
    pub resources: Paths,
}

/// What a type exports, and the resources that become new in its instances, each with a path to it.
#[derive(Drop)]
pub struct Opened {
    pub exports: ItemMap,
    pub owned: Paths,
}

/// Whether the type owns no resource.
#[tactic(auto, using(crate::proofs::OpenedType::closed_is))]
pub fn is_closed(types: &TypeAlloc, id: ComponentInstanceTypeId) -> bool
    requires { Stands types.now (part.Instance id) }
    ensures { result ≡ owns_none (tree_at types.now (part.Instance id)) }
{
    types.get(id).defined_resources.len() == 0
}

/// What the type exports and owns, copied.
fn read_type<L: Ledger>(
    types: &TypeAlloc,
    id: ComponentInstanceTypeId,
    steps: &mut Steps<L>,
) -> Result<Opened, OutOfMemory>
    requires { Stands types.now (part.Instance id) }
    ensures { IfOk result (IsOpened types.now id) }
{
    types.nodes_fit();
    let shape = types.view(id, steps);
    let _ = shape.defined_resources.len();
    let owned = types.explicit_resource_paths(&shape.exports, &shape.defined_resources)?;
    let exports = shape.exports.copy(types.allocator())?;
    Ok(Opened { exports, owned })
}

/// A new resource comes in the place of an older one, with the path to that.
fn replace_resource(
    types: &mut TypeAlloc,
    old: ResourceId,
    path: &Place,
    map: &mut Remapping,
    paths: &mut Paths,
) -> Result<(), OutOfMemory>
    requires absent { resource_to map.old old ≡ None }
    requires fresh { lookup (same_resource (record { index = types.old.resources })) paths.old ≡ None }
    ensures grown { Extends types.old types.new }
    ensures types { OnOk result (types.new ≡ one_more types.old) }
    ensures map { OnOk result (map.new ≡ record map.old { resources = map.old.resources ++ (old, record { index = types.old.resources }) ∷ [] }) }
    ensures paths { OnOk result (paths.new ≡ paths.old ++ (record { index = types.old.resources }, path.now) ∷ []) }
{
    let new = types.alloc_resource_id()?.resource;
    map.push_resource(old, new)?;
    let place = Place::new(types.allocator(), path.positions())?;
    paths.insert(new, place)
}

/// So do new resources in the places of those that a type owns.
pub(crate) fn replace_resources(
    types: &mut TypeAlloc,
    owned: &Paths,
    map: &mut Remapping,
) -> Result<Paths, OutOfMemory>
    requires { All (λ e. resource_to map.old e.0 ≡ None) owned.now }
    ensures grown { Extends types.old types.new }
    ensures ok { IfOk result (λ paths. Replaced types.old types.new map.old map.new owned.now paths) }
{
    let mut paths = Paths::new(types.allocator());
    for k in 0..owned.len() {
        match owned.get_index(k) {
            Some((old, path)) => replace_resource(types, *old, path, map, &mut paths)?,
            None => unreachable!(),
        }
    }
    Ok(paths)
}

/// What the map makes of the type of the entry joins the list.
fn push_type<L: Ledger>(
    types: &mut TypeAlloc,
    entry: &(Text, ComponentItem),
    map: &mut Remapping,
    steps: &mut Steps<L>,
    tys: &mut Vec<ComponentEntityType>,
) -> Result<(), OutOfMemory>
    requires stands { EntryStands types.old entry.now }
    requires sound { Sound types.old map.old }
    requires hygienic { EntityHygienic types.old map.old entry.now.1.ty }
    ensures grown { Extends types.old types.new }
    ensures ok { OnOk result (TypePushed types.old types.new map.old map.new entry.now tys.old.items tys.new.items) }
{
    let mut ty = entry.1.ty;
    remap_component_entity(types, &mut ty, map, steps)?;
    tys.push(ty)?;
    Ok(())
}

/// What the map makes of the types of the exports.
fn remapped_types<L: Ledger>(
    types: &mut TypeAlloc,
    exports: &ItemMap,
    map: &mut Remapping,
    steps: &mut Steps<L>,
) -> Result<Vec<ComponentEntityType>, OutOfMemory>
    requires stand { All (EntryStands types.old) exports.now }
    requires sound { Sound types.old map.old }
    requires hygienic { All (λ e. EntityHygienic types.old map.old e.1.ty) exports.now }
    ensures grown { Extends types.old types.new }
    ensures ok { IfOk result (λ tys. TypesRemapped types.old types.new map.old map.new exports.now tys.items) }
{
    let mut tys = Vec::new(types.allocator());
    for k in 0..exports.len() {
        match exports.get_index(k) {
            Some(entry) => push_type(types, entry, map, steps, &mut tys)?,
            None => unreachable!(),
        }
    }
    Ok(tys)
}

/// What the map makes of the exports.
pub(crate) fn remapped_exports<L: Ledger>(
    types: &mut TypeAlloc,
    exports: &ItemMap,
    map: &mut Remapping,
    steps: &mut Steps<L>,
) -> Result<ItemMap, OutOfMemory>
    requires stand { All (EntryStands types.old) exports.now }
    requires sound { Sound types.old map.old }
    requires hygienic { All (λ e. EntityHygienic types.old map.old e.1.ty) exports.now }
    ensures grown { Extends types.old types.new }
    ensures ok { IfOk result (λ made. ExportsRemapped types.old types.new map.old map.new exports.now made) }
{
    let tys = remapped_types(types, exports, map, steps)?;
    exports.with_types(types.allocator(), tys.as_slice())
}

/// An instance type that owns nothing, with these exports.
#[tactic(auto, using(crate::proofs::OpenedType::instance_pushed))]
pub fn push_instance(
    types: &mut TypeAlloc,
    exports: ItemMap,
) -> Result<ComponentInstanceTypeId, OutOfMemory>
    requires stand { All (EntryStands types.old) exports }
    requires apart { NamesDiffer exports }
    ensures ok { IfOk result (InstancePushed types.old types.new exports) }
    ensures err { OnErr result (types.new ≡ types.old) }
{
    let none = ResourceSet::new(types.allocator());
    let shape = ComponentInstanceType::over(types, none, exports);
    types.push_ty(shape)
}

/// An instance of a type that owns resources.
fn made_anew<L: Ledger>(
    types: &mut TypeAlloc,
    id: ComponentInstanceTypeId,
    steps: &mut Steps<L>,
) -> Result<NewInstance, OutOfMemory>
    requires stands { Stands types.old (part.Instance id) }
    requires apart { OwnsApart (tree_at types.old (part.Instance id)) }
    requires owns { owns_none (tree_at types.old (part.Instance id)) ≡ false }
    ensures ok { IfOk result (InstanceMade types.old types.new id) }
    ensures grown { Extends types.old types.new }
{
    types.names_given();
    let old = read_type(types, id, steps)?;
    let mut map = Remapping::new(types.allocator());
    let resources = replace_resources(types, &old.owned, &mut map)?;
    let exports = remapped_exports(types, &old.exports, &mut map, steps)?;
    map.entries_differ();
    let ty = push_instance(types, exports)?;
    Ok(NewInstance { ty, resources })
}

/// A type that owns nothing is its own instance.
#[tactic(auto, using(crate::proofs::MadeAlone::owns_nothing))]
fn alone(types: &TypeAlloc, id: ComponentInstanceTypeId) -> NewInstance
    requires stands { Stands types.now (part.Instance id) }
    requires closed { owns_none (tree_at types.now (part.Instance id)) ≡ true }
    ensures { InstanceMade types.now types.now id result }
{
    NewInstance {
        ty: id,
        resources: Paths::new(types.allocator()),
    }
}

/// An instance of the type, with what is read counted.
#[tactic(auto, using(crate::proofs::ExportsAnew::grown_none))]
fn made_by<L: Ledger>(
    types: &mut TypeAlloc,
    id: ComponentInstanceTypeId,
    blank: Blank,
) -> Result<NewInstance, OutOfMemory>
    requires stands { Stands types.old (part.Instance id) }
    requires apart { OwnsApart (tree_at types.old (part.Instance id)) }
    requires name { blank.name ≡ L.name }
    requires parts { blank.parts ≡ L.parts }
    requires some { 0 < blank.parts }
    ensures ok { IfOk result (InstanceMade types.old types.new id) }
    ensures grown { Extends types.old types.new }
{
    if is_closed(types, id) {
        return Ok(alone(types, id));
    }
    let mut steps: Steps<L> = Steps::new(blank);
    made_anew(types, id, &mut steps)
}

/// An instance of an instance type: what the type owns becomes new, what mentions that is made again, and all else
/// stays. A type that owns nothing is its own instance. Out of memory the arena may have grown.
pub fn instance_of(
    types: &mut TypeAlloc,
    id: ComponentInstanceTypeId,
) -> Result<NewInstance, OutOfMemory>
    requires stands { Stands types.old (part.Instance id) }
    requires apart { OwnsApart (tree_at types.old (part.Instance id)) }
    ensures ok { IfOk result (InstanceMade types.old types.new id) }
    ensures grown { Extends types.old types.new }
{
    made_by::<Brand>(types, id, Blank::new(1))
}
