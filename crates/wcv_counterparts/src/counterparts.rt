// What stands on the other side for the own resources of a component type, by the paths that are recorded for them.
ghost use Rattle.std.specs.Prelude.{◌≡◌, ◌+◌, ◌≤◌, ℕ, [], true, None, map, is_some, option_map, option_copied, Some, All, IfOk, IfSome, OnOk};
ghost use Rattle.std.specs.BTreeMap.{get_by};
ghost use Rattle.std.specs.Ordering.{nat_cmp};
ghost use Rattle.wcv_types.specs.Entities.{entity_tree, EntityStands, EntryStands};
ghost use Rattle.wcv_types.specs.Tree.{head, referenced};
ghost use Rattle.wcv_types.specs.Unfold.{resource_path, trees};
ghost use Rattle.wcv_atoms.specs.Extent.{walk, walks};
ghost use Rattle.wcv_counterparts.specs.IdCounterparts.{counterparts_of, exporter, exports_by_ids, lands_on, AreExports};
ghost use Rattle.wcv_atoms.specs.IdPasses.{named_trees};
ghost use Rattle.wcv_matching.specs.Matching.{named_exports};
ghost use Rattle.wcv_matching.specs.NamedPaths.{entry, follow as follows, resource_at};
ghost use Rattle.wcv_atoms.specs.Readings.{resource_name};

use std::alloc::Global;
use std::collections::BTreeMap;
use std::sync::ledger::Ledger;
use wcv_atoms::{as_resource, visited};
use wcv_core::{OutOfMemory, Text};
use wcv_types::{
    ByName, ComponentEntityType, ComponentItem, ItemMap, Paths, ResourceId, Steps, TypeAlloc,
};

/// What an entry exports, where it may export something.
fn exports_of<'a, L: Ledger>(
    types: &'a TypeAlloc,
    ty: ComponentEntityType,
    steps: &mut Steps<L>,
) -> Option<&'a ItemMap>
    requires { EntityStands types.now ty }
    ensures exports { named_exports (entity_tree (trees types.now.nodes) ty) ≡ exports_by_ids types.now (option_copied result) }
    ensures some { is_some (option_copied result) ≡ is_some (exporter ty) }
    ensures stand { IfSome (option_copied result) (All (EntryStands types.now)) }
    ensures counted { steps.new ≤ steps.old + 1 }
{
    types.nodes_fit();
    match ty {
        ComponentEntityType::Instance(id) => Some(&visited(types, id, steps).exports),
        ComponentEntityType::Component(id) => Some(&visited(types, id, steps).exports),
        _ => None,
    }
}

/// The place of a node that may export something.
fn place_of(ty: ComponentEntityType) -> Option<u64>
    ensures { result ≡ exporter ty }
{
    match ty {
        ComponentEntityType::Instance(id) => Some(id.index),
        ComponentEntityType::Component(id) => Some(id.index),
        _ => None,
    }
}

/// The resource that an entry of a type refers to.
fn resource_of(types: &TypeAlloc, ty: ComponentEntityType) -> Option<ResourceId>
    requires { EntityStands types.now ty }
    ensures { option_map resource_name result ≡ resource_at (head (referenced (entity_tree (trees types.now.nodes) ty))) }
{
    types.nodes_fit();
    match ty {
        ComponentEntityType::Ty { referenced, .. } => as_resource(referenced),
        _ => None,
    }
}

/// Maps by name of the exports of nodes, by places. Each is made when it is asked for first.
#[derive(Drop)]
pub struct Exports<'a> {
    maps: BTreeMap<u64, ByName<'a, ComponentItem>>,
}

impl<'a> Exports<'a> {
    /// No map.
    pub fn new(alloc: Global) -> Exports<'a>
        ensures { (k : ℕ) → get_by (λ j. nat_cmp k j) result.maps ≡ None }
    {
        Exports {
            maps: BTreeMap::new(alloc),
        }
    }

    /// The map of what the node at the place exports is made, where there is none yet.
    fn keep<L: Ledger>(
        &mut self,
        types: &'a TypeAlloc,
        ty: ComponentEntityType,
        place: u64,
        steps: &mut Steps<L>,
    ) -> Result<(), OutOfMemory>
        requires stands { EntityStands types.now ty }
        requires place { exporter ty ≡ Some place }
        requires maps { AreExports types.now self.old }
        ensures maps { OnOk result (AreExports types.now self.new) }
        ensures there { OnOk result (is_some (get_by (λ k. nat_cmp place k) self.new.maps) ≡ true) }
        ensures counted { steps.new ≤ steps.old + 1 }
    {
        if self.maps.get(&place).is_some() {
            return Ok(());
        }
        match exports_of(types, ty, steps) {
            Some(exports) => {
                let map = exports.by_name(types.allocator())?;
                drop(self.maps.insert(place, map)?);
                Ok(())
            }
            None => unreachable!(),
        }
    }

    /// What the entry exports under the name.
    pub fn find<L: Ledger>(
        &mut self,
        types: &'a TypeAlloc,
        ty: ComponentEntityType,
        name: &Text,
        steps: &mut Steps<L>,
    ) -> Result<Option<ComponentEntityType>, OutOfMemory>
        requires stands { EntityStands types.now ty }
        requires maps { AreExports types.now self.old }
        ensures maps { OnOk result (AreExports types.now self.new) }
        ensures stands { IfOk result (λ found. IfSome found (EntityStands types.now)) }
        ensures found { IfOk result (λ found. option_map (entity_tree (trees types.now.nodes)) found ≡ entry name.now (named_exports (entity_tree (trees types.now.nodes) ty))) }
        ensures counted { steps.new ≤ steps.old + 1 }
    {
        let place = match place_of(ty) {
            Some(place) => place,
            None => {
                let _ = exports_of(types, ty, steps);
                return Ok(None);
            }
        };
        self.keep(types, ty, place, steps)?;
        match self.maps.get(&place) {
            Some(map) => match map.get(name) {
                Some(item) => Ok(Some(item.ty)),
                None => Ok(None),
            },
            None => unreachable!(),
        }
    }
}

/// The resource to which the path leads by the names of the entries that it takes.
fn follow<'a, L: Ledger>(
    types: &'a TypeAlloc,
    seen: &mut Exports<'a>,
    path: &[u64],
    entries: &ItemMap,
    others: &ByName<'_, ComponentItem>,
    steps: &mut Steps<L>,
) -> Result<Option<ResourceId>, OutOfMemory>
    requires maps { AreExports types.now seen.old }
    requires entries { All (EntryStands types.now) entries.now }
    requires others { All (EntryStands types.now) others.now }
    ensures maps { OnOk result (AreExports types.now seen.new) }
    ensures found { IfOk result (λ found. option_map resource_name found ≡ follows path.now (named_trees (trees types.now.nodes) entries.now) (named_trees (trees types.now.nodes) others.now)) }
    ensures counted { steps.new ≤ steps.old + walk path.now }
{
    let first = match path.first() {
        Some(first) => *first,
        None => return Ok(None),
    };
    let entry = match entries.get_index(first as usize) {
        Some(entry) => entry,
        None => return Ok(None),
    };
    let mut here = entry.1.ty;
    let mut there = match others.get(&entry.0) {
        Some(item) => item.ty,
        None => return Ok(None),
    };
    for k in 1..path.len() {
        let entry = match exports_of(types, here, steps) {
            Some(exports) => match exports.get_index(path[k] as usize) {
                Some(entry) => entry,
                None => return Ok(None),
            },
            None => return Ok(None),
        };
        there = match seen.find(types, there, &entry.0, steps)? {
            Some(ty) => ty,
            None => return Ok(None),
        };
        here = entry.1.ty;
    }
    Ok(resource_of(types, there))
}

/// The own resources join a list that has none, with what stands for each among the entries of the other side: itself,
/// where its path leads to none. The maps of exports are kept from one to the next.
fn push_counterparts<'a, L: Ledger>(
    types: &'a TypeAlloc,
    seen: &mut Exports<'a>,
    found: &mut Vec<(ResourceId, ResourceId)>,
    paths: &Paths,
    entries: &ItemMap,
    others: &ByName<'_, ComponentItem>,
    steps: &mut Steps<L>,
) -> Result<(), OutOfMemory>
    requires seen { AreExports types.now seen.old }
    requires none { found.old.items ≡ [] }
    requires entries { All (EntryStands types.now) entries.now }
    requires others { All (EntryStands types.now) others.now }
    ensures found { OnOk result (map lands_on found.new.items ≡ counterparts_of (map resource_path paths.now) (named_trees (trees types.now.nodes) entries.now) (named_trees (trees types.now.nodes) others.now)) }
    ensures counted { steps.new ≤ steps.old + walks (map resource_path paths.now) }
{
    for k in 0..paths.len() {
        match paths.get_index(k) {
            Some((resource, path)) => {
                let other = follow(types, seen, path.positions(), entries, others, steps)?;
                found.push((*resource, other.unwrap_or(*resource)))?;
            }
            None => unreachable!(),
        }
    }
    Ok(())
}

/// The own resources with what stands for each among the entries of the other side: itself, where its path leads to none.
pub fn counterparts_in<L: Ledger>(
    types: &TypeAlloc,
    paths: &Paths,
    entries: &ItemMap,
    others: &ByName<'_, ComponentItem>,
    steps: &mut Steps<L>,
) -> Result<Vec<(ResourceId, ResourceId)>, OutOfMemory>
    requires entries { All (EntryStands types.now) entries.now }
    requires others { All (EntryStands types.now) others.now }
    ensures found { IfOk result (λ found. map lands_on found.items ≡ counterparts_of (map resource_path paths.now) (named_trees (trees types.now.nodes) entries.now) (named_trees (trees types.now.nodes) others.now)) }
    ensures counted { steps.new ≤ steps.old + walks (map resource_path paths.now) }
{
    let mut found = Vec::new(types.allocator());
    let mut seen = Exports::new(types.allocator());
    let done = push_counterparts(types, &mut seen, &mut found, paths, entries, others, steps);
    drop(seen);
    match done {
        Ok(()) => Ok(found),
        Err(err) => Err(err),
    }
}

/// So where the other side is not yet by its names: nothing is made where there is no resource.
pub(crate) fn counterparts<L: Ledger>(
    types: &TypeAlloc,
    paths: &Paths,
    entries: &ItemMap,
    others: &ItemMap,
    steps: &mut Steps<L>,
) -> Result<Vec<(ResourceId, ResourceId)>, OutOfMemory>
    requires entries { All (EntryStands types.now) entries.now }
    requires others { All (EntryStands types.now) others.now }
    ensures found { IfOk result (λ found. map lands_on found.items ≡ counterparts_of (map resource_path paths.now) (named_trees (trees types.now.nodes) entries.now) (named_trees (trees types.now.nodes) others.now)) }
    ensures counted { steps.new ≤ steps.old + walks (map resource_path paths.now) }
{
    let alloc = types.allocator();
    if paths.len() == 0 {
        return Ok(Vec::new(alloc));
    }
    let by_name = others.by_name(alloc)?;
    let found = counterparts_in(types, paths, entries, &by_name, steps);
    drop(by_name);
    found
}
