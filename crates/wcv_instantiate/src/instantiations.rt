// Instances that are made of components, whose imports arguments open.
ghost use Rattle.std.specs.Prelude.{◌≡◌, ◌<◌, All, IfErr, IfOk, OnOk};
ghost use Rattle.wcv_core.specs.Names.{Name};
ghost use Rattle.wcv_types.specs.Standing.{Extends, Stands};
ghost use Rattle.wcv_types.specs.Tree.{owned};
ghost use Rattle.wcv_types.specs.Unfold.{tree_at};
ghost use Rattle.wcv_types.specs.declared.ids.Part.TheVariants as part;
ghost use Rattle.wcv_matching.specs.Refusals.{MemoryOrMismatch};
ghost use Rattle.wcv_matching.specs.TableMatching.{Opens};
ghost use Rattle.wcv_subtype.specs.Openings.{named_args, ArgumentStands, IsOpening};
ghost use Rattle.wcv_instantiate.specs.Instantiations.{ComponentInstanceMade, IsExporter, MayInstantiate};

use crate::instances::{NewInstance, Opened, push_instance, remapped_exports, replace_resources};
use std::alloc::Global;
use std::marker::Brand;
use std::sync::ledger::{Blank, Ledger};
use wcv_core::{Error, OutOfMemory, Place};
use wcv_subtype::{EntityMap, Remapping, open_instance_type};
use wcv_types::{ComponentTypeId, NodeStore, Paths, Steps, TypeAlloc};

/// Resources and the places where they stand, copied.
fn copy_paths(alloc: Global, paths: &Paths) -> Result<Paths, OutOfMemory>
    ensures { IfOk result (λ copied. copied ≡ paths.now) }
{
    let mut copied = Paths::new(alloc);
    for k in 0..paths.len() {
        match paths.get_index(k) {
            Some((resource, place)) => {
                copied.insert(*resource, Place::new(alloc, place.positions())?)?;
            }
            None => unreachable!(),
        }
    }
    Ok(copied)
}

/// What the component exports and defines, copied.
fn read_component<L: Ledger>(
    types: &TypeAlloc,
    id: ComponentTypeId,
    steps: &mut Steps<L>,
) -> Result<Opened, OutOfMemory>
    requires { Stands types.now (part.Component id) }
    ensures { IfOk result (IsExporter types.now id) }
{
    types.nodes_fit();
    let shape = types.view(id, steps);
    let owned = copy_paths(types.allocator(), &shape.defined_resources)?;
    let _ = owned.len();
    let exports = shape.exports.copy(types.allocator())?;
    Ok(Opened { exports, owned })
}

/// An instance of the component that the map opens.
fn made_under<L: Ledger>(
    types: &mut TypeAlloc,
    component: ComponentTypeId,
    args: &EntityMap,
    map: &mut Remapping,
    steps: &mut Steps<L>,
) -> Result<NewInstance, OutOfMemory>
    requires stands { Stands types.old (part.Component component) }
    requires args { All (ArgumentStands types.old) args.now }
    requires may { MayInstantiate (named_args types.old args.now) (tree_at types.old (part.Component component)) }
    requires opens { IsOpening types.old args.now component map.old }
    ensures ok { IfOk result (ComponentInstanceMade types.old types.new args.now component) }
    ensures grown { Extends types.old types.new }
{
    let _ = args;
    types.names_given();
    let old = read_component(types, component, steps)?;
    let resources = replace_resources(types, &old.owned, map)?;
    let exports = remapped_exports(types, &old.exports, map, steps)?;
    map.entries_differ();
    let ty = push_instance(types, exports)?;
    Ok(NewInstance { ty, resources })
}

/// An instance of the component, with the steps counted.
fn made_by<L: Ledger>(
    types: &mut TypeAlloc,
    component: ComponentTypeId,
    args: &EntityMap,
    offset: u64,
    blank: Blank,
) -> Result<NewInstance, Error>
    requires stands { Stands types.old (part.Component component) }
    requires args { All (ArgumentStands types.old) args.now }
    requires may { MayInstantiate (named_args types.old args.now) (tree_at types.old (part.Component component)) }
    requires name { blank.name ≡ L.name }
    requires parts { blank.parts ≡ L.parts }
    requires some { 0 < blank.parts }
    ensures opens { OnOk result ((s : Name → Name) × Opens types.old.core s (named_args types.old args.now) (tree_at types.old (part.Component component))) }
    ensures ok { IfOk result (ComponentInstanceMade types.old types.new args.now component) }
    ensures err { IfErr result (MemoryOrMismatch offset ((s : Name → Name) × Opens types.old.core s (named_args types.old args.now) (tree_at types.old (part.Component component)))) }
    ensures grown { Extends types.old types.new }
{
    let mut steps: Steps<L> = Steps::new(blank);
    let mut map = match open_instance_type(types, args, component, offset, &mut steps) {
        Ok(map) => map,
        Err(error) => return Err(error),
    };
    let made = made_under(types, component, args, &mut map, &mut steps)?;
    Ok(made)
}

/// An instance of a component: its imports are opened by the arguments, what it defines becomes new, what mentions one of these
/// is made again, and all else stays. Refuses arguments that open nothing as `Mismatch`. After an error the arena may have
/// grown.
pub fn instance_of_component(
    types: &mut TypeAlloc,
    component: ComponentTypeId,
    args: &EntityMap,
    offset: u64,
) -> Result<NewInstance, Error>
    requires stands { Stands types.old (part.Component component) }
    requires args { All (ArgumentStands types.old) args.now }
    requires may { MayInstantiate (named_args types.old args.now) (tree_at types.old (part.Component component)) }
    ensures opens { OnOk result ((s : Name → Name) × Opens types.old.core s (named_args types.old args.now) (tree_at types.old (part.Component component))) }
    ensures ok { IfOk result (ComponentInstanceMade types.old types.new args.now component) }
    ensures err { IfErr result (MemoryOrMismatch offset ((s : Name → Name) × Opens types.old.core s (named_args types.old args.now) (tree_at types.old (part.Component component)))) }
    ensures grown { Extends types.old types.new }
{
    made_by::<Brand>(types, component, args, offset, Blank::new(1))
}
