// Types that are written beside exported items.
ghost use Rattle.std.specs.Prelude.{◌≡◌, ◌<◌, OnOk, IfErr};
ghost use Rattle.wcv_types.specs.Entities.{entity_tree, EntityStands};
ghost use Rattle.wcv_types.specs.Unfold.{trees};
ghost use Rattle.wcv_matching.specs.Refusals.{MemoryOrMismatch};
ghost use Rattle.wcv_matching.specs.TableMatching.{TypeMatches};
ghost use Rattle.wcv_lower.specs.Checks.{IsFree};
ghost use Rattle.wcv_spaces.specs.Looking as looking;
ghost use Rattle.wcv_spaces.specs.Looking.{ascribed_id_checks};
ghost use Rattle.wcv_spaces.specs.Promises.{MemoryOrCausedBy};

use crate::instances::is_closed;
use std::marker::Brand;
use std::sync::ledger::{Blank, Ledger};
use wcv_core::{Error, ErrorKind, Why};
use wcv_spaces::new_entity::introduced;
use wcv_subtype::component_entity_type;
use wcv_types::{ComponentEntityType, Steps, TypeAlloc};

/// Whether the entity brings resources of its own where it joins.
fn brings_own(types: &TypeAlloc, ty: &ComponentEntityType) -> bool
    requires { EntityStands types.now ty.now }
    ensures { result ≡ looking.brings_own types.now ty.now }
{
    match ty {
        ComponentEntityType::Instance(id) => !is_closed(types, *id),
        _ => introduced(ty).is_some(),
    }
}

/// Whether the item has the type, with the steps counted.
fn matches_by<L: Ledger>(
    types: &TypeAlloc,
    item: &ComponentEntityType,
    ty: &ComponentEntityType,
    offset: u64,
    blank: Blank,
) -> Result<(), Error>
    requires item { EntityStands types.now item.now }
    requires ty { EntityStands types.now ty.now }
    requires name { blank.name ≡ L.name }
    requires parts { blank.parts ≡ L.parts }
    requires some { 0 < blank.parts }
    ensures ok { OnOk result (TypeMatches types.now.core (entity_tree (trees types.now.nodes) item.now) (entity_tree (trees types.now.nodes) ty.now)) }
    ensures err { IfErr result (MemoryOrMismatch offset (TypeMatches types.now.core (entity_tree (trees types.now.nodes) item.now) (entity_tree (trees types.now.nodes) ty.now))) }
{
    let mut steps: Steps<L> = Steps::new(blank);
    component_entity_type(types, item, ty, offset, &mut steps)
}

/// Whether the item has the type that is written beside it, which may bring no resources of its own.
pub fn check_ascribed(
    types: &TypeAlloc,
    item: &ComponentEntityType,
    ty: &ComponentEntityType,
    offset: u64,
) -> Result<(), Error>
    requires item { EntityStands types.now item.now }
    requires ty { EntityStands types.now ty.now }
    ensures ok { OnOk result (IsFree (ascribed_id_checks types.now item.now ty.now)) }
    ensures err { IfErr result (MemoryOrCausedBy (ascribed_id_checks types.now item.now ty.now) offset) }
{
    types.nodes_fit();
    let _count = types.core_types().len();
    if brings_own(types, ty) {
        let why = Why::new("no item has a type that brings resources of its own");
        return Err(Error::from(Error::new(ErrorKind::Mismatch, offset, why)));
    }
    matches_by::<Brand>(types, item, ty, offset, Blank::new(1))
}
