// Groups and, for each type, where it stands.
ghost use Rattle.std.specs.Prelude.{◌≡◌, ◌+◌, ◌-◌, ◌<◌, ◌≤◌, ◌++◌, ◌∷◌, List, [], ◌^◌, length, map, take, get_or, OnOk, OnErr, IfOk, IfSome, Some, None, slice_get};
ghost use Rattle.wcv_core.specs.CoreForm.{SubForm, Group, sub_form, group_form};
ghost use Rattle.wcv_core.specs.CoreRows.{AreLow, place_in};
ghost use Rattle.wcv_core.specs.CoreGroups.{parent_id, parent_in, depth_after, add_depths, AreOrdered, IsClosed, AreClosed, total, types_of, place_from, depths_of, parents_from};

use crate::core_types::{CoreTypeId, RecGroup, SubType, SuperType};
use crate::memory::OutOfMemory;
use std::alloc::Global;
use std::marker::Model;

/// The group of a type by its number, the id of the group's first type, and the type's declared supertype.
#[derive(Clone, Copy)]
pub struct Row {
    group: usize,
    first: u64,
    parent: Option<u64>,
}

/// Groups in the order in which they came. Contracts see them as the list of their forms.
#[derive(Drop)]
pub struct Rows {
    groups: Vec<RecGroup>,
    places: Vec<Row>,
    depths: Vec<u64>,
}

impl Model for Rows {
    ghost use Rattle.std.specs.Prelude.{List, map};
    ghost use Rattle.wcv_core.specs.CoreForm.{Group, group_form};
    ghost use Rattle.wcv_core.specs.CoreRows.{AreRows};

    ghost Value = { List Group };

    ghost view = { λ r. map group_form r.groups.items };

    ghost invariant = { λ r. AreRows (map group_form r.groups.items) r.places.items r.depths.items };
}

/// The id of a declared supertype, in the group whose first id is `first`.
fn parent_of(first: u64, supertype: Option<SuperType>) -> Option<u64>
    requires { IfSome (parent_id first supertype) (λ p. p < 2 ^ 64) }
    ensures { result ≡ parent_id first supertype }
{
    match supertype {
        None => None,
        Some(SuperType::Index(n)) => Some(first + n as u64),
        Some(SuperType::Id(id)) => Some(id.index),
    }
}

/// How many declared supertypes stand above a type with this parent.
fn depth_of(depths: &[u64], parent: Option<u64>) -> u64
    requires within { IfSome parent (λ p. p < length depths.now) }
    requires low { AreLow depths.now }
    ensures value { result ≡ depth_after depths.now parent }
    ensures low { result ≤ length depths.now }
{
    match parent {
        None => 0,
        Some(p) => depths[p as usize] + 1,
    }
}

fn push_type(places: &mut Vec<Row>, depths: &mut Vec<u64>, place: Row) -> Result<(), OutOfMemory>
    requires within { IfSome place.parent (λ p. p < length depths.old.items) }
    requires low { AreLow depths.old.items }
    ensures place { OnOk result (places.new.items ≡ places.old.items ++ place ∷ []) }
    ensures depth { OnOk result (depths.new.items ≡ depths.old.items ++ depth_after depths.old.items place.parent ∷ []) }
    ensures low { AreLow depths.new.items }
    ensures places_stay { OnErr result (places.new.items ≡ places.old.items) }
    ensures depths_stay { OnErr result (depths.new.items ≡ depths.old.items) }
{
    let depth = depth_of(depths.as_slice(), place.parent);
    places.push(place)?;
    match depths.push(depth) {
        Ok(()) => Ok(()),
        Err(_) => {
            places.pop();
            Err(OutOfMemory)
        }
    }
}

fn push_types(
    places: &mut Vec<Row>,
    depths: &mut Vec<u64>,
    group: usize,
    types: &[SubType],
) -> Result<(), OutOfMemory>
    requires even { length depths.old.items ≡ length places.old.items }
    requires low { AreLow depths.old.items }
    requires ordered { AreOrdered (length places.old.items) (length places.old.items) (map sub_form types.now) }
    ensures places { OnOk result (places.new.items ≡ places.old.items ++ map (place_in group (length places.old.items)) (map sub_form types.now)) }
    ensures depths { OnOk result (depths.new.items ≡ add_depths depths.old.items (map (parent_in (length places.old.items)) (map sub_form types.now))) }
    ensures low { OnOk result (AreLow depths.new.items) }
    ensures places_stay { OnErr result (places.new.items ≡ places.old.items) }
    ensures depths_stay { OnErr result (depths.new.items ≡ depths.old.items) }
{
    let first = places.len();
    for ty in types {
        let parent = parent_of(first as u64, ty.supertype);
        let place = Row {
            group,
            first: first as u64,
            parent,
        };
        match push_type(places, depths, place) {
            Ok(()) => {}
            Err(err) => {
                places.truncate(first);
                depths.truncate(first);
                return Err(err);
            }
        }
    }
    Ok(())
}

impl Rows {
    /// No group.
    pub fn new(alloc: Global) -> Rows
        ensures { result ≡ [] }
    {
        Rows {
            groups: Vec::new(alloc),
            places: Vec::new(alloc),
            depths: Vec::new(alloc),
        }
    }

    /// Appends a group in closed form. On an error nothing changes.
    pub fn push(&mut self, group: RecGroup) -> Result<(), OutOfMemory>
        requires { IsClosed (total self.old) (group_form group) }
        ensures ok { OnOk result (self.new ≡ self.old ++ group_form group ∷ []) }
        ensures err { OnErr result (self.new ≡ self.old) }
    {
        let number = self.groups.len();
        let first = self.places.len();
        push_types(
            &mut self.places,
            &mut self.depths,
            number,
            group.types.as_slice(),
        )?;
        match self.groups.push(group) {
            Ok(()) => Ok(()),
            Err(refused) => {
                drop(refused);
                self.places.truncate(first);
                self.depths.truncate(first);
                Err(OutOfMemory)
            }
        }
    }

    /// Takes the last group away.
    pub fn pop(&mut self)
        requires { 0 < length self.old }
        ensures { (gs : List Group) (g : Group) → self.old ≡ gs ++ g ∷ [] → self.new ≡ gs }
    {
        if let Some(group) = self.groups.pop() {
            let keep = self.places.len() - group.types.len();
            self.places.truncate(keep);
            self.depths.truncate(keep);
        }
    }

    /// How many types there are.
    pub fn len(&self) -> usize
        ensures value { result ≡ total self.now }
        ensures closed { AreClosed 0 self.now }
    {
        self.places.len()
    }

    /// The type with this id, in closed form.
    pub fn get(&self, id: CoreTypeId) -> &SubType
        requires { id.index < total self.now }
        ensures { (d : SubForm) → sub_form result.now ≡ get_or (types_of self.now) id.index d }
    {
        let place = self.places[id.index as usize];
        let group = &self.groups[place.group];
        &group.types[(id.index - place.first) as usize]
    }

    /// The id of the first type of the group that a type stands in, and the length of the group.
    pub fn group_of(&self, id: CoreTypeId) -> (CoreTypeId, u64)
        requires { id.index < total self.now }
        ensures place { (result.0.index, result.1) ≡ place_from 0 self.now id.index }
        ensures closed { AreClosed 0 self.now }
    {
        let place = self.places[id.index as usize];
        let group = &self.groups[place.group];
        (CoreTypeId { index: place.first }, group.types.len() as u64)
    }

    /// The id of the first type of the group that a type stands in.
    pub fn first_of(&self, id: CoreTypeId) -> u64
        requires { id.index < total self.now }
        ensures first { result ≡ (place_from 0 self.now id.index).0 }
        ensures closed { AreClosed 0 self.now }
    {
        self.group_of(id).0.index
    }

    /// The id of a type by its position in the group whose first id is `first`.
    pub fn id_at(&self, first: u64, position: u64) -> CoreTypeId
        requires { first + position < total self.now }
        ensures { result.index ≡ first + position }
    {
        // ids are positions in a list, so their sums stay small
        let _count = self.len();
        CoreTypeId {
            index: first + position,
        }
    }

    /// The declared supertype of a type.
    pub fn parent(&self, id: CoreTypeId) -> Option<u64>
        requires { id.index < total self.now }
        ensures value { result ≡ get_or (parents_from 0 self.now) id.index None }
        ensures closed { AreClosed 0 self.now }
    {
        self.places[id.index as usize].parent
    }

    /// How many declared supertypes stand above a type.
    pub fn depth(&self, id: CoreTypeId) -> u64
        requires { id.index < total self.now }
        ensures value { result ≡ get_or (depths_of self.now) id.index 0 }
        ensures closed { AreClosed 0 self.now }
    {
        self.depths[id.index as usize]
    }
}
