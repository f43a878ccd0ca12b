// The shape of a node with other parts.
ghost use Rattle.std.specs.Prelude.{◌≡◌, ◌<◌, ◌∷◌, length};
ghost use Rattle.wcv_types.specs.Rebuild.{FillsSlot, refill_slot, after_slot};
ghost use Rattle.wcv_types.specs.Unfold.{any_part, at, entity_slot, value_slot, option_slot};
ghost use Rattle.wcv_types.specs.declared.ids.Part.TheVariants as p;

use crate::ids::{
    AliasableResourceId, ComponentAnyTypeId, ComponentCoreModuleTypeId, ComponentFuncTypeId,
    ComponentInstanceTypeId, ComponentTypeId, Part,
};
use crate::parts::Parts;
use crate::shapes::{ComponentEntityType, ComponentValType};
use std::marker::Model;

/// The parts that are still to be put into a shape. Contracts see it as the list of them.
#[derive(Drop)]
pub struct Refill<'a> {
    parts: &'a [Part],
    next: usize,
}

impl<'a> Model for Refill<'a> {
    ghost use Rattle.std.specs.Prelude.{List, drop};
    ghost use Rattle.wcv_types.specs.declared.ids.Part.{Part};

    ghost Value = { List Part };

    ghost view = { λ r. drop r.next r.parts.now };
}

impl<'a> Refill<'a> {
    /// All of these parts.
    pub fn new(parts: &'a Parts) -> Refill<'a>
        ensures { result ≡ parts.now }
    {
        Refill {
            parts: parts.as_slice(),
            next: 0,
        }
    }

    /// The first of them.
    #[tactic(auto, using(crate::proofs::Refilling::next_within, crate::proofs::Refilling::next_first))]
    fn next(&mut self) -> Part
        requires { 0 < length self.old }
        ensures { self.old ≡ result ∷ self.new }
    {
        let part = self.parts[self.next];
        self.next += 1;
        part
    }

    /// The reference that comes in the place of a reference to a resource.
    pub fn reference(&mut self, id: AliasableResourceId) -> AliasableResourceId
        requires { FillsSlot (at (p.Resource id)) self.old }
        ensures slot { at (p.Resource result) ≡ refill_slot (at (p.Resource id)) self.old }
        ensures left { self.new ≡ after_slot (at (p.Resource id)) self.old }
    {
        match self.next() {
            Part::Resource(id) => id,
            _ => unreachable!(),
        }
    }

    /// The value type that comes in the place of a value type.
    pub fn value(&mut self, ty: ComponentValType) -> ComponentValType
        requires { FillsSlot (value_slot ty) self.old }
        ensures slot { value_slot result ≡ refill_slot (value_slot ty) self.old }
        ensures left { self.new ≡ after_slot (value_slot ty) self.old }
    {
        match ty {
            ComponentValType::Primitive(primitive) => ComponentValType::Primitive(primitive),
            ComponentValType::Ty(_) => match self.next() {
                Part::Defined(id) => ComponentValType::Ty(id),
                _ => unreachable!(),
            },
        }
    }

    /// So of one that may be left out.
    pub fn option(&mut self, ty: Option<ComponentValType>) -> Option<ComponentValType>
        requires { FillsSlot (option_slot ty) self.old }
        ensures slot { option_slot result ≡ refill_slot (option_slot ty) self.old }
        ensures left { self.new ≡ after_slot (option_slot ty) self.old }
    {
        match ty {
            None => None,
            Some(ty) => Some(self.value(ty)),
        }
    }

    /// The type of a core module that comes in the place of one.
    pub fn module(&mut self, id: ComponentCoreModuleTypeId) -> ComponentCoreModuleTypeId
        requires { FillsSlot (at (p.Module id)) self.old }
        ensures slot { at (p.Module result) ≡ refill_slot (at (p.Module id)) self.old }
        ensures left { self.new ≡ after_slot (at (p.Module id)) self.old }
    {
        match self.next() {
            Part::Module(id) => id,
            _ => unreachable!(),
        }
    }

    /// The function type that comes in the place of one.
    pub fn func(&mut self, id: ComponentFuncTypeId) -> ComponentFuncTypeId
        requires { FillsSlot (at (p.Func id)) self.old }
        ensures slot { at (p.Func result) ≡ refill_slot (at (p.Func id)) self.old }
        ensures left { self.new ≡ after_slot (at (p.Func id)) self.old }
    {
        match self.next() {
            Part::Func(id) => id,
            _ => unreachable!(),
        }
    }

    /// The instance type that comes in the place of one.
    pub fn instance(&mut self, id: ComponentInstanceTypeId) -> ComponentInstanceTypeId
        requires { FillsSlot (at (p.Instance id)) self.old }
        ensures slot { at (p.Instance result) ≡ refill_slot (at (p.Instance id)) self.old }
        ensures left { self.new ≡ after_slot (at (p.Instance id)) self.old }
    {
        match self.next() {
            Part::Instance(id) => id,
            _ => unreachable!(),
        }
    }

    /// The component type that comes in the place of one.
    pub fn component(&mut self, id: ComponentTypeId) -> ComponentTypeId
        requires { FillsSlot (at (p.Component id)) self.old }
        ensures slot { at (p.Component result) ≡ refill_slot (at (p.Component id)) self.old }
        ensures left { self.new ≡ after_slot (at (p.Component id)) self.old }
    {
        match self.next() {
            Part::Component(id) => id,
            _ => unreachable!(),
        }
    }

    /// The type that comes in the place of a type of the same sort.
    fn any(&mut self, id: ComponentAnyTypeId) -> ComponentAnyTypeId
        requires { FillsSlot (at (any_part id)) self.old }
        ensures slot { at (any_part result) ≡ refill_slot (at (any_part id)) self.old }
        ensures left { self.new ≡ after_slot (at (any_part id)) self.old }
    {
        match self.next() {
            Part::Resource(id) => ComponentAnyTypeId::Resource(id),
            Part::Defined(id) => ComponentAnyTypeId::Defined(id),
            Part::Func(id) => ComponentAnyTypeId::Func(id),
            Part::Instance(id) => ComponentAnyTypeId::Instance(id),
            Part::Component(id) => ComponentAnyTypeId::Component(id),
            _ => unreachable!(),
        }
    }

    /// What comes in the place of what is imported or exported.
    pub fn entity(&mut self, ty: ComponentEntityType) -> ComponentEntityType
        requires { FillsSlot (entity_slot ty) self.old }
        ensures slot { entity_slot result ≡ refill_slot (entity_slot ty) self.old }
        ensures left { self.new ≡ after_slot (entity_slot ty) self.old }
    {
        match ty {
            ComponentEntityType::Module(id) => ComponentEntityType::Module(self.module(id)),
            ComponentEntityType::Func(id) => ComponentEntityType::Func(self.func(id)),
            ComponentEntityType::Value(ty) => ComponentEntityType::Value(self.value(ty)),
            ComponentEntityType::Ty {
                created,
                referenced,
            } => {
                let created = self.any(created);
                let referenced = self.any(referenced);
                ComponentEntityType::Ty {
                    created,
                    referenced,
                }
            }
            ComponentEntityType::Instance(id) => ComponentEntityType::Instance(self.instance(id)),
            ComponentEntityType::Component(id) => {
                ComponentEntityType::Component(self.component(id))
            }
        }
    }
}
