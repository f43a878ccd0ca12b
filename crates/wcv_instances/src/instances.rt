// The calls that add instances to a state.
ghost use Rattle.std.specs.Prelude.{List, OnOk, IfErr};
ghost use Rattle.wcv_core.specs.Names.{Place};
ghost use Rattle.wcv_syntax.specs.Model.{core_instance_item, instance_item};
ghost use Rattle.wcv_syntax.specs.View.{core_instance_view, instance_view};
ghost use Rattle.wcv_lower.specs.Trees.{Tree_context};
ghost use Rattle.wcv_spaces.specs.Promises.{Keeps, Grew, Refuses};
ghost use Rattle.wcv_state.specs.Stack.{IsOpen};
ghost use Rattle.wcv_instances.specs.ComponentInstances.{ItemMayInstantiate};

use crate::component_instances::add_instance;
use crate::core_instances::add_core_instance;
use wcv_core::Error;
use wcv_state::ComponentState;
use wcv_syntax::{ComponentInstance, Instance};
use wcv_types::TypeAlloc;

/// A state to which instances are added.
pub trait Instances: Sized {
    ghost use Rattle.wcv_spaces.specs.Contents.{Contents};

    /// What the state holds.
    ghost contents: { Self → Contents };

    /// One more core instance: of a core module, whose imports the arguments serve by their names, or one that lists
    /// core items. Refuses an index that is not below the length of its space as `OutOfBounds`, an import that no
    /// argument serves as `Mismatch`, a name that stands twice as `Conflict`, a tag without its feature as `Feature`,
    /// and more instances, or a larger list, than there may be as `Limit`. Arguments that the module does not ask for are
    /// looked up, and passed over. The lengths of lists and of texts are left to the caller. After an error the state is
    /// spent.
    fn add_core_instance(
        &mut self,
        instance: Instance,
        types: &mut TypeAlloc,
        offset: u64,
    ) -> Result<(), Error>
        requires open { IsOpen types.old (contents self.old) }
        ensures ok { OnOk result ((outer : List Tree_context) (p : Place) → Grew types.old types.new outer p (contents self.old) (contents self.new) (core_instance_item (core_instance_view instance))) }
        ensures err { IfErr result (λ e. (outer : List Tree_context) (p : Place) → Refuses types.old types.new outer p (contents self.old) (contents self.new) (core_instance_item (core_instance_view instance)) offset e) }
        ensures keeps { Keeps types.old types.new (contents self.old) (contents self.new) };

    /// One more instance: of a component, whose imports the arguments open, or one that lists items. The values among
    /// the arguments, or among the listed items, are used from here on. Refuses an index that is not below the length of its
    /// space as `OutOfBounds`, a value without its feature as `Feature`, one that is used already or named twice as `Value`,
    /// one with a borrowed handle that is listed as `Borrow`, arguments that do not open the imports as `Mismatch`, a name
    /// of arguments that stands twice as `Conflict`, a type that is written beside a listed item as `Shape`, the names of
    /// listed items as `add_export` does where no resource has a name, and more instances, or a larger or deeper one, than
    /// there may be as `Limit`. Arguments that the component does not ask for are looked up, and passed over; values among
    /// them count as used. What the component defines is new in the instance, and is defined here, without a
    /// representation. The lengths of lists and of texts are left to the caller. After an error the state is spent.
    fn add_instance(
        &mut self,
        instance: ComponentInstance,
        types: &mut TypeAlloc,
        offset: u64,
    ) -> Result<(), Error>
        requires open { IsOpen types.old (contents self.old) }
        requires opens { ItemMayInstantiate types.old (contents self.old) (instance_view instance) }
        ensures ok { OnOk result ((outer : List Tree_context) (p : Place) → Grew types.old types.new outer p (contents self.old) (contents self.new) (instance_item (instance_view instance))) }
        ensures err { IfErr result (λ e. (outer : List Tree_context) (p : Place) → Refuses types.old types.new outer p (contents self.old) (contents self.new) (instance_item (instance_view instance)) offset e) }
        ensures keeps { Keeps types.old types.new (contents self.old) (contents self.new) };
}

impl Instances for ComponentState {
    ghost use Rattle.wcv_spaces.specs.Contents.{Contents};

    ghost contents = { λ s. s };

    fn add_core_instance(
        &mut self,
        instance: Instance,
        types: &mut TypeAlloc,
        offset: u64,
    ) -> Result<(), Error> {
        add_core_instance(instance, self, types, offset)
    }

    fn add_instance(
        &mut self,
        instance: ComponentInstance,
        types: &mut TypeAlloc,
        offset: u64,
    ) -> Result<(), Error> {
        add_instance(instance, self, types, offset)
    }
}
