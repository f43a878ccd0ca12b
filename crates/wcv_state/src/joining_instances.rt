// Instances that join a state.
ghost use Rattle.std.specs.Prelude.{◌≡◌, ◌<◌, false, true, All, OnErr, OnOk};
ghost use Rattle.wcv_types.specs.Standing.{Stands};
ghost use Rattle.wcv_types.specs.declared.ids.Part.TheVariants as part;
ghost use Rattle.wcv_spaces.specs.Bringing.{AreNewIn};
ghost use Rattle.wcv_spaces.specs.Contents.{StateStands};
ghost use Rattle.wcv_state.specs.Joining.{InstanceJoined};
ghost use Rattle.wcv_spaces.specs.Promises.{Keeps};

use crate::state::ComponentState;
use wcv_core::OutOfMemory;
use wcv_instantiate::instances::NewInstance;
use wcv_resources::resources::export_resources;
use wcv_spaces::spaces::append;
use wcv_types::TypeAlloc;

impl ComponentState {
    /// An instance joins the instances, whatever their number, and the resources that are new in it are defined, without
    /// representations. After an error the state is spent.
    pub fn join_instance(&mut self, new: &NewInstance, types: &TypeAlloc) -> Result<(), OutOfMemory>
        requires live { self.old.spent ≡ false }
        requires stands { StateStands types.now self.old }
        requires instance { Stands types.now (part.Instance new.now.ty) }
        requires resources { All (λ r. r.0.index < types.now.resources) new.now.resources }
        requires fresh { AreNewIn self.old.defined_resources new.now.resources }
        ensures ok { OnOk result (InstanceJoined types.now self.old self.new new.now) }
        ensures spent { OnErr result (self.new.spent ≡ true) }
        ensures keeps { Keeps types.now types.now self.old self.new }
    {
        let _ = types;
        self.spent = true;
        append(&mut self.spaces.instances, new.ty)?;
        export_resources(&mut self.defined_resources, &new.resources)?;
        self.spent = false;
        Ok(())
    }
}
