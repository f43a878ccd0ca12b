// Exports as they are written.
ghost use Rattle.std.specs.Prelude.{◌≡◌, Some, All, OnOk, OnErr, IfErr};
ghost use Rattle.std.specs.Option.{option_map};
ghost use Rattle.wcv_core.specs.Checks.{IsFree, MemoryOrCausedBy};
ghost use Rattle.wcv_core.specs.CoreGroups.{total};
ghost use Rattle.wcv_core.specs.CoreWritten.{IsKnown};
ghost use Rattle.wcv_syntax.specs.CoreItems.{entity_of};
ghost use Rattle.wcv_syntax.specs.ModuleTypes.{module_entries, with_export, export_joins};

use crate::module::Module;
use wcv_core::{CoreTypes, Refusal};
use wcv_syntax::TypeRef;

impl Module {
    /// Adds an export of a written type.
    pub fn add_written_export<'a>(
        &mut self,
        name: &'a str,
        ty: &TypeRef,
        core: &CoreTypes,
        offset: u64,
    ) -> Result<(), Refusal<'a>>
        requires known { All (IsKnown (total core.now)) (module_entries self.old) }
        ensures ok { OnOk result (option_map (with_export core.now self.old name.now) (entity_of self.old.types ty.now) ≡ Some self.new) }
        ensures free { OnOk result (IsFree (export_joins core.now self.old name.now ty.now)) }
        ensures cause { IfErr result (MemoryOrCausedBy (export_joins core.now self.old name.now ty.now) offset) }
        ensures err { OnErr result (self.new ≡ self.old) }
    {
        let entity = self.check_type_ref(ty, core, offset)?;
        match self.add_export(name, entity, offset, core) {
            Ok(()) => Ok(()),
            Err(err) => Err(err),
        }
    }
}
