// Limits that the adding of instances leaves to its caller.
ghost use Rattle.std.specs.Prelude.{OnOk, IfErr};
ghost use Rattle.wcv_core.specs.Checks.{all_checks};
ghost use Rattle.wcv_syntax.specs.View.{instance_view};
ghost use Rattle.wcv_lower.specs.Checks.{IsFree, each_too_long, texts_of};
ghost use Rattle.wcv_lower.specs.Entries.{extern_name};
ghost use Rattle.wcv_lower.specs.Instances.{argument_names, instance_left};
ghost use Rattle.wcv_spaces.specs.Promises.{MemoryOrCausedBy};

use crate::limits::check_count;
use crate::name_texts::{check_name, check_text};
use wcv_core::Refusal;
use wcv_core::limits::MAX_LIST;
use wcv_syntax::{ComponentExport, ComponentInstance, ComponentInstantiationArg};

/// Whether the names of the arguments of an instance are not too long.
fn check_argument_names(args: &[ComponentInstantiationArg], offset: u64) -> Result<(), Refusal<'_>>
    ensures ok { OnOk result (IsFree (each_too_long (argument_names args.now))) }
    ensures err { IfErr result (MemoryOrCausedBy (each_too_long (argument_names args.now)) offset) }
{
    for k in 0..args.len() {
        check_text(&args[k].name, "argument name", offset)?;
    }
    Ok(())
}

/// So of those of the items that it lists.
fn check_item_names(exports: &[ComponentExport], offset: u64) -> Result<(), Refusal<'_>>
    ensures ok { OnOk result (IsFree (all_checks (λ e. each_too_long (texts_of (extern_name e.name))) exports.now)) }
    ensures err { IfErr result (MemoryOrCausedBy (all_checks (λ e. each_too_long (texts_of (extern_name e.name))) exports.now) offset) }
{
    for export in exports {
        check_name(&export.name, "export name", offset)?;
    }
    Ok(())
}

/// Whether the list and the names of an instance keep their limits.
#[tactic(auto, using(wcv_core::proofs::Closing::caused_left, wcv_core::proofs::Closing::caused_right, wcv_core::proofs::Causes::free_both))]
pub fn check_component_instance_limits(
    instance: &ComponentInstance,
    offset: u64,
) -> Result<(), Refusal<'_>>
    ensures ok { OnOk result (IsFree (instance_left (instance_view instance.now))) }
    ensures err { IfErr result (MemoryOrCausedBy (instance_left (instance_view instance.now)) offset) }
{
    match instance {
        ComponentInstance::Instantiate { args, .. } => {
            check_count(args.len(), MAX_LIST, "instance", "argument", offset)?;
            check_argument_names(args.as_slice(), offset)
        }
        ComponentInstance::FromExports(exports) => {
            check_count(exports.len(), MAX_LIST, "instance", "export", offset)?;
            check_item_names(exports.as_slice(), offset)
        }
    }
}
