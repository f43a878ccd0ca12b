// Limits on the lists of a group, which its interning leaves to the caller.
ghost use Rattle.std.specs.Prelude.{length, map, OnOk, IfErr};
ghost use Rattle.wcv_core.specs.Checks.{IsFree, CausedBy, all_checks, too_many};
ghost use Rattle.wcv_core.specs.CoreFeatures.{form_left, sub_left, group_left};
ghost use Rattle.wcv_core.specs.CoreForm.{composite_form, sub_form, group_form};

use crate::core_types::{CompositeInnerType, RecGroup, SubType};
use crate::error::{Error, ErrorKind, Refusal, Why};
use crate::limits::{MAX_LIST, MAX_PARAMS};

/// Whether a list is not longer than a limit. What has it, and what its entries are, are for the message.
fn check_count(
    count: usize,
    limit: usize,
    ty: &'static str,
    word: &'static str,
    offset: u64,
) -> Result<(), Refusal<'static>>
    ensures ok { OnOk result (IsFree (too_many limit count)) }
    ensures err { IfErr result (CausedBy (too_many limit count) offset) }
{
    if count > limit {
        return Err(Error::new(
            ErrorKind::Limit,
            offset,
            Why::new("%n has %1 %w, at most %2 are allowed")
                .name(ty)
                .word(word)
                .numbers([count as u64, limit as u64, 0]),
        ));
    }
    Ok(())
}

#[tactic(auto, using(crate::proofs::Closing::caused_left, crate::proofs::Closing::caused_right, crate::proofs::Causes::free_both))]
fn check_lists(form: &CompositeInnerType, offset: u64) -> Result<(), Refusal<'static>>
    ensures ok { OnOk result (IsFree (form_left (composite_form form.now))) }
    ensures err { IfErr result (CausedBy (form_left (composite_form form.now)) offset) }
{
    match form {
        CompositeInnerType::Func(func) => {
            let ty = "a core function";
            check_count(func.params.len(), MAX_PARAMS, ty, "parameters", offset)?;
            check_count(func.results.len(), MAX_PARAMS, ty, "results", offset)
        }
        CompositeInnerType::Struct(ty) => {
            check_count(ty.fields.len(), MAX_LIST, "a struct", "fields", offset)
        }
        CompositeInnerType::Array(_) => Ok(()),
    }
}

#[tactic(auto, using(crate::proofs::Closing::free_mapped))]
fn check_subs(types: &[SubType], offset: u64) -> Result<(), Refusal<'static>>
    ensures ok { OnOk result (IsFree (all_checks sub_left (map sub_form types.now))) }
    ensures err { IfErr result (CausedBy (all_checks sub_left (map sub_form types.now)) offset) }
{
    for ty in types {
        check_lists(&ty.inner, offset)?;
    }
    Ok(())
}

/// Whether the lists of a group keep their limits.
#[tactic(auto, using(crate::proofs::Closing::caused_left, crate::proofs::Closing::caused_right, crate::proofs::Causes::free_both))]
pub fn check_group_limits(group: &RecGroup, offset: u64) -> Result<(), Refusal<'static>>
    ensures ok { OnOk result (IsFree (group_left (group_form group.now))) }
    ensures err { IfErr result (CausedBy (group_left (group_form group.now)) offset) }
{
    check_count(group.types.len(), MAX_LIST, "a group", "types", offset)?;
    check_subs(group.types.as_slice(), offset)
}
