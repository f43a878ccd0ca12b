// Limits on lists and texts, which the calls of a module leave to their caller.
ghost use Rattle.wcv_core.specs.Limits.{max_list, max_text};
ghost use Rattle.std.specs.Prelude.{length, map, ◌++◌, OnOk, IfErr};
ghost use Rattle.wcv_core.specs.Checks.{IsFree, CausedBy, all_checks, too_many};
ghost use Rattle.wcv_core.specs.CoreFeatures.{group_left};
ghost use Rattle.wcv_core.specs.CoreForm.{group_form};
ghost use Rattle.wcv_syntax.specs.ModuleTypes.{decl_left, module_left};

use crate::declarations::ModuleDeclaration;
use wcv_core::limits::{MAX_LIST, MAX_TEXT};
use wcv_core::{Error, ErrorKind, RecGroup, Refusal, Text, Why, check_group_limits};
use wcv_syntax::Import;

/// Whether a name keeps its limit. What it is the name of is for the message.
pub fn check_name(name: &Text, of: &'static str, offset: u64) -> Result<(), Refusal<'static>>
    ensures ok { OnOk result (IsFree (too_many max_text (length name.now))) }
    ensures err { IfErr result (CausedBy (too_many max_text (length name.now)) offset) }
{
    let len = name.as_str().len();
    if len > MAX_TEXT {
        let why = Why::new("the name of %w has %1 bytes, at most %2 are allowed");
        let why = why.word(of).numbers([len as u64, MAX_TEXT as u64, 0]);
        return Err(Error::new(ErrorKind::Limit, offset, why));
    }
    Ok(())
}

/// Whether the names of an import keep their limits.
#[tactic(auto, using(wcv_core::proofs::Closing::caused_left, wcv_core::proofs::Closing::caused_right, wcv_core::proofs::Causes::free_both))]
pub fn check_import_names(import: &Import, offset: u64) -> Result<(), Refusal<'static>>
    ensures ok { OnOk result (IsFree (too_many max_text (length import.now.module) ++ too_many max_text (length import.now.name))) }
    ensures err { IfErr result (CausedBy (too_many max_text (length import.now.module) ++ too_many max_text (length import.now.name)) offset) }
{
    check_name(&import.module, "a module", offset)?;
    check_name(&import.name, "an import", offset)
}

/// Whether the lists of a written group keep their limits.
pub fn check_group(group: &RecGroup, offset: u64) -> Result<(), Refusal<'static>>
    ensures ok { OnOk result (IsFree (group_left (group_form group.now))) }
    ensures err { IfErr result (CausedBy (group_left (group_form group.now)) offset) }
{
    check_group_limits(group, offset)
}

fn check_count(count: usize, offset: u64) -> Result<(), Refusal<'static>>
    ensures ok { OnOk result (IsFree (too_many max_list count)) }
    ensures err { IfErr result (CausedBy (too_many max_list count) offset) }
{
    if count > MAX_LIST {
        let why = Why::new("a module has %1 declarations, at most %2 are allowed");
        let why = why.numbers([count as u64, MAX_LIST as u64, 0]);
        return Err(Error::new(ErrorKind::Limit, offset, why));
    }
    Ok(())
}

#[tactic(auto, using(wcv_core::proofs::Closing::free_mapped))]
fn check_each<D: ModuleDeclaration>(decls: &[D], offset: u64) -> Result<(), Refusal<'static>>
    ensures ok { OnOk result (IsFree (all_checks decl_left (map D.form decls.now))) }
    ensures err { IfErr result (CausedBy (all_checks decl_left (map D.form decls.now)) offset) }
{
    for decl in decls {
        decl.check_limits(offset)?;
    }
    Ok(())
}

/// Whether the declarations of a module, their names and the lists of their groups keep their limits.
#[tactic(auto, using(wcv_core::proofs::Closing::caused_left, wcv_core::proofs::Closing::caused_right, wcv_core::proofs::Causes::free_both))]
pub fn check_module_limits<D: ModuleDeclaration>(
    decls: &[D],
    offset: u64,
) -> Result<(), Refusal<'static>>
    ensures ok { OnOk result (IsFree (module_left (map D.form decls.now))) }
    ensures err { IfErr result (CausedBy (module_left (map D.form decls.now)) offset) }
{
    check_count(decls.len(), offset)?;
    check_each(decls, offset)
}
