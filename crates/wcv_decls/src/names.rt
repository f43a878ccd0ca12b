// Labels of a type.
ghost use Rattle.std.specs.Prelude.{OnOk, IfErr};
ghost use Rattle.wcv_syntax.specs.View.{defined_view};
ghost use Rattle.wcv_lower.specs.Checks.{IsFree, label_checks};
ghost use Rattle.wcv_lower.specs.Defined.{names_in};
ghost use Rattle.wcv_spaces.specs.NameLists.{list_names};
ghost use Rattle.wcv_spaces.specs.Promises.{MemoryOrCausedBy};

use crate::alike::are_seen_to_differ;
use std::alloc::Global;
use wcv_core::{Error, LabelSet};
use wcv_state::{NameList, insert_label};
use wcv_syntax::ComponentDefinedType;

/// Whether each name of the list is a label, and no two of them differ at most in case.
pub fn check_labels(alloc: Global, list: NameList<'_>, offset: u64) -> Result<(), Error>
    ensures ok { OnOk result (IsFree (label_checks (list_names list.entry))) }
    ensures err { IfErr result (MemoryOrCausedBy (label_checks (list_names list.entry)) offset) }
{
    if are_seen_to_differ(alloc, list)? {
        return Ok(());
    }
    let mut keys = LabelSet::new(alloc);
    for k in 0..list.len() {
        insert_label(&mut keys, list.text_at(k), list, offset)?;
    }
    Ok(())
}

/// So of the names of a defined type.
pub fn check_names(alloc: Global, ty: &ComponentDefinedType, offset: u64) -> Result<(), Error>
    ensures ok { OnOk result (IsFree (label_checks (names_in (defined_view ty.now)))) }
    ensures err { IfErr result (MemoryOrCausedBy (label_checks (names_in (defined_view ty.now))) offset) }
{
    match ty {
        ComponentDefinedType::Record(fields) => {
            check_labels(alloc, NameList::Fields(fields), offset)
        }
        ComponentDefinedType::Variant(cases) => {
            check_labels(alloc, NameList::Cases(cases), offset)
        }
        ComponentDefinedType::Flags(names) => check_labels(alloc, NameList::Flags(names), offset),
        ComponentDefinedType::Enum(names) => {
            check_labels(alloc, NameList::EnumCases(names), offset)
        }
        _ => Ok(()),
    }
}
