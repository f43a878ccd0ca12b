// How many entries a defined type has.
ghost use Rattle.wcv_core.specs.Limits.{max_elements};
ghost use Rattle.std.specs.Prelude.{[], ◌∷◌, ◌==◌, OnOk, IfErr};
ghost use Rattle.wcv_syntax.specs.Model.{flags_of};
ghost use Rattle.wcv_syntax.specs.View.{defined_view};
ghost use Rattle.wcv_lower.specs.Checks.{IsFree, too_many};
ghost use Rattle.wcv_lower.specs.Defined.{no_entry, shape_checks};
ghost use Rattle.wcv_spaces.specs.Promises.{MemoryOrCausedBy};

use wcv_core::limits::MAX_ELEMENTS;
use wcv_core::{Error, ErrorKind, Refusal, Text, Why};
use wcv_syntax::ComponentDefinedType;

/// The most flags of a type.
const MAX_FLAGS: usize = 32;

/// Refuses a type that has no entry. What it needs is the message.
fn check_entries<T>(entries: &[T], needs: &'static str, offset: u64) -> Result<(), Refusal<'static>>
    ensures ok { OnOk result (IsFree (no_entry entries.now)) }
    ensures err { IfErr result (MemoryOrCausedBy (no_entry entries.now) offset) }
{
    if entries.is_empty() {
        return Err(Error::new(ErrorKind::Shape, offset, Why::new(needs)));
    }
    Ok(())
}

/// Refuses flags of which there is none, or more than a type may have.
fn check_flags(names: &[Text], offset: u64) -> Result<(), Refusal<'static>>
    ensures ok { OnOk result (IsFree (shape_checks (flags_of names.now))) }
    ensures err { IfErr result (MemoryOrCausedBy (shape_checks (flags_of names.now)) offset) }
{
    let count = names.len();
    if count == 0 {
        let why = Why::new("flags need at least one flag");
        return Err(Error::new(ErrorKind::Shape, offset, why));
    }
    if count > MAX_FLAGS {
        let why = Why::new("%1 flags, at most %2 are allowed");
        let why = why.numbers([count as u64, MAX_FLAGS as u64, 0]);
        return Err(Error::new(ErrorKind::Shape, offset, why));
    }
    Ok(())
}

/// Refuses a list of a fixed length that has no element, or too many.
fn check_length(length: u32, offset: u64) -> Result<(), Refusal<'static>>
    ensures ok { OnOk result (IsFree ((ErrorKind.Shape, length == 0) ∷ too_many max_elements length)) }
    ensures err { IfErr result (MemoryOrCausedBy ((ErrorKind.Shape, length == 0) ∷ too_many max_elements length) offset) }
{
    if length == 0 {
        let why = Why::new("a list of a fixed length needs at least one element");
        return Err(Error::new(ErrorKind::Shape, offset, why));
    }
    if length > MAX_ELEMENTS {
        let why = Why::new("%1 elements, at most %2 are allowed");
        let why = why.numbers([length as u64, MAX_ELEMENTS as u64, 0]);
        return Err(Error::new(ErrorKind::Limit, offset, why));
    }
    Ok(())
}

/// Whether a defined type has entries, and no more of them than its form allows.
pub fn check_shape(ty: &ComponentDefinedType, offset: u64) -> Result<(), Refusal<'static>>
    ensures ok { OnOk result (IsFree (shape_checks (defined_view ty.now))) }
    ensures err { IfErr result (MemoryOrCausedBy (shape_checks (defined_view ty.now)) offset) }
{
    match ty {
        ComponentDefinedType::Record(fields) => {
            check_entries(fields, "a record needs at least one field", offset)
        }
        ComponentDefinedType::Variant(cases) => {
            check_entries(cases, "a variant needs at least one case", offset)
        }
        ComponentDefinedType::Tuple(types) => {
            check_entries(types, "a tuple needs at least one type", offset)
        }
        ComponentDefinedType::Flags(names) => check_flags(names, offset),
        ComponentDefinedType::Enum(names) => {
            check_entries(names, "an enum needs at least one case", offset)
        }
        ComponentDefinedType::FixedLengthList(_, length) => check_length(*length, offset),
        _ => Ok(()),
    }
}
