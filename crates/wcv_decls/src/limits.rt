// Limits that the adding of a type leaves to its caller.
ghost use Rattle.std.specs.Prelude.{◌≡◌, true, length, ◌++◌, OnOk, IfErr};
ghost use Rattle.wcv_syntax.specs.View.{defined_view, func_view, type_view};
ghost use Rattle.wcv_lower.specs.Checks.{IsFree, too_long, too_many, each_too_long};
ghost use Rattle.wcv_lower.specs.Defined.{defined_left};
ghost use Rattle.wcv_lower.specs.Types.{func_left, type_left};
ghost use Rattle.wcv_spaces.specs.NameLists.{list_names};
ghost use Rattle.wcv_spaces.specs.Promises.{MemoryOrCausedBy};

use wcv_core::limits::{MAX_LIST, MAX_PARAMS, MAX_TEXT};
use wcv_core::{Error, ErrorKind, Refusal, Text, Why};
use wcv_state::NameList;
use wcv_syntax::{ComponentDefinedType, ComponentFuncType, ComponentType};

/// Whether a name of a type is not too long. What has the name is for the message.
fn check_text<'a>(text: &'a Text, word: &'static str, offset: u64) -> Result<(), Refusal<'a>>
    ensures ok { OnOk result (IsFree (too_long text.now)) }
    ensures err { IfErr result (MemoryOrCausedBy (too_long text.now) offset) }
{
    let bytes = text.as_str().len();
    if bytes > MAX_TEXT {
        let why = Why::new("%w name `%n` has %1 bytes, at most %2 are allowed");
        let why = why.word(word).name(text.as_str());
        let why = why.numbers([bytes as u64, MAX_TEXT as u64, 0]);
        return Err(Error::new(ErrorKind::Limit, offset, why));
    }
    Ok(())
}

/// Whether a name is not too long.
fn is_short(text: &Text) -> bool
    ensures { result ≡ true → IsFree (too_long text.now) }
{
    text.as_str().len() <= MAX_TEXT
}

/// Whether no name of a list is.
#[tactic(auto, using(crate::proofs::Texts::texts_push))]
fn are_short(list: NameList<'_>) -> bool
    ensures { result ≡ true → IsFree (each_too_long (list_names list.entry)) }
{
    for k in 0..list.len() {
        if !is_short(list.text_at(k)) {
            return false;
        }
    }
    true
}

/// So of each name of a list.
fn check_texts<'a>(list: NameList<'a>, offset: u64) -> Result<(), Refusal<'a>>
    ensures ok { OnOk result (IsFree (each_too_long (list_names list.entry))) }
    ensures err { IfErr result (MemoryOrCausedBy (each_too_long (list_names list.entry)) offset) }
{
    if are_short(list) {
        return Ok(());
    }
    for k in 0..list.len() {
        check_text(list.text_at(k), list.word(), offset)?;
    }
    Ok(())
}

/// Whether a type has no more entries than a limit. What it is, and what an entry of it is, are for the message.
pub fn check_count(
    count: usize,
    limit: usize,
    ty: &'static str,
    word: &'static str,
    offset: u64,
) -> Result<(), Refusal<'static>>
    ensures ok { OnOk result (IsFree (too_many limit count)) }
    ensures err { IfErr result (MemoryOrCausedBy (too_many limit count) offset) }
{
    if count > limit {
        let why = Why::new("%n has %1 %ws, at most %2 are allowed");
        let why = why.name(ty).word(word);
        let why = why.numbers([count as u64, limit as u64, 0]);
        return Err(Error::new(ErrorKind::Limit, offset, why));
    }
    Ok(())
}

/// Both limits of a list of names.
fn check_list<'a>(
    list: NameList<'a>,
    limit: usize,
    ty: &'static str,
    offset: u64,
) -> Result<(), Refusal<'a>>
    ensures ok { OnOk result (IsFree (too_many limit (length (list_names list.entry)) ++ each_too_long (list_names list.entry))) }
    ensures err { IfErr result (MemoryOrCausedBy (too_many limit (length (list_names list.entry)) ++ each_too_long (list_names list.entry)) offset) }
{
    check_count(list.len(), limit, ty, list.word(), offset)?;
    check_texts(list, offset)
}

/// The limits of a defined type.
fn check_defined(ty: &ComponentDefinedType, offset: u64) -> Result<(), Refusal<'_>>
    ensures ok { OnOk result (IsFree (defined_left (defined_view ty.now))) }
    ensures err { IfErr result (MemoryOrCausedBy (defined_left (defined_view ty.now)) offset) }
{
    match ty {
        ComponentDefinedType::Record(fields) => {
            check_list(NameList::Fields(fields), MAX_LIST, "record", offset)
        }
        ComponentDefinedType::Variant(cases) => {
            check_list(NameList::Cases(cases), MAX_LIST, "variant", offset)
        }
        ComponentDefinedType::Tuple(types) => {
            check_count(types.len(), MAX_LIST, "tuple", "type", offset)
        }
        ComponentDefinedType::Flags(names) => {
            check_list(NameList::Flags(names), MAX_LIST, "type", offset)
        }
        ComponentDefinedType::Enum(names) => {
            check_list(NameList::EnumCases(names), MAX_LIST, "type", offset)
        }
        _ => Ok(()),
    }
}

/// The limits of a function type.
fn check_func(func: &ComponentFuncType, offset: u64) -> Result<(), Refusal<'_>>
    ensures ok { OnOk result (IsFree (func_left (func_view func.now))) }
    ensures err { IfErr result (MemoryOrCausedBy (func_left (func_view func.now)) offset) }
{
    check_list(
        NameList::Params(&func.params),
        MAX_PARAMS,
        "function",
        offset,
    )
}

/// Whether a type item keeps the limits of its lists and of its texts.
pub fn check_limits(ty: &ComponentType, offset: u64) -> Result<(), Refusal<'_>>
    ensures ok { OnOk result (IsFree (type_left (type_view ty.now))) }
    ensures err { IfErr result (MemoryOrCausedBy (type_left (type_view ty.now)) offset) }
{
    match ty {
        ComponentType::Defined(defined) => check_defined(defined, offset),
        ComponentType::Func(func) => check_func(func, offset),
        _ => Ok(()),
    }
}
