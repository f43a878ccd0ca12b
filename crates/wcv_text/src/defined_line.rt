// The line of a defined type.
ghost use Rattle.std.specs.Prelude.{◌≡◌, ◌++◌, [], codes, string_bytes, OnOk};
ghost use Rattle.std.specs.Fmt.{decimal};
ghost use Rattle.wcv_types.specs.Text.{all_quoted, listed};
ghost use Rattle.wcv_text.specs.DefinedLine.{fields_said, payload_said, case_said, cases_said, types_said, one_said, two_said, defined_said};
ghost use Rattle.wcv_text.specs.Mentions.{value_text};
ghost use Rattle.wcv_text.specs.Numbers.{Appends};

use crate::func_line::push_param;
use crate::mentions::{push_mention, push_option, push_value, separator_at};
use crate::numbers::Numbers;
use crate::quoting::push_quoted;
use std::alloc::AllocError;
use std::fmt::Write;
use wcv_core::Text;
use wcv_types::{ComponentDefinedType, ComponentValType, Part};

/// Appends fields with commas between them.
fn push_fields(
    text: &mut String,
    numbers: &Numbers,
    fields: &[(Text, ComponentValType)],
) -> Result<(), AllocError>
    ensures { OnOk result (Appends numbers.now (string_bytes text.old) (string_bytes text.new) (λ w. fields_said w [] fields.now)) }
{
    for (index, field) in fields.iter().enumerate() {
        let before = separator_at(", ", index);
        push_param(text, numbers, before, field.0.as_str(), field.1)?;
    }
    Ok(())
}

/// Appends a record.
fn push_record(
    text: &mut String,
    numbers: &Numbers,
    fields: &[(Text, ComponentValType)],
) -> Result<(), AllocError>
    ensures { OnOk result (Appends numbers.now (string_bytes text.old) (string_bytes text.new) (λ w. codes "record {" ++ fields_said w [] fields.now ++ codes "}")) }
{
    text.push_str("record {")?;
    push_fields(text, numbers, fields)?;
    text.push_str("}")
}

/// Appends the type of a case, where it has one.
fn push_payload(
    text: &mut String,
    numbers: &Numbers,
    payload: Option<ComponentValType>,
) -> Result<(), AllocError>
    ensures { OnOk result (Appends numbers.now (string_bytes text.old) (string_bytes text.new) (λ w. payload_said w payload)) }
{
    match payload {
        None => Ok(()),
        Some(value) => {
            text.push_str(" ")?;
            push_value(text, numbers, value)
        }
    }
}

/// Appends a case behind what separates it.
fn push_case(
    text: &mut String,
    numbers: &Numbers,
    before: &str,
    case: &(Text, Option<ComponentValType>),
) -> Result<(), AllocError>
    ensures { OnOk result (Appends numbers.now (string_bytes text.old) (string_bytes text.new) (λ w. before.now ++ case_said w case.now)) }
{
    text.push_str(before)?;
    push_quoted(text, case.0.as_str())?;
    push_payload(text, numbers, case.1)
}

/// Appends cases with commas between them.
fn push_cases(
    text: &mut String,
    numbers: &Numbers,
    cases: &[(Text, Option<ComponentValType>)],
) -> Result<(), AllocError>
    ensures { OnOk result (Appends numbers.now (string_bytes text.old) (string_bytes text.new) (λ w. listed [] (cases_said w cases.now))) }
{
    for (index, case) in cases.iter().enumerate() {
        push_case(text, numbers, separator_at(", ", index), case)?;
    }
    Ok(())
}

/// Appends a variant.
fn push_variant(
    text: &mut String,
    numbers: &Numbers,
    cases: &[(Text, Option<ComponentValType>)],
) -> Result<(), AllocError>
    ensures { OnOk result (Appends numbers.now (string_bytes text.old) (string_bytes text.new) (λ w. codes "variant {" ++ listed [] (cases_said w cases.now) ++ codes "}")) }
{
    text.push_str("variant {")?;
    push_cases(text, numbers, cases)?;
    text.push_str("}")
}

/// Appends value types with commas between them.
fn push_types(
    text: &mut String,
    numbers: &Numbers,
    types: &[ComponentValType],
) -> Result<(), AllocError>
    ensures { OnOk result (Appends numbers.now (string_bytes text.old) (string_bytes text.new) (λ w. listed [] (types_said w types.now))) }
{
    for (index, ty) in types.iter().enumerate() {
        text.push_str(separator_at(", ", index))?;
        push_value(text, numbers, *ty)?;
    }
    Ok(())
}

/// Appends a tuple.
fn push_tuple(
    text: &mut String,
    numbers: &Numbers,
    types: &[ComponentValType],
) -> Result<(), AllocError>
    ensures { OnOk result (Appends numbers.now (string_bytes text.old) (string_bytes text.new) (λ w. codes "tuple {" ++ listed [] (types_said w types.now) ++ codes "}")) }
{
    text.push_str("tuple {")?;
    push_types(text, numbers, types)?;
    text.push_str("}")
}

/// Appends names between quotes, with commas between them.
fn push_names(text: &mut String, names: &[Text]) -> Result<(), AllocError>
    ensures { OnOk result (string_bytes text.new ≡ string_bytes text.old ++ listed [] (all_quoted names.now)) }
{
    for (index, name) in names.iter().enumerate() {
        text.push_str(separator_at(", ", index))?;
        push_quoted(text, name.as_str())?;
    }
    Ok(())
}

/// Appends flags or an enum, behind a word.
fn push_named(text: &mut String, word: &str, names: &[Text]) -> Result<(), AllocError>
    ensures { OnOk result (string_bytes text.new ≡ string_bytes text.old ++ (word.now ++ listed [] (all_quoted names.now) ++ codes "}")) }
{
    text.push_str(word)?;
    push_names(text, names)?;
    text.push_str("}")
}

/// Appends what has one part, behind its word.
fn push_one(
    text: &mut String,
    numbers: &Numbers,
    word: &str,
    value: Option<ComponentValType>,
) -> Result<(), AllocError>
    ensures { OnOk result (Appends numbers.now (string_bytes text.old) (string_bytes text.new) (λ w. one_said w word.now value)) }
{
    text.push_str(word)?;
    push_option(text, numbers, value)
}

/// Appends what has two parts, behind its word.
fn push_two(
    text: &mut String,
    numbers: &Numbers,
    word: &str,
    first: Option<ComponentValType>,
    second: Option<ComponentValType>,
) -> Result<(), AllocError>
    ensures { OnOk result (Appends numbers.now (string_bytes text.old) (string_bytes text.new) (λ w. two_said w word.now first second)) }
{
    text.push_str(word)?;
    push_option(text, numbers, first)?;
    text.push_str(" ")?;
    push_option(text, numbers, second)
}

/// Appends a list of a fixed length.
fn push_fixed_list(
    text: &mut String,
    numbers: &Numbers,
    value: ComponentValType,
    length: u32,
) -> Result<(), AllocError>
    ensures { OnOk result (Appends numbers.now (string_bytes text.old) (string_bytes text.new) (λ w. codes "fixed-list " ++ value_text w value ++ codes " " ++ decimal length)) }
{
    push_one(text, numbers, "fixed-list ", Some(value))?;
    write!(text, " {length}")
}

/// Appends the form of a defined type.
pub fn push_defined(
    text: &mut String,
    numbers: &Numbers,
    shape: &ComponentDefinedType,
) -> Result<(), AllocError>
    ensures { OnOk result (Appends numbers.now (string_bytes text.old) (string_bytes text.new) (λ w. defined_said w shape.now)) }
{
    match shape {
        ComponentDefinedType::Primitive(ty) => {
            push_one(
                text,
                numbers,
                "prim ",
                Some(ComponentValType::Primitive(*ty)),
            )
        }
        ComponentDefinedType::Record(fields) => push_record(text, numbers, fields),
        ComponentDefinedType::Variant(cases) => push_variant(text, numbers, cases),
        ComponentDefinedType::Tuple(types) => push_tuple(text, numbers, types),
        ComponentDefinedType::Flags(names) => push_named(text, "flags {", names),
        ComponentDefinedType::Enum(names) => push_named(text, "enum {", names),
        ComponentDefinedType::List(ty) => push_one(text, numbers, "list ", Some(*ty)),
        ComponentDefinedType::FixedLengthList(ty, length) => {
            push_fixed_list(text, numbers, *ty, *length)
        }
        ComponentDefinedType::Option(ty) => push_one(text, numbers, "option ", Some(*ty)),
        ComponentDefinedType::Map(key, value) => {
            push_two(text, numbers, "map ", Some(*key), Some(*value))
        }
        ComponentDefinedType::Result { ok, err } => push_two(text, numbers, "result ", *ok, *err),
        ComponentDefinedType::Future(ty) => push_one(text, numbers, "future ", *ty),
        ComponentDefinedType::Stream(ty) => push_one(text, numbers, "stream ", *ty),
        ComponentDefinedType::Own(id) => {
            push_mention(text, numbers, "own ", Part::Resource(*id))
        }
        ComponentDefinedType::Borrow(id) => {
            push_mention(text, numbers, "borrow ", Part::Resource(*id))
        }
    }
}
