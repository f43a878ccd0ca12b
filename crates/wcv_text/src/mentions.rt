// What lines mention.
ghost use Rattle.std.specs.Prelude.{◌≡◌, ◌++◌, codes, cond, string_bytes, OnOk, Option};
ghost use Rattle.wcv_types.specs.Entities.{entry_name};
ghost use Rattle.wcv_types.specs.Standing as standing;
ghost use Rattle.wcv_types.specs.Text as text_of;
ghost use Rattle.wcv_types.specs.declared.shapes.ComponentEntityType.TheVariants as entity;
ghost use Rattle.wcv_text.specs.Mentions.{separator, value_text, option_text, entity_said};
ghost use Rattle.wcv_text.specs.Numbers.{Appends};

use crate::identity::{Identity, as_part, identity_of};
use crate::numbers::Numbers;
use crate::quoting::push_quoted;
use std::alloc::AllocError;
use std::fmt::Write;
use wcv_core::{PrimitiveValType, Text};
use wcv_types::{ComponentAnyTypeId, ComponentEntityType, ComponentItem, ComponentValType, Part};

/// What stands before the item at that index of a list.
pub fn separator_at(between: &'static str, index: usize) -> &'static str
    ensures { result.now ≡ separator between.now index }
{
    if index == 0 { "" } else { between }
}

/// What stands before the item at that index of a list, where something may stand before the list.
pub fn comma_at(behind: bool, index: usize) -> &'static str
    ensures { result.now ≡ cond behind (codes ", ") (separator (codes ", ") index) }
{
    if behind {
        ", "
    } else {
        separator_at(", ", index)
    }
}

fn primitive_name(ty: PrimitiveValType) -> &'static str
    ensures { result.now ≡ text_of.primitive_name ty }
{
    match ty {
        PrimitiveValType::Bool => "bool",
        PrimitiveValType::S8 => "s8",
        PrimitiveValType::U8 => "u8",
        PrimitiveValType::S16 => "s16",
        PrimitiveValType::U16 => "u16",
        PrimitiveValType::S32 => "s32",
        PrimitiveValType::U32 => "u32",
        PrimitiveValType::S64 => "s64",
        PrimitiveValType::U64 => "u64",
        PrimitiveValType::F32 => "f32",
        PrimitiveValType::F64 => "f64",
        PrimitiveValType::Char => "char",
        PrimitiveValType::String => "string",
        PrimitiveValType::ErrorContext => "error-context",
    }
}

/// Appends a value type.
pub fn push_value(
    text: &mut String,
    numbers: &Numbers,
    value: ComponentValType,
) -> Result<(), AllocError>
    ensures { OnOk result (Appends numbers.now (string_bytes text.old) (string_bytes text.new) (λ w. value_text w value)) }
{
    match value {
        ComponentValType::Primitive(ty) => text.push_str(primitive_name(ty)),
        ComponentValType::Ty(id) => write!(text, "{}", numbers.line(Identity::Node(id.index))),
    }
}

/// Appends a value type that may be left out.
pub fn push_option(
    text: &mut String,
    numbers: &Numbers,
    value: Option<ComponentValType>,
) -> Result<(), AllocError>
    ensures { OnOk result (Appends numbers.now (string_bytes text.old) (string_bytes text.new) (λ w. option_text w value)) }
{
    match value {
        None => text.push_str("-"),
        Some(value) => push_value(text, numbers, value),
    }
}

/// Appends the number of the line of a node, behind a word.
pub fn push_mention(
    text: &mut String,
    numbers: &Numbers,
    word: &str,
    part: Part,
) -> Result<(), AllocError>
    ensures { OnOk result (Appends numbers.now (string_bytes text.old) (string_bytes text.new) (λ w. word.now ++ text_of.node_number w (standing.identity_of part))) }
{
    let number = numbers.line(identity_of(part));
    write!(text, "{word}{number}")
}

/// Appends the number of a type that an entry creates, and that of what it is made of.
fn push_type_pair(
    text: &mut String,
    numbers: &Numbers,
    created: ComponentAnyTypeId,
    referenced: ComponentAnyTypeId,
) -> Result<(), AllocError>
    ensures { OnOk result (Appends numbers.now (string_bytes text.old) (string_bytes text.new) (λ w. entity_said w (entity.Ty created referenced))) }
{
    let created = numbers.line(identity_of(as_part(created)));
    let referenced = numbers.line(identity_of(as_part(referenced)));
    write!(text, "type {created} of {referenced}")
}

/// Appends what an entry is.
pub fn push_entity(
    text: &mut String,
    numbers: &Numbers,
    ty: ComponentEntityType,
) -> Result<(), AllocError>
    ensures { OnOk result (Appends numbers.now (string_bytes text.old) (string_bytes text.new) (λ w. entity_said w ty)) }
{
    match ty {
        ComponentEntityType::Module(id) => {
            push_mention(text, numbers, "module ", Part::Module(id))
        }
        ComponentEntityType::Func(id) => push_mention(text, numbers, "func ", Part::Func(id)),
        ComponentEntityType::Value(value) => {
            text.push_str("value ")?;
            push_value(text, numbers, value)
        }
        ComponentEntityType::Ty {
            created,
            referenced,
        } => push_type_pair(text, numbers, created, referenced),
        ComponentEntityType::Instance(id) => {
            push_mention(text, numbers, "instance ", Part::Instance(id))
        }
        ComponentEntityType::Component(id) => {
            push_mention(text, numbers, "component ", Part::Component(id))
        }
    }
}

/// Appends a text that a name says beside it, behind a word, where it is there.
pub fn push_beside(text: &mut String, word: &str, beside: &Option<Text>) -> Result<(), AllocError>
    ensures { OnOk result (string_bytes text.new ≡ string_bytes text.old ++ text_of.beside_text word.now beside.now) }
{
    match beside {
        None => Ok(()),
        Some(beside) => {
            text.push_str(word)?;
            push_quoted(text, beside.as_str())
        }
    }
}

/// Appends what the name of an entry says beside it.
pub fn push_name(text: &mut String, entry: &(Text, ComponentItem)) -> Result<(), AllocError>
    ensures { OnOk result (string_bytes text.new ≡ string_bytes text.old ++ text_of.name_text (entry_name entry.now)) }
{
    push_beside(text, " implements ", &entry.1.implements)?;
    push_beside(text, " suffix ", &entry.1.version_suffix)?;
    push_beside(text, " id ", &entry.1.external_id)
}
