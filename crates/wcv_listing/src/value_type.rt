// Value types, and lists of them by names.
ghost use Rattle.std.specs.Prelude.{◌≡◌, IfOk, option_map};
ghost use Rattle.serde_json.specs.Find.{get};
ghost use Rattle.wcv_listing.specs.Fields.{optional};
ghost use Rattle.wcv_listing.specs.Seen.{view};
ghost use Rattle.wcv_listing.specs.Values.{primitive_named, value_of, param_of, params_of};

use crate::list::{FromValue, named_in, read_list};
use crate::node::Node;
use crate::value::{index_of, member_at, pair_of, text_of};
use std::alloc::Global;
use wcv_core::{OutOfMemory, PrimitiveValType, Text};
use wcv_syntax::ComponentValType;

/// The primitive of this name.
pub fn primitive_of(name: &str) -> Option<PrimitiveValType>
    ensures { result ≡ primitive_named name.now }
{
    named_in(
        &[
            ("bool", PrimitiveValType::Bool),
            ("s8", PrimitiveValType::S8),
            ("u8", PrimitiveValType::U8),
            ("s16", PrimitiveValType::S16),
            ("u16", PrimitiveValType::U16),
            ("s32", PrimitiveValType::S32),
            ("u32", PrimitiveValType::U32),
            ("s64", PrimitiveValType::S64),
            ("u64", PrimitiveValType::U64),
            ("f32", PrimitiveValType::F32),
            ("f64", PrimitiveValType::F64),
            ("char", PrimitiveValType::Char),
            ("string", PrimitiveValType::String),
            ("error-context", PrimitiveValType::ErrorContext),
        ],
        name,
    )
}

/// A primitive by its name, or a type by its index.
pub fn read_value_type(value: Node<'_, '_>) -> Option<ComponentValType>
    ensures { result ≡ value_of (view value.entry) }
{
    match text_of(value) {
        Some(name) => primitive_of(name).map(ComponentValType::Primitive),
        None => index_of(value).map(ComponentValType::Ty),
    }
}

/// A value type that may be absent, or `None` where what is there is none.
pub fn optional_type(value: Option<Node<'_, '_>>) -> Option<Option<ComponentValType>>
    ensures { result ≡ optional value_of (option_map view value.entry) }
{
    match value {
        None => Some(None),
        Some(ty) => read_value_type(ty).map(Some),
    }
}

/// A value type under a key that may be absent, or `None` where what is there is none.
pub fn read_optional(value: Node<'_, '_>, key: &str) -> Option<Option<ComponentValType>>
    ensures { result ≡ optional value_of (get key.now (view value.entry)) }
{
    optional_type(member_at(value, key))
}

impl FromValue for ComponentValType {
    ghost seen = { λ ty. ty };

    ghost meant = { value_of };

    fn from_value(
        _alloc: Global,
        value: Node<'_, '_>,
    ) -> Result<Option<ComponentValType>, OutOfMemory> {
        Ok(read_value_type(value))
    }
}

// A name and a value type.
impl FromValue for (Text, ComponentValType) {
    ghost seen = { λ param. param };

    ghost meant = { param_of };

    fn from_value(
        alloc: Global,
        value: Node<'_, '_>,
    ) -> Result<Option<(Text, ComponentValType)>, OutOfMemory> {
        let Some((name, ty)) = pair_of(value) else {
            return Ok(None);
        };
        let Some(name) = text_of(name) else {
            return Ok(None);
        };
        let Some(ty) = read_value_type(ty) else {
            return Ok(None);
        };
        let name = Text::new(alloc, name)?;
        Ok(Some((name, ty)))
    }
}

/// Names and value types.
pub fn read_params(
    alloc: Global,
    value: Node<'_, '_>,
) -> Result<Option<Vec<(Text, ComponentValType)>>, OutOfMemory>
    ensures { IfOk result (λ params. option_map (λ ps. ps.items) params ≡ params_of (view value.entry)) }
{
    read_list(alloc, value)
}
