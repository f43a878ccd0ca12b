// Names of imports and exports.
ghost use Rattle.std.specs.Prelude.{◌≡◌, IfOk, option_map};
ghost use Rattle.serde_json.specs.Find.{as_str};
ghost use Rattle.wcv_listing.specs.Fields.{optional};
ghost use Rattle.wcv_listing.specs.Forms.{name_object_of, extern_name_of};
ghost use Rattle.wcv_listing.specs.Seen.{view};

use crate::fields::four_fields;
use crate::node::Node;
use crate::value::text_of;
use std::alloc::Global;
use wcv_core::{OutOfMemory, Text};
use wcv_syntax::ComponentExternName;

// A text that may be absent, or `None` where what is there is none.
fn optional_text<'a>(value: Option<Node<'_, 'a>>) -> Option<Option<&'a str>>
    ensures { option_map (option_map (λ text. text.now)) result ≡ optional as_str (option_map view value.entry) }
{
    match value {
        None => Some(None),
        Some(text) => text_of(text).map(Some),
    }
}

// The text of its own, where there is one.
fn own_text(alloc: Global, text: Option<&str>) -> Result<Option<Text>, OutOfMemory>
    ensures { IfOk result (λ own. own ≡ option_map (λ text. text.now) text.entry) }
{
    match text {
        None => Ok(None),
        Some(text) => Ok(Some(Text::new(alloc, text)?)),
    }
}

// A name of these texts.
fn own_name(
    alloc: Global,
    name: &str,
    implements: Option<&str>,
    suffix: Option<&str>,
    id: Option<&str>,
) -> Result<ComponentExternName, OutOfMemory>
    ensures { IfOk result (λ n. n ≡ record {
      name = name.now;
      implements = option_map (λ text. text.now) implements.entry;
      version_suffix = option_map (λ text. text.now) suffix.entry;
      external_id = option_map (λ text. text.now) id.entry;
    }) }
{
    let name = Text::new(alloc, name)?;
    let implements = own_text(alloc, implements)?;
    let version_suffix = own_text(alloc, suffix)?;
    let external_id = own_text(alloc, id)?;
    Ok(ComponentExternName {
        name,
        implements,
        version_suffix,
        external_id,
    })
}

// A name with what stands beside it.
fn read_name_object(
    alloc: Global,
    value: Node<'_, '_>,
) -> Result<Option<ComponentExternName>, OutOfMemory>
    ensures { IfOk result (λ name. name ≡ name_object_of (view value.entry)) }
{
    let Some((name, implements, suffix, id)) = four_fields(
        value,
        "name",
        "implements",
        "suffix",
        "id",
    ) else {
        return Ok(None);
    };
    let Some(name) = name else {
        return Ok(None);
    };
    let Some(name) = text_of(name) else {
        return Ok(None);
    };
    let Some(implements) = optional_text(implements) else {
        return Ok(None);
    };
    let Some(suffix) = optional_text(suffix) else {
        return Ok(None);
    };
    let Some(id) = optional_text(id) else {
        return Ok(None);
    };
    Ok(Some(own_name(alloc, name, implements, suffix, id)?))
}

/// The name of an import or an export.
pub fn read_extern_name(
    alloc: Global,
    value: Node<'_, '_>,
) -> Result<Option<ComponentExternName>, OutOfMemory>
    ensures { IfOk result (λ name. name ≡ extern_name_of (view value.entry)) }
{
    match text_of(value) {
        Some(name) => Ok(Some(own_name(alloc, name, None, None, None)?)),
        None => read_name_object(alloc, value),
    }
}
