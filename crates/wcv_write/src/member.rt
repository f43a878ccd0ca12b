// Members of objects that may be absent.
ghost use Rattle.std.specs.Prelude.{◌++◌, ◌≡◌, OnOk};
ghost use Rattle.serde_json.specs.Data.{string};
ghost use Rattle.wcv_write.specs.Json.{count, mark_tokens, optional_tokens};
ghost use Rattle.wcv_write.specs.Values.{value_data};

use crate::indices::Indices;
use crate::output::Output;
use crate::value::write_value;
use std::alloc::AllocError;
use wcv_core::Text;
use wcv_syntax::ComponentValType;

/// Writes a mark where it is true.
pub fn write_mark(out: &mut Output, key: &str, mark: bool) -> Result<(), AllocError>
    ensures { OnOk result (out.new ≡ out.old ++ mark_tokens key.now mark) }
{
    if !mark {
        return Ok(());
    }
    out.key(key)?;
    out.boolean(true)
}

/// Writes a number where there is one.
pub fn write_optional_count(
    out: &mut Output,
    key: &str,
    number: Option<u64>,
) -> Result<(), AllocError>
    ensures { OnOk result (out.new ≡ out.old ++ optional_tokens key.now count number) }
{
    match number {
        None => Ok(()),
        Some(number) => {
            out.key(key)?;
            out.count(number)
        }
    }
}

/// Writes a value type where there is one.
pub fn write_optional_value<I: Indices>(
    out: &mut Output,
    indices: &I,
    key: &str,
    value: Option<ComponentValType>,
) -> Result<(), AllocError>
    ensures { OnOk result (out.new ≡ out.old ++ optional_tokens key.now (value_data (I.written indices.now)) value) }
{
    match value {
        None => Ok(()),
        Some(value) => {
            out.key(key)?;
            write_value(out, indices, value)
        }
    }
}

/// Writes a text where there is one.
pub fn write_optional_text(
    out: &mut Output,
    key: &str,
    text: &Option<Text>,
) -> Result<(), AllocError>
    ensures { OnOk result (out.new ≡ out.old ++ optional_tokens key.now string text.now) }
{
    match text {
        None => Ok(()),
        Some(text) => {
            out.key(key)?;
            out.text(text.as_str())
        }
    }
}
