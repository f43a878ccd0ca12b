// Values, each of which is used once.
ghost use Rattle.std.specs.Prelude.{◌≡◌, ◌∷◌, [], Some, false, slice_get, OnOk, OnErr, IfOk, IfErr};
ghost use Rattle.wcv_core.specs.Refusal.{error_kind, error_offset};
ghost use Rattle.wcv_spaces.specs.Contents.{used_at};
ghost use Rattle.wcv_spaces.specs.Promises.{CausedBy};
ghost use Rattle.wcv_spaces.specs.Values as marks;
ghost use Rattle.wcv_spaces.specs.Values.{value_at_checks};

use crate::indices::element_at;
use wcv_core::{Error, ErrorKind, Refusal, Why};
use wcv_types::ComponentValType;

/// The refusal of a value that is used.
fn used_again(index: u32, offset: u64) -> Refusal<'static>
    ensures kind { error_kind result ≡ ErrorKind.Value }
    ensures offset { error_offset result ≡ offset }
{
    let why = Why::new("value index %1 is used a second time: a value is used once");
    let why = why.numbers([index as u64, 0, 0]);
    Error::new(ErrorKind::Value, offset, why)
}

/// The type of the value at that index, which is used from here on.
pub fn use_value(
    values: &mut [(ComponentValType, bool)],
    index: u32,
    offset: u64,
) -> Result<ComponentValType, Refusal<'static>>
    ensures ok { IfOk result (λ v. slice_get values.old index ≡ Some (v, false)) }
    ensures marked { OnOk result (values.new ≡ used_at (index ∷ []) values.old) }
    ensures err { IfErr result (CausedBy (value_at_checks values.old index) offset) }
    ensures left { OnErr result (values.new ≡ values.old) }
{
    let value = element_at(values, "value", index, offset)?;
    if value.1 {
        return Err(used_again(index, offset));
    }
    values[index as usize] = (value.0, true);
    Ok(value.0)
}

/// The position of the first value that is not used.
pub fn first_unused(values: &[(ComponentValType, bool)]) -> Option<usize>
    ensures { result ≡ marks.first_unused 0 values.now }
{
    for k in 0..values.len() {
        if !values[k].1 {
            return Some(k);
        }
    }
    None
}
