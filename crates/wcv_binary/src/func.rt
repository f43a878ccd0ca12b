// Function types.
ghost use Rattle.std.specs.Prelude.{◌≡◌};
ghost use Rattle.wcv_binary.specs.Funcs.{func_at};
ghost use Rattle.wcv_bytes.specs.Reading.{Gives};
ghost use Rattle.wcv_syntax.specs.View.{func_view};

use crate::list::read_vec;
use crate::value::read_result;
use std::alloc::Global;
use wcv_bytes::ReadError;
use wcv_syntax::ComponentFuncType;

/// Parameters and a result, behind the byte that says whether the function is asynchronous, as the component
/// model's Binary.md has them.
#[tactic(auto, unfolding(crate::specs::Funcs::func_at))]
pub fn read_func(
    alloc: Global,
    async_: bool,
    bytes: &[u8],
) -> Result<(ComponentFuncType, &[u8]), ReadError>
    ensures { Gives (λ x. (func_view x.0, x.1.now)) result (func_at async_ bytes.now) }
{
    let (params, rest) = read_vec(alloc, bytes)?;
    let (result, rest) = read_result(rest)?;
    Ok((
        ComponentFuncType {
            async_,
            params,
            result,
        },
        rest,
    ))
}
