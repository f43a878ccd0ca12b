// Options of canonical functions.
ghost use Rattle.wcv_write.specs.Canons.{option_data};

use crate::indices::{Indices, Space};
use crate::list::ToJson;
use crate::output::Output;
use crate::value::write_index_under;
use std::alloc::AllocError;
use wcv_syntax::CanonicalOption;

#[tactic(auto, unfolding(crate::specs::Canons::option_data))]
impl ToJson for CanonicalOption {
    ghost form = { option_data };

    fn write<I: Indices>(&self, out: &mut Output, indices: &I) -> Result<(), AllocError> {
        match self {
            CanonicalOption::UTF8 => out.text("utf8"),
            CanonicalOption::UTF16 => out.text("utf16"),
            CanonicalOption::CompactUTF16 => out.text("latin1-utf16"),
            CanonicalOption::Async => out.text("async"),
            CanonicalOption::Gc => out.text("gc"),
            CanonicalOption::Memory(index) => {
                write_index_under(out, indices, "memory", Space::CoreMemory, *index)
            }
            CanonicalOption::Realloc(index) => {
                write_index_under(out, indices, "realloc", Space::CoreFunc, *index)
            }
            CanonicalOption::PostReturn(index) => {
                write_index_under(out, indices, "post-return", Space::CoreFunc, *index)
            }
            CanonicalOption::Callback(index) => {
                write_index_under(out, indices, "callback", Space::CoreFunc, *index)
            }
            CanonicalOption::CoreType(index) => {
                write_index_under(out, indices, "core-type", Space::CoreType, *index)
            }
        }
    }
}
