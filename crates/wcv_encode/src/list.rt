// Lists of anything.
ghost use Rattle.std.specs.Prelude.{◌≡◌, Some};
ghost use Rattle.wcv_encode.specs.Bytes.{Wrote, ◌⧺◌, each, vec, maybe};

use crate::fault::Unwritten;
use crate::number::{write_byte, write_count};

/// What is written at the end of bytes.
pub(crate) trait ToBytes {
    ghost use Rattle.std.specs.Prelude.{List, Some};
    ghost use Rattle.wcv_encode.specs.Bytes.{Wrote, ◌⧺◌, Bytes};

    /// Its bytes.
    ghost spelled: { Self → Bytes };

    /// Writes it at the end.
    fn write(&self, out: &mut Vec<u8>) -> Result<(), Unwritten>
        ensures { Wrote result (Some out.old.items ⧺ spelled self.now) out.new.items };
}

/// Writes all of a list.
#[tactic(auto, using(crate::proofs::Joins::joins))]
pub(crate) fn write_each<T: ToBytes>(out: &mut Vec<u8>, items: &[T]) -> Result<(), Unwritten>
    ensures { Wrote result (Some out.old.items ⧺ each T.spelled items.now) out.new.items }
{
    for item in items {
        item.write(out)?;
    }
    Ok(())
}

/// Writes all of a list, behind their number.
#[tactic(auto, using(crate::proofs::Joins::joins), unfolding(crate::specs::Bytes::vec))]
pub(crate) fn write_vec<T: ToBytes>(out: &mut Vec<u8>, items: &Vec<T>) -> Result<(), Unwritten>
    ensures { Wrote result (Some out.old.items ⧺ vec T.spelled items.now.items) out.new.items }
{
    write_count(out, items.len())?;
    write_each(out, items)
}

/// Writes what may be there, behind a byte that says whether it is.
#[tactic(auto, using(crate::proofs::Joins::joins), unfolding(crate::specs::Bytes::maybe))]
pub(crate) fn write_maybe<T: ToBytes>(out: &mut Vec<u8>, value: &Option<T>) -> Result<(), Unwritten>
    ensures { Wrote result (Some out.old.items ⧺ maybe T.spelled value.now) out.new.items }
{
    match value {
        None => write_byte(out, 0),
        Some(value) => {
            write_byte(out, 1)?;
            value.write(out)
        }
    }
}
