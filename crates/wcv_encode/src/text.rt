// Texts, and bytes behind their number.
ghost use Rattle.std.specs.Prelude.{◌≡◌, Some};
ghost use Rattle.wcv_encode.specs.Bytes.{Wrote, ◌⧺◌, sized, text, section};

use crate::fault::Unwritten;
use crate::number::{write_all, write_byte, write_count};

/// Writes bytes behind their number.
#[tactic(auto, using(crate::proofs::Joins::joins), unfolding(crate::specs::Bytes::sized))]
pub(crate) fn write_sized(out: &mut Vec<u8>, bytes: &[u8]) -> Result<(), Unwritten>
    ensures { Wrote result (Some out.old.items ⧺ sized (Some bytes.now)) out.new.items }
{
    write_count(out, bytes.len())?;
    write_all(out, bytes)
}

/// Writes a text.
#[tactic(auto, using(crate::proofs::Texts::text_sized))]
pub(crate) fn write_text(out: &mut Vec<u8>, s: &str) -> Result<(), Unwritten>
    ensures { Wrote result (Some out.old.items ⧺ text s.now) out.new.items }
{
    write_sized(out, s.as_bytes())
}

/// Writes a section: its id, and its contents behind their size.
#[tactic(auto, using(crate::proofs::Joins::joins), unfolding(crate::specs::Bytes::section))]
pub(crate) fn write_section(out: &mut Vec<u8>, id: u8, contents: &[u8]) -> Result<(), Unwritten>
    ensures { Wrote result (Some out.old.items ⧺ section id (Some contents.now)) out.new.items }
{
    write_byte(out, id)?;
    write_sized(out, contents)
}
