// Bytes and numbers.
ghost use Rattle.std.specs.Prelude.{◌≡◌, ℕ, ◌*◌, ◌^◌, ◌<◌, ◌≤◌, Some};
ghost use Rattle.wcv_encode.specs.Bytes.{Wrote, ◌⧺◌, byte, flag, leb128, u32_bytes, u64_bytes, s33_bytes};

use crate::fault::Unwritten;

/// Writes bytes as they are.
#[tactic(auto, using(crate::proofs::Joins::joins))]
pub(crate) fn write_all(out: &mut Vec<u8>, bytes: &[u8]) -> Result<(), Unwritten>
    ensures { Wrote result (Some out.old.items ⧺ Some bytes.now) out.new.items }
{
    out.extend_from_slice(bytes)?;
    Ok(())
}

/// Writes a byte.
#[tactic(auto, using(crate::proofs::Joins::joins))]
pub(crate) fn write_byte(out: &mut Vec<u8>, b: u8) -> Result<(), Unwritten>
    ensures { Wrote result (Some out.old.items ⧺ byte b) out.new.items }
{
    out.push(b)?;
    Ok(())
}

/// Writes a byte that is 0 or 1.
pub(crate) fn write_flag(out: &mut Vec<u8>, on: bool) -> Result<(), Unwritten>
    ensures { Wrote result (Some out.old.items ⧺ flag on) out.new.items }
{
    if on {
        write_byte(out, 1)
    } else {
        write_byte(out, 0)
    }
}

#[tactic(auto, using(crate::proofs::Joins::joins, crate::proofs::Numbers::lebs))]
/// Writes a number in no more bytes than one and `more`, the last below `bound`.
fn write_leb(out: &mut Vec<u8>, bound: u64, more: u64, n: u64) -> Result<(), Unwritten>
    requires bound { bound ≤ 128 }
    requires fits { n < 128 * 128 ^ more }
    ensures { Wrote result (Some out.old.items ⧺ Some (leb128 bound more n)) out.new.items }
{
    if more == 0 {
        write_byte(out, n as u8)
    } else if n < bound {
        write_byte(out, n as u8)
    } else {
        write_byte(out, 128 + (n % 128) as u8)?;
        write_leb(out, bound, more - 1, n / 128)
    }
}

/// Writes a number of 32 bits.
#[tactic(auto, unfolding(crate::specs::Bytes::u32_bytes))]
pub(crate) fn write_u32(out: &mut Vec<u8>, n: u32) -> Result<(), Unwritten>
    ensures { Wrote result (Some out.old.items ⧺ u32_bytes n) out.new.items }
{
    write_leb(out, 128, 4, u64::from(n))
}

/// Writes a number of 64 bits.
#[tactic(auto, unfolding(crate::specs::Bytes::u64_bytes))]
pub(crate) fn write_u64(out: &mut Vec<u8>, n: u64) -> Result<(), Unwritten>
    ensures { Wrote result (Some out.old.items ⧺ u64_bytes n) out.new.items }
{
    write_leb(out, 128, 9, n)
}

/// Writes an index as a signed number.
#[tactic(auto, unfolding(crate::specs::Bytes::s33_bytes))]
pub(crate) fn write_s33(out: &mut Vec<u8>, n: u32) -> Result<(), Unwritten>
    ensures { Wrote result (Some out.old.items ⧺ s33_bytes n) out.new.items }
{
    write_leb(out, 64, 4, u64::from(n))
}

/// Writes a number that may be too large for 32 bits, and then has no bytes.
#[tactic(auto, using(crate::proofs::Joins::joins), unfolding(crate::specs::Bytes::u32_bytes))]
pub(crate) fn write_count(out: &mut Vec<u8>, n: usize) -> Result<(), Unwritten>
    ensures { Wrote result (Some out.old.items ⧺ u32_bytes n) out.new.items }
{
    match u32::try_from(n) {
        Ok(n) => write_u32(out, n),
        Err(_) => Err(Unwritten::NoBytes),
    }
}
