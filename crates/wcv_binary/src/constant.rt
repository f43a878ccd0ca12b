// Where a constant expression of a core module ends.
ghost use Rattle.std.specs.Prelude.{◌≡◌};
ghost use Rattle.wcv_binary.specs.Constants.{signed_end, u32_end, heap_end, bytes_end, vector_end, gc_end, instruction_end, constant_at};
ghost use Rattle.wcv_bytes.specs.Reading.{Gives};

use crate::core_value::read_full_ref;
use wcv_bytes::{ReadError, Why, fault_at, read_u32};

// What stands behind a number from -most - 1 to `most`.
#[tactic(auto, unfolding(crate::specs::Constants::signed_end))]
fn skip_signed(bytes: &[u8], most: u64) -> Result<&[u8], ReadError>
    ensures { Gives (λ x. x.now) result (signed_end most bytes.now) }
{
    match bytes {
        [] => Err(fault_at(Why::Short, bytes)),
        [b, rest @ ..] => {
            let byte = *b as u64;
            if byte < 128 {
                let size = if byte < 64 { byte } else { 127 - byte };
                if most < size {
                    return Err(fault_at(Why::TooLarge, bytes));
                }
                return Ok(rest);
            }
            if most < 127 {
                return Err(fault_at(Why::TooLong, bytes));
            }
            skip_signed(rest, most / 128)
        }
    }
}

// What stands behind a number of 32 bits.
#[tactic(auto, unfolding(crate::specs::Constants::u32_end))]
fn skip_u32(bytes: &[u8]) -> Result<&[u8], ReadError>
    ensures { Gives (λ x. x.now) result (u32_end bytes.now) }
{
    let (_, rest) = read_u32(bytes)?;
    Ok(rest)
}

// What stands behind the heap type of a null reference.
#[tactic(auto, unfolding(crate::specs::Constants::heap_end))]
fn skip_heap(bytes: &[u8]) -> Result<&[u8], ReadError>
    ensures { Gives (λ x. x.now) result (heap_end bytes.now) }
{
    let (_, rest) = read_full_ref(true, bytes)?;
    Ok(rest)
}

// What stands behind so many bytes.
#[tactic(auto, unfolding(crate::specs::Constants::bytes_end))]
fn skip_bytes(bytes: &[u8], count: usize) -> Result<&[u8], ReadError>
    ensures { Gives (λ x. x.now) result (bytes_end count bytes.now) }
{
    if bytes.len() < count {
        return Err(fault_at(Why::Short, &[]));
    }
    Ok(&bytes[count..])
}

// What stands behind an instruction on vectors, of which `rest` is left behind the first byte.
#[tactic(auto, unfolding(crate::specs::Constants::vector_end))]
fn skip_vector<'a>(bytes: &'a [u8], rest: &'a [u8]) -> Result<&'a [u8], ReadError>
    ensures { Gives (λ x. x.now) result (vector_end bytes.now rest.now) }
{
    let (code, rest) = read_u32(rest)?;
    match code {
        0x0C => skip_bytes(rest, 16),
        _ => Err(fault_at(Why::UnsupportedInstruction, bytes)),
    }
}

// What stands behind an instruction on structs, arrays or i31, of which `rest` is left behind the first byte.
#[tactic(auto, unfolding(crate::specs::Constants::gc_end))]
fn skip_gc<'a>(bytes: &'a [u8], rest: &'a [u8]) -> Result<&'a [u8], ReadError>
    ensures { Gives (λ x. x.now) result (gc_end bytes.now rest.now) }
{
    let (code, rest) = read_u32(rest)?;
    match code {
        0 | 1 | 6 | 7 => skip_u32(rest),
        8 => skip_u32(skip_u32(rest)?),
        0x1A..=0x1C => Ok(rest),
        _ => Err(fault_at(Why::UnsupportedInstruction, bytes)),
    }
}

// What stands behind an instruction.
#[tactic(auto, unfolding(crate::specs::Constants::instruction_end))]
fn skip_instruction(bytes: &[u8]) -> Result<&[u8], ReadError>
    ensures { Gives (λ x. x.now) result (instruction_end bytes.now) }
{
    match bytes {
        [] => Err(fault_at(Why::Short, bytes)),
        [0x41, rest @ ..] => skip_signed(rest, 0x7FFF_FFFF),
        [0x42, rest @ ..] => skip_signed(rest, 0x7FFF_FFFF_FFFF_FFFF),
        [0x43, rest @ ..] => skip_bytes(rest, 4),
        [0x44, rest @ ..] => skip_bytes(rest, 8),
        [0x23 | 0xD2, rest @ ..] => skip_u32(rest),
        [0xD0, rest @ ..] => skip_heap(rest),
        [0x6A..=0x6C | 0x7C..=0x7E, rest @ ..] => Ok(rest),
        [0xFD, rest @ ..] => skip_vector(bytes, rest),
        [0xFB, rest @ ..] => skip_gc(bytes, rest),
        [_, ..] => Err(fault_at(Why::UnsupportedInstruction, bytes)),
    }
}

/// What stands behind a constant expression, which ends with the first byte 0x0B that begins an instruction.
#[tactic(auto, unfolding(crate::specs::Constants::constant_within))]
pub fn skip_constant(bytes: &[u8]) -> Result<&[u8], ReadError>
    ensures { Gives (λ x. x.now) result (constant_at bytes.now) }
{
    let mut rest = bytes;
    let mut most = bytes.len();
    while most > 0 {
        match rest {
            [] => break,
            [0x0B, after @ ..] => return Ok(after),
            [_, ..] => {
                most -= 1;
                rest = skip_instruction(rest)?;
            }
        }
    }
    Err(fault_at(Why::Short, &[]))
}
