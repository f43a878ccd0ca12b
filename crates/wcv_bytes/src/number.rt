// Numbers.
ghost use Rattle.std.specs.Prelude.{◌≡◌, ◌≤◌, ◌^◌, ◌-◌, IfOk};
ghost use Rattle.wcv_bytes.specs.Reading.{Gives, byte_at, expected_at, flag_at, zero_at, leb_at, u32_at, u64_at, index_within, index_at};

use crate::fault::{Fault, ReadError, Why, fault_at};

/// The byte at the front.
#[inline(always)]
#[tactic(auto, unfolding(crate::specs::Reading::byte_at))]
pub fn read_byte(bytes: &[u8]) -> Result<(u8, &[u8]), ReadError>
    ensures { Gives (λ x. (x.0, x.1.now)) result (byte_at bytes.now) }
{
    match bytes {
        [] => Err(ReadError::Fault(Fault {
            why: Why::Short,
            left: 0,
        })),
        [b, rest @ ..] => Ok((*b, rest)),
    }
}

/// What stands behind a byte that has to be this one.
#[inline(always)]
#[tactic(auto, unfolding(crate::specs::Reading::expected_at))]
pub fn expect_byte(bytes: &[u8], byte: u8, why: Why) -> Result<&[u8], ReadError>
    ensures { Gives (λ x. x.now) result (expected_at byte why bytes.now) }
{
    let (found, rest) = read_byte(bytes)?;
    if found == byte {
        Ok(rest)
    } else {
        Err(fault_at(why, bytes))
    }
}

/// A byte that is 0 or 1.
#[inline(always)]
#[tactic(auto, unfolding(crate::specs::Reading::flag_at))]
pub fn read_flag(bytes: &[u8]) -> Result<(bool, &[u8]), ReadError>
    ensures { Gives (λ x. (x.0, x.1.now)) result (flag_at bytes.now) }
{
    match bytes {
        [] => Err(ReadError::Fault(Fault {
            why: Why::Short,
            left: 0,
        })),
        [0, rest @ ..] => Ok((false, rest)),
        [1, rest @ ..] => Ok((true, rest)),
        [_, ..] => Err(ReadError::Fault(Fault {
            why: Why::NotFlag,
            left: bytes.len(),
        })),
    }
}

/// What stands behind a byte that is 0.
#[inline(always)]
#[tactic(auto, unfolding(crate::specs::Reading::zero_at))]
pub fn read_zero(bytes: &[u8]) -> Result<&[u8], ReadError>
    ensures { Gives (λ x. x.now) result (zero_at bytes.now) }
{
    match bytes {
        [] => Err(ReadError::Fault(Fault {
            why: Why::Short,
            left: 0,
        })),
        [0, rest @ ..] => Ok(rest),
        [_, ..] => Err(ReadError::Fault(Fault {
            why: Why::NotZero,
            left: bytes.len(),
        })),
    }
}

// The number at the front, at most `most`.
#[tactic(auto, unfolding(crate::specs::Reading::leb_at))]
fn read_leb(bytes: &[u8], most: u64) -> Result<(u64, &[u8]), ReadError>
    ensures gives { Gives (λ x. (x.0, x.1.now)) result (leb_at most bytes.now) }
    ensures bound { IfOk result (λ x. x.0 ≤ most) }
{
    match bytes {
        [] => Err(ReadError::Fault(Fault {
            why: Why::Short,
            left: 0,
        })),
        [b, rest @ ..] => {
            let byte = *b as u64;
            let left = bytes.len();
            if byte < 128 {
                if most < byte {
                    return Err(ReadError::Fault(Fault {
                        why: Why::TooLarge,
                        left,
                    }));
                }
                return Ok((byte, rest));
            }
            if most < 128 {
                return Err(ReadError::Fault(Fault {
                    why: Why::TooLong,
                    left,
                }));
            }
            let (high, rest) = read_leb(rest, most / 128)?;
            let number = (byte - 128) + 128 * high;
            if most < number {
                return Err(ReadError::Fault(Fault {
                    why: Why::TooLarge,
                    left,
                }));
            }
            Ok((number, rest))
        }
    }
}

/// A number of 64 bits.
pub fn read_u64(bytes: &[u8]) -> Result<(u64, &[u8]), ReadError>
    ensures { Gives (λ x. (x.0, x.1.now)) result (u64_at bytes.now) }
{
    read_leb(bytes, u64::MAX)
}

// A number of 32 bits, of any length.
fn read_long_u32(bytes: &[u8]) -> Result<(u32, &[u8]), ReadError>
    ensures { Gives (λ x. (x.0, x.1.now)) result (u32_at bytes.now) }
{
    let (number, rest) = read_leb(bytes, 4294967295)?;
    Ok((number as u32, rest))
}

/// A number of 32 bits.
#[inline(always)]
pub fn read_u32(bytes: &[u8]) -> Result<(u32, &[u8]), ReadError>
    ensures { Gives (λ x. (x.0, x.1.now)) result (u32_at bytes.now) }
{
    if let [b, rest @ ..] = bytes {
        if *b < 128 {
            return Ok((*b as u32, rest));
        }
    }
    read_long_u32(bytes)
}

// The index at the front, at most `most`.
#[tactic(auto, unfolding(crate::specs::Reading::index_within))]
fn read_index_within(bytes: &[u8], most: u64) -> Result<(u64, &[u8]), ReadError>
    ensures gives { Gives (λ x. (x.0, x.1.now)) result (index_within most bytes.now) }
    ensures bound { IfOk result (λ x. x.0 ≤ most) }
{
    match bytes {
        [] => Err(ReadError::Fault(Fault {
            why: Why::Short,
            left: 0,
        })),
        [b, rest @ ..] => {
            let byte = *b as u64;
            let left = bytes.len();
            if byte < 128 {
                if 63 < byte {
                    return Err(ReadError::Fault(Fault {
                        why: Why::Negative,
                        left,
                    }));
                }
                if most < byte {
                    return Err(ReadError::Fault(Fault {
                        why: Why::TooLarge,
                        left,
                    }));
                }
                return Ok((byte, rest));
            }
            if most < 128 {
                return Err(ReadError::Fault(Fault {
                    why: Why::TooLong,
                    left,
                }));
            }
            let (high, rest) = read_index_within(rest, most / 128)?;
            let number = (byte - 128) + 128 * high;
            if most < number {
                return Err(ReadError::Fault(Fault {
                    why: Why::TooLarge,
                    left,
                }));
            }
            Ok((number, rest))
        }
    }
}

// An index, of any length.
fn read_long_index(bytes: &[u8]) -> Result<(u32, &[u8]), ReadError>
    ensures { Gives (λ x. (x.0, x.1.now)) result (index_at bytes.now) }
{
    let (number, rest) = read_index_within(bytes, 4294967295)?;
    Ok((number as u32, rest))
}

/// An index, written as a number of 33 bits with a sign, where the types that are no index are negative.
#[inline(always)]
pub fn read_index(bytes: &[u8]) -> Result<(u32, &[u8]), ReadError>
    ensures { Gives (λ x. (x.0, x.1.now)) result (index_at bytes.now) }
{
    if let [b, rest @ ..] = bytes {
        if *b < 64 {
            return Ok((*b as u32, rest));
        }
    }
    read_long_index(bytes)
}
