// Components by their bytes, with the sizes of sections left to be counted.
use std::alloc::{AllocError, Global};

/// A component's header.
const HEADER: [u8; 8] = [0x00, 0x61, 0x73, 0x6D, 0x0D, 0x00, 0x01, 0x00];

/// How the numbers of a component are written: each as short as it can be, each with all the bytes that it may
/// take, or so but for the one at a position, which goes on behind these, or is larger than its type allows.
#[derive(Clone, Copy)]
pub enum Spelling {
    Shortest,
    Longest,
    TooLong(usize),
    TooLarge(usize),
}

/// How many bytes a number may take, and the lowest bit of the last one that no number of its type has.
#[derive(Clone, Copy)]
struct Width {
    bytes: usize,
    beyond: u8,
}

/// The number that a part stands for, with its width: `u` for 32 bits, `i` for an index of 33, `U` for 64, and `s`
/// and `S` for those with a sign. The size that stands before a section's contents is one.
fn number_of(part: &str) -> Option<(u64, Width)> {
    let (width, digits) = match part.split_at_checked(1)? {
        ("[", _) => return Some((
            0,
            Width {
                bytes: 5,
                beyond: 0x10,
            },
        )),
        ("u" | "i", digits) => (
            Width {
                bytes: 5,
                beyond: 0x10,
            },
            digits,
        ),
        ("U", digits) => (
            Width {
                bytes: 10,
                beyond: 0x02,
            },
            digits,
        ),
        ("s", digits) => (
            Width {
                bytes: 5,
                beyond: 0x08,
            },
            digits,
        ),
        ("S", digits) => (
            Width {
                bytes: 10,
                beyond: 0x01,
            },
            digits,
        ),
        _ => return None,
    };
    Some((u64::from_str_radix(digits, 16).ok()?, width))
}

/// Whether a number stands there.
pub fn is_number(part: &str) -> bool {
    number_of(part).is_some()
}

/// Whether these parts are whole where they end here: behind a section, behind the last part of one, or where it is
/// marked.
pub fn ends_whole(parts: &[&str], rest: &[&str]) -> bool {
    matches!(parts.last(), Some(&"]" | &".")) || matches!(rest.first(), None | Some(&"]" | &"."))
}

/// A number, seven bits a byte, over so many bytes at least.
fn leb128(alloc: Global, value: u64, least: usize) -> Result<Vec<u8>, AllocError> {
    let mut bytes = Vec::new(alloc);
    let mut left = value;
    for k in 1..=10usize {
        let low = (left % 128) as u8;
        left /= 128;
        if left == 0 && k >= least {
            bytes.push(low)?;
            return Ok(bytes);
        }
        bytes.push(low | 128)?;
    }
    Ok(bytes)
}

/// Bytes that are written from the last to the first, with what was written behind each section that is open.
#[derive(Drop)]
struct Backwards {
    bytes: Vec<u8>,
    behind: Vec<usize>,
    fault: Option<usize>,
}

impl Backwards {
    /// The number at a position, as it is spelled there.
    fn push_number(
        &mut self,
        alloc: Global,
        value: u64,
        width: Width,
        position: usize,
        spelling: Spelling,
    ) -> Result<(), AllocError> {
        let least = match spelling {
            Spelling::Shortest => 1,
            _ => width.bytes,
        };
        let mut number = leb128(alloc, value, least)?;
        let beyond = match spelling {
            Spelling::TooLong(at) if at == position => 128,
            Spelling::TooLarge(at) if at == position => width.beyond,
            _ => 0,
        };
        if let Some(last) = number.last_mut() {
            *last |= beyond;
        }
        if beyond == 128 {
            number.push(0)?;
        }
        for byte in number.iter().rev() {
            self.bytes.push(*byte)?;
        }
        if beyond != 0 {
            self.fault = Some(
                self.bytes
                    .len()
                    .saturating_sub(width.bytes.saturating_sub(1)),
            );
        }
        Ok(())
    }

    /// The part at a position.
    fn push_part(
        &mut self,
        alloc: Global,
        part: &str,
        position: usize,
        spelling: Spelling,
    ) -> Result<(), AllocError> {
        if part == "]" {
            let len = self.bytes.len();
            self.behind.push(len)?;
            return Ok(());
        }
        if let Some((value, width)) = number_of(part) {
            let value = if part == "[" {
                let behind = self.behind.pop().unwrap_or(0);
                self.bytes.len().saturating_sub(behind) as u64
            } else {
                value
            };
            return self.push_number(alloc, value, width, position, spelling);
        }
        if part == "!" {
            self.fault = Some(self.bytes.len());
        }
        if let Ok(byte) = u8::from_str_radix(part, 16) {
            self.bytes.push(byte)?;
        }
        Ok(())
    }
}

/// The bytes of a component of these parts, where sections that are open end behind the last of them, and the
/// offset of the byte that makes a number too long or too large, or that is marked.
pub fn spelled(
    alloc: Global,
    parts: &[&str],
    spelling: Spelling,
) -> Result<(Vec<u8>, usize), AllocError> {
    let mut back = Backwards {
        bytes: Vec::new(alloc),
        behind: Vec::new(alloc),
        fault: None,
    };
    for (k, part) in parts.iter().enumerate().rev() {
        back.push_part(alloc, part, k, spelling)?;
    }
    let mut bytes = HEADER.to_vec(alloc)?;
    for byte in back.bytes.iter().rev() {
        bytes.push(*byte)?;
    }
    let at = match back.fault {
        Some(left) => bytes.len().saturating_sub(left),
        None => bytes.len(),
    };
    Ok((bytes, at))
}
