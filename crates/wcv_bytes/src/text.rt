// Texts.
ghost use Rattle.std.specs.Prelude.{◌≡◌};
ghost use Rattle.wcv_bytes.specs.Reading.{Gives, text_at, utf8_in};

use crate::fault::{Fault, ReadError, Why};
use crate::number::read_u32;

// The bytes as a text, where they are one.
fn read_utf8(bytes: &[u8], left: usize) -> Result<&str, ReadError>
    ensures { Gives (λ x. x.now) result (utf8_in bytes.now left) }
{
    match simdutf8::basic::from_utf8(bytes) {
        Ok(text) => Ok(text),
        Err(_) => Err(ReadError::Fault(Fault {
            why: Why::NotUtf8,
            left,
        })),
    }
}

/// The text at the front, behind its length.
#[tactic(auto, unfolding(crate::specs::Reading::text_at))]
pub fn read_text(bytes: &[u8]) -> Result<(&str, &[u8]), ReadError>
    ensures { Gives (λ x. (x.0.now, x.1.now)) result (text_at bytes.now) }
{
    let (len, rest) = read_u32(bytes)?;
    let len = len as usize;
    let left = rest.len();
    if left < len {
        return Err(ReadError::Fault(Fault {
            why: Why::Short,
            left: 0,
        }));
    }
    let (text, rest) = rest.split_at(len);
    let text = read_utf8(text, left)?;
    Ok((text, rest))
}
