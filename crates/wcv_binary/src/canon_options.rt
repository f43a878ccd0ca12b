// Options of canonical functions.
use crate::list::FromBytes;
use std::alloc::Global;
use wcv_bytes::{Fault, ReadError, Why, read_u32};
use wcv_syntax::CanonicalOption;

impl FromBytes for CanonicalOption {
    ghost use Rattle.wcv_binary.specs.Canons.{option_at};

    ghost seen = { λ option. option };

    ghost meant = { option_at };

    #[tactic(auto, unfolding(crate::specs::Canons::option_at))]
    fn from_bytes(_alloc: Global, bytes: &[u8]) -> Result<(CanonicalOption, &[u8]), ReadError> {
        match bytes {
            [] => Err(ReadError::Fault(Fault {
                why: Why::Short,
                left: 0,
            })),
            [0, rest @ ..] => Ok((CanonicalOption::UTF8, rest)),
            [1, rest @ ..] => Ok((CanonicalOption::UTF16, rest)),
            [2, rest @ ..] => Ok((CanonicalOption::CompactUTF16, rest)),
            [3, rest @ ..] => {
                let (index, rest) = read_u32(rest)?;
                Ok((CanonicalOption::Memory(index), rest))
            }
            [4, rest @ ..] => {
                let (index, rest) = read_u32(rest)?;
                Ok((CanonicalOption::Realloc(index), rest))
            }
            [5, rest @ ..] => {
                let (index, rest) = read_u32(rest)?;
                Ok((CanonicalOption::PostReturn(index), rest))
            }
            [6, rest @ ..] => Ok((CanonicalOption::Async, rest)),
            [7, rest @ ..] => {
                let (index, rest) = read_u32(rest)?;
                Ok((CanonicalOption::Callback(index), rest))
            }
            [8, rest @ ..] => {
                let (index, rest) = read_u32(rest)?;
                Ok((CanonicalOption::CoreType(index), rest))
            }
            [9, rest @ ..] => Ok((CanonicalOption::Gc, rest)),
            [_, ..] => Err(ReadError::Fault(Fault {
                why: Why::NotOption,
                left: bytes.len(),
            })),
        }
    }
}
