// Lists of things of one kind.
ghost use Rattle.std.specs.Prelude.{◌≡◌, map};
ghost use Rattle.wcv_bytes.specs.Reading.{Gives, list_at, vec_at};

use std::alloc::Global;
use wcv_bytes::{ReadError, read_text, read_u32, room_of};
use wcv_core::Text;

/// What bytes can stand for.
pub trait FromBytes: Drop {
    ghost use Rattle.std.specs.Prelude.{ℕ, List, Result};
    ghost use Rattle.wcv_bytes.specs.declared.fault.Fault.{Fault};
    ghost use Rattle.wcv_bytes.specs.Reading.{Gives};

    // What contracts see of it: the thing itself, where an impl does not say otherwise.
    ghost Form: { Type 0 } = { Self };

    ghost seen: { Self → Form };

    // What bytes stand for, and what is left behind.
    ghost meant: { List ℕ → Result (Form × List ℕ) Fault };

    /// The thing at the front.
    fn from_bytes(alloc: Global, bytes: &[u8]) -> Result<(Self, &[u8]), ReadError>
        ensures { Gives (λ x. (seen x.0, x.1.now)) result (meant bytes.now) };
}

// So many of them, one after another.
fn read_many<T: FromBytes>(
    alloc: Global,
    count: u32,
    bytes: &[u8],
) -> Result<(Vec<T>, &[u8]), ReadError>
    ensures { Gives (λ x. (map T.seen x.0.items, x.1.now)) result (list_at T.meant count bytes.now) }
{
    let mut things = Vec::with_capacity(alloc, room_of(count, bytes))?;
    let mut rest = bytes;
    for _ in 0..count {
        things.reserve(1)?;
        let (thing, after) = T::from_bytes(alloc, rest)?;
        things.push_reserved(thing);
        rest = after;
    }
    Ok((things, rest))
}

/// A count, and so many of them.
#[tactic(auto, unfolding(wcv_bytes::specs::Reading::vec_at))]
pub fn read_vec<T: FromBytes>(alloc: Global, bytes: &[u8]) -> Result<(Vec<T>, &[u8]), ReadError>
    ensures { Gives (λ x. (map T.seen x.0.items, x.1.now)) result (vec_at T.meant bytes.now) }
{
    let (count, rest) = read_u32(bytes)?;
    read_many(alloc, count, rest)
}

impl FromBytes for u32 {
    ghost use Rattle.wcv_bytes.specs.Reading.{u32_at};

    ghost seen = { λ n. n };

    ghost meant = { u32_at };

    fn from_bytes(_alloc: Global, bytes: &[u8]) -> Result<(u32, &[u8]), ReadError> {
        read_u32(bytes)
    }
}

impl FromBytes for Text {
    ghost use Rattle.wcv_bytes.specs.Reading.{text_at};

    ghost seen = { λ t. t };

    ghost meant = { text_at };

    fn from_bytes(alloc: Global, bytes: &[u8]) -> Result<(Text, &[u8]), ReadError> {
        let (text, rest) = read_text(bytes)?;
        let text = Text::new(alloc, text)?;
        Ok((text, rest))
    }
}
