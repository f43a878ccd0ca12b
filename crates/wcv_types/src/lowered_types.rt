// Lists of flat types.
ghost use Rattle.std.specs.Prelude.{◌≤◌};

use crate::flat_type::{FlatType, either};

/// The most flat types that a list keeps: one more than the most that are passed one by one.
const MAX_LOWERED_TYPES: usize = 17;

/// The first 17 flat types of a type. Contracts see their list by `listed`.
#[derive(Clone, Copy)]
pub struct LoweredTypes {
    types: [FlatType; MAX_LOWERED_TYPES],
    len: u8,
    ghost within: { len ≤ 17 },
}

impl LoweredTypes {
    ghost use Rattle.std.specs.Prelude.{◌≡◌, [], ◌∷◌, ◌++◌, length, take, slice_get, true, false, ◌<◌};
    ghost use Rattle.wcv_types.specs.Flat as spec;
    ghost use Rattle.wcv_types.specs.Open.{open_join, listed};

    /// No types.
    pub fn new() -> LoweredTypes
        ensures { listed result ≡ [] }
    {
        LoweredTypes {
            types: [FlatType::I32; MAX_LOWERED_TYPES],
            len: 0,
        }
    }

    /// One type.
    pub fn of(ty: FlatType) -> LoweredTypes
        ensures { listed result ≡ ty ∷ [] }
    {
        let mut list = LoweredTypes::new();
        list.push(ty);
        list
    }

    /// How many are kept.
    pub fn len(&self) -> usize
        ensures len { result ≡ length (listed self.now) }
        ensures within { length (listed self.now) ≤ 17 }
    {
        self.len as usize
    }

    /// The k-th of them.
    pub fn get(&self, k: usize) -> Option<FlatType>
        ensures { result ≡ slice_get (listed self.now) k }
    {
        if k < self.len as usize {
            return Some(self.types[k]);
        }
        None
    }

    /// One more type, which is kept where it is among the first.
    fn push(&mut self, ty: FlatType)
        ensures { listed self.new ≡ take 17 (listed self.old ++ ty ∷ []) }
    {
        if (self.len as usize) < MAX_LOWERED_TYPES {
            self.types[self.len as usize] = ty;
            self.len += 1;
        }
    }

    /// Other types behind these.
    pub fn append(&mut self, other: &LoweredTypes)
        ensures { listed self.new ≡ take 17 (listed self.old ++ listed other.now) }
    {
        for k in 0..other.len as usize {
            self.push(other.types[k]);
        }
    }

    /// These types and others, joined position by position.
    pub(crate) fn joined(&self, other: &LoweredTypes) -> LoweredTypes
        ensures { listed result ≡ spec.joined open_join (listed self.now) (listed other.now) }
    {
        let mut list = LoweredTypes::new();
        for k in 0..MAX_LOWERED_TYPES {
            match either(self.get(k), other.get(k)) {
                Some(ty) => list.push(ty),
                None => return list,
            }
        }
        list
    }

    /// Whether no more are kept.
    pub fn is_full(&self) -> bool
        ensures full { result ≡ true → length (listed self.now) ≡ 17 }
        ensures room { result ≡ false → length (listed self.now) < 17 }
    {
        self.len as usize == MAX_LOWERED_TYPES
    }

    /// These types so many times, one behind another.
    pub(crate) fn repeated(&self, times: u32) -> LoweredTypes
        ensures { listed result ≡ take 17 (spec.repeated times (listed self.now)) }
    {
        let mut list = LoweredTypes::new();
        if self.len == 0 {
            return list;
        }
        for k in 0..times {
            if list.is_full() {
                return list;
            }
            list.append(self);
        }
        list
    }
}
