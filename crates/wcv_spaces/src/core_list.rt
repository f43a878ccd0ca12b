// The space of core types.
ghost use Rattle.std.specs.Prelude.{◌≡◌, ◌+◌, ◌<◌, ◌^◌, [], ◌∷◌, ◌++◌, length, OnOk, OnErr};

use std::alloc::Global;
use std::marker::Model;
use wcv_core::OutOfMemory;
use wcv_types::ComponentCoreTypeId;

/// Core types and types of core modules, in order, and how many there are, which an index can count. Contracts
/// see it as the list of them.
#[derive(Drop)]
pub struct CoreTypeList {
    ids: Vec<ComponentCoreTypeId>,
    count: u32,
}

impl Model for CoreTypeList {
    ghost use Rattle.std.specs.Prelude.{List};
    ghost use Rattle.wcv_types.specs.declared.ids.ComponentCoreTypeId.{ComponentCoreTypeId};

    ghost Value = { List ComponentCoreTypeId };

    ghost use Rattle.std.specs.Prelude.{length, ◌≡◌};

    ghost view = { λ s. s.ids.items };

    ghost invariant = { λ s. s.count ≡ length s.ids.items };
}

impl CoreTypeList {
    /// No type.
    pub fn new(alloc: Global) -> CoreTypeList
        ensures { result ≡ [] }
    {
        CoreTypeList {
            ids: Vec::new(alloc),
            count: 0,
        }
    }

    /// One more type, behind all others, where 32 bits count it.
    pub fn push(&mut self, ty: ComponentCoreTypeId) -> Result<(), OutOfMemory>
        requires room { length self.old + 1 < 2 ^ 32 }
        ensures ok { OnOk result (self.new ≡ self.old ++ ty ∷ []) }
        ensures err { OnErr result (self.new ≡ self.old) }
    {
        self.ids.push(ty)?;
        self.count += 1;
        Ok(())
    }

    /// How many there are.
    pub fn len(&self) -> u32
        ensures { result ≡ length self.now }
    {
        self.count
    }

    /// All of them, lent.
    pub fn as_slice(&self) -> &[ComponentCoreTypeId]
        ensures { result.now ≡ self.now }
    {
        self.ids.as_slice()
    }
}
