// Indices and how they are written.
ghost use Rattle.std.specs.Prelude.{◌++◌, ◌≡◌, OnOk};
ghost use Rattle.wcv_write.specs.Json.{tokens_of};

use crate::output::Output;
use std::alloc::AllocError;

/// An index space.
#[derive(Clone, Copy, Debug, PartialEq, Eq)]
pub enum Space {
    CoreFunc,
    CoreTable,
    CoreMemory,
    CoreGlobal,
    CoreTag,
    CoreType,
    CoreModule,
    CoreInstance,
    Func,
    Value,
    Ty,
    Instance,
    Component,
}

/// How indices are written.
pub trait Indices {
    ghost use Rattle.std.specs.Prelude.{◌++◌, ◌≡◌, OnOk};
    ghost use Rattle.wcv_write.specs.Indices.{Indexing};
    ghost use Rattle.wcv_write.specs.Json.{tokens_of};

    ghost written: { Self → Indexing };

    /// Writes an index of a space.
    fn write(&self, out: &mut Output, space: Space, index: u32) -> Result<(), AllocError>
        ensures { OnOk result (out.new ≡ out.old ++ tokens_of (written self.now space index)) };
}

/// An index is written as it is.
#[derive(Clone, Copy)]
pub struct Numbers;

impl Indices for Numbers {
    ghost use Rattle.wcv_write.specs.Indices.{numbers};

    ghost written = { λ _. numbers };

    fn write(&self, out: &mut Output, _space: Space, index: u32) -> Result<(), AllocError> {
        out.count(index as u64)
    }
}
