// Equal texts, and equal lists of what has texts.
ghost use Rattle.std.specs.Prelude.{◌≡◌, IfOk};

use crate::component_type::{ComponentValType, VariantCase};
use std::alloc::Global;
use wcv_core::{OutOfMemory, Text};

/// What owns texts and no list, so that an equal one is the same value.
pub(crate) trait CopyIn: Drop {
    ghost use Rattle.std.specs.Prelude.{◌≡◌, IfOk};

    /// An equal one.
    fn copy_in(&self, alloc: Global) -> Result<Self, OutOfMemory>
        ensures { IfOk result (λ copied. copied ≡ self.now) };
}

/// An equal list.
pub(crate) fn copy_list<T: CopyIn>(alloc: Global, items: &[T]) -> Result<Vec<T>, OutOfMemory>
    ensures { IfOk result (λ copied. copied.items ≡ items.now) }
{
    let mut copied = Vec::new(alloc);
    for item in items {
        copied.push(item.copy_in(alloc)?)?;
    }
    Ok(copied)
}

impl CopyIn for Text {
    fn copy_in(&self, alloc: Global) -> Result<Text, OutOfMemory> {
        Text::new(alloc, self.as_str())
    }
}

/// An equal text, where there is one.
pub(crate) fn copy_option(alloc: Global, text: &Option<Text>) -> Result<Option<Text>, OutOfMemory>
    ensures { IfOk result (λ copied. copied ≡ text.now) }
{
    match text {
        None => Ok(None),
        Some(text) => Ok(Some(text.copy_in(alloc)?)),
    }
}

impl CopyIn for (Text, ComponentValType) {
    fn copy_in(&self, alloc: Global) -> Result<(Text, ComponentValType), OutOfMemory> {
        Ok((self.0.copy_in(alloc)?, self.1))
    }
}

impl CopyIn for VariantCase {
    fn copy_in(&self, alloc: Global) -> Result<VariantCase, OutOfMemory> {
        let name = self.name.copy_in(alloc)?;
        Ok(VariantCase { name, ty: self.ty })
    }
}
