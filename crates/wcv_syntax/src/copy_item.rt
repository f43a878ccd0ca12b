// Equal items.
ghost use Rattle.std.specs.Prelude.{◌≡◌, IfOk};
ghost use Rattle.wcv_syntax.specs.View.{item_view, section_view, entries};

use crate::canonical::copy_canon;
use crate::copy_core::{copy_core_instance, copy_core_type, copy_module};
use crate::copy_name::copy_instance;
use crate::copy_text::CopyIn;
use crate::copy_type::copy_type;
use crate::item::{Item, Section};
use std::alloc::Global;
use wcv_core::OutOfMemory;

impl Item {
    /// An equal item: it stands for the same entry, at every depth.
    #[cycle(copy_item)]
    pub fn copy(&self, alloc: Global) -> Result<Item, OutOfMemory>
        ensures { IfOk result (λ copied. item_view copied ≡ item_view self.now) }
    {
        let section = copy_section(alloc, &self.section)?;
        Ok(Item {
            offset: self.offset,
            section,
        })
    }
}

/// What an equal item has.
#[cycle(copy_item)]
fn copy_section(alloc: Global, section: &Section) -> Result<Section, OutOfMemory>
    ensures { IfOk result (λ copied. section_view copied ≡ section_view section.now) }
{
    match section {
        Section::CoreType(ty) => Ok(Section::CoreType(copy_core_type(alloc, ty)?)),
        Section::CoreModule(decls) => Ok(Section::CoreModule(copy_module(alloc, decls)?)),
        Section::CoreInstance(instance) => {
            Ok(Section::CoreInstance(copy_core_instance(alloc, instance)?))
        }
        Section::Ty(ty) => Ok(Section::Ty(copy_type(alloc, ty)?)),
        Section::Import(import) => Ok(Section::Import(import.copy_in(alloc)?)),
        Section::Export(export) => Ok(Section::Export(export.copy_in(alloc)?)),
        Section::Component { items, end } => {
            let items = copy_items(alloc, items)?;
            Ok(Section::Component { items, end: *end })
        }
        Section::Instance(instance) => Ok(Section::Instance(copy_instance(alloc, instance)?)),
        Section::Alias(alias) => Ok(Section::Alias(alias.copy_in(alloc)?)),
        Section::Start {
            func_index,
            args,
            results,
        } => {
            let args = Vec::from_slice(alloc, args)?;
            let (func_index, results) = (*func_index, *results);
            Ok(Section::Start {
                func_index,
                args,
                results,
            })
        }
        Section::Canon(canon) => Ok(Section::Canon(copy_canon(alloc, canon)?)),
    }
}

/// Equal items, in order.
#[cycle(copy_item)]
fn copy_items(alloc: Global, items: &Vec<Item>) -> Result<Vec<Item>, OutOfMemory>
    ensures { IfOk result (λ copied. entries copied.items ≡ entries items.now.items) }
{
    let mut copied = Vec::new(alloc);
    for item in items {
        copied.push(item.copy(alloc)?)?;
    }
    Ok(copied)
}
