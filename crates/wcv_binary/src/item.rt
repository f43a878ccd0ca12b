// What the items of sections hold.
ghost use Rattle.std.specs.Prelude.{◌≡◌};
ghost use Rattle.wcv_binary.specs.Aliases.{alias_at};
ghost use Rattle.wcv_binary.specs.Canons.{canon_at};
ghost use Rattle.wcv_binary.specs.CoreInstances.{core_instance_at};
ghost use Rattle.wcv_binary.specs.Items.{start_at, form_at};
ghost use Rattle.wcv_binary.specs.ModuleTypes.{core_type_at};
ghost use Rattle.wcv_binary.specs.Names.{import_at, export_at, instance_at};
ghost use Rattle.wcv_bytes.specs.Reading.{Gives, of_one};
ghost use Rattle.wcv_binary.specs.Types.{type_over, type_within};
ghost use Rattle.wcv_syntax.specs.Model.{core_instance_item, core_type_item, instance_item, alias_item, type_item, canon_item, import_item, export_item};
ghost use Rattle.wcv_syntax.specs.View.{section_view};

use crate::alias::read_alias;
use crate::canon::read_canon;
use crate::core_instance::read_core_instance;
use crate::instance::read_instance;
use crate::list::read_vec;
use crate::module_type::read_core_type;
use crate::name::{read_export, read_import};
use crate::types::read_type_over;
use std::alloc::Global;
use wcv_bytes::{ReadEntry, ReadError, read_u32};
use wcv_syntax::{Item, Section};

// What the item of a core instance holds.
#[tactic(auto, using(crate::proofs::Made::core_instance_made))]
fn read_core_instance_item(alloc: Global, bytes: &[u8]) -> Result<(Section, &[u8]), ReadError>
    ensures { Gives (λ x. (section_view x.0, x.1.now)) result (of_one core_instance_at core_instance_item bytes.now) }
{
    let (instance, rest) = read_core_instance(alloc, bytes)?;
    Ok((Section::CoreInstance(instance), rest))
}

// What the item of core types holds.
#[tactic(auto, using(crate::proofs::Made::core_type_made))]
fn read_core_type_item(alloc: Global, bytes: &[u8]) -> Result<(Section, &[u8]), ReadError>
    ensures { Gives (λ x. (section_view x.0, x.1.now)) result (of_one core_type_at core_type_item bytes.now) }
{
    let (ty, rest) = read_core_type(alloc, bytes)?;
    Ok((Section::CoreType(ty), rest))
}

// What the item of an instance holds.
#[tactic(auto, using(crate::proofs::Made::instance_made))]
fn read_instance_item(alloc: Global, bytes: &[u8]) -> Result<(Section, &[u8]), ReadError>
    ensures { Gives (λ x. (section_view x.0, x.1.now)) result (of_one instance_at instance_item bytes.now) }
{
    let (instance, rest) = read_instance(alloc, bytes)?;
    Ok((Section::Instance(instance), rest))
}

// What the item of an alias holds.
#[tactic(auto, using(crate::proofs::Made::alias_made))]
fn read_alias_item(alloc: Global, bytes: &[u8]) -> Result<(Section, &[u8]), ReadError>
    ensures { Gives (λ x. (section_view x.0, x.1.now)) result (of_one alias_at alias_item bytes.now) }
{
    let (alias, rest) = read_alias(alloc, bytes)?;
    Ok((Section::Alias(alias), rest))
}

// What the item of a type holds, in which types nest at most so deep.
#[tactic(auto, using(crate::proofs::Made::type_made))]
fn read_type_item(alloc: Global, depth: usize, bytes: &[u8]) -> Result<(Section, &[u8]), ReadError>
    ensures { Gives (λ x. (section_view x.0, x.1.now)) result (of_one (type_over (type_within depth)) type_item bytes.now) }
{
    let (ty, rest) = read_type_over(alloc, depth, bytes)?;
    Ok((Section::Ty(ty), rest))
}

// What the item of a canonical function holds.
#[tactic(auto, using(crate::proofs::Made::canon_made))]
fn read_canon_item(alloc: Global, bytes: &[u8]) -> Result<(Section, &[u8]), ReadError>
    ensures { Gives (λ x. (section_view x.0, x.1.now)) result (of_one canon_at canon_item bytes.now) }
{
    let (func, rest) = read_canon(alloc, bytes)?;
    Ok((Section::Canon(func), rest))
}

// A function, its arguments, and how many results it has.
#[tactic(auto, using(crate::proofs::Made::start_made), unfolding(crate::specs::Items::start_at))]
fn read_start(alloc: Global, bytes: &[u8]) -> Result<(Section, &[u8]), ReadError>
    ensures { Gives (λ x. (section_view x.0, x.1.now)) result (start_at bytes.now) }
{
    let (func_index, rest) = read_u32(bytes)?;
    let (args, rest) = read_vec(alloc, rest)?;
    let (results, rest) = read_u32(rest)?;
    Ok((
        Section::Start {
            func_index,
            args,
            results,
        },
        rest,
    ))
}

// What an import holds.
#[tactic(auto, using(crate::proofs::Made::import_made))]
fn read_import_item(alloc: Global, bytes: &[u8]) -> Result<(Section, &[u8]), ReadError>
    ensures { Gives (λ x. (section_view x.0, x.1.now)) result (of_one import_at import_item bytes.now) }
{
    let (import, rest) = read_import(alloc, bytes)?;
    Ok((Section::Import(import), rest))
}

// What an export holds.
#[tactic(auto, using(crate::proofs::Made::export_made))]
fn read_export_item(alloc: Global, bytes: &[u8]) -> Result<(Section, &[u8]), ReadError>
    ensures { Gives (λ x. (section_view x.0, x.1.now)) result (of_one export_at export_item bytes.now) }
{
    let (export, rest) = read_export(alloc, bytes)?;
    Ok((Section::Export(export), rest))
}

// What an item holds, in a section of this byte that is known to hold items. Types nest in it at most so deep.
#[tactic(auto, unfolding(crate::specs::Items::form_at))]
fn read_form(
    alloc: Global,
    depth: usize,
    id: u8,
    bytes: &[u8],
) -> Result<(Section, &[u8]), ReadError>
    ensures { Gives (λ x. (section_view x.0, x.1.now)) result (form_at depth id bytes.now) }
{
    match id {
        2 => read_core_instance_item(alloc, bytes),
        3 => read_core_type_item(alloc, bytes),
        5 => read_instance_item(alloc, bytes),
        6 => read_alias_item(alloc, bytes),
        7 => read_type_item(alloc, depth, bytes),
        8 => read_canon_item(alloc, bytes),
        9 => read_start(alloc, bytes),
        10 => read_import_item(alloc, bytes),
        _ => read_export_item(alloc, bytes),
    }
}

/// The items of a section of this byte, which is known to hold items. Types nest in them at most so deep.
#[derive(Drop)]
pub struct Items {
    pub depth: usize,
    pub id: u8,
}

impl ReadEntry for Items {
    ghost use Rattle.wcv_binary.specs.Items.{placed_at};
    ghost use Rattle.wcv_syntax.specs.Model.{Entry};
    ghost use Rattle.wcv_syntax.specs.View.{item_view};

    type Entry = Item;

    ghost Form = { Entry };

    ghost seen = { item_view };

    ghost meant = { λ items. placed_at items.depth items.id };

    #[tactic(auto, using(crate::proofs::Made::item_made))]
    fn read_entry<'a>(
        &self,
        alloc: Global,
        offset: u64,
        bytes: &'a [u8],
    ) -> Result<(Item, &'a [u8]), ReadError> {
        let (section, rest) = read_form(alloc, self.depth, self.id, bytes)?;
        Ok((Item { offset, section }, rest))
    }
}
