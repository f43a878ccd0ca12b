// Components: a header, and sections one after another.
ghost use Rattle.std.specs.Prelude.{◌≡◌, [], length};
ghost use Rattle.wcv_binary.specs.Components.{items_room, whole_at, held_at, section_at, sections_at, component_over, component_within};
ghost use Rattle.wcv_binary.specs.Headers.{component_header_at};
ghost use Rattle.wcv_binary.specs.Items.{entries_at};
ghost use Rattle.wcv_bytes.specs.Reading.{text_at};
ghost use Rattle.wcv_bytes.specs.Sections.{GivesAt, told};
ghost use Rattle.wcv_syntax.specs.View.{section_view, entries};

use crate::entry::read_listed;
use crate::header::read_component_header;
use crate::module::read_core_module;
use std::alloc::Global;
use wcv_bytes::{BinaryError, BinaryFault, Why, count_entries, error_at, read_contents, read_text};
use wcv_syntax::{Item, Section};

/// How many components and declared types may stand in one another, the root not counted.
pub const MAX_NESTING: usize = 127;

// What is behind the header of a component that ends at that offset.
#[tactic(auto, using(wcv_bytes::proofs::Told::fails_told))]
fn read_header(end: u64, bytes: &[u8]) -> Result<&[u8], BinaryError>
    ensures { GivesAt (λ x. x.now) result (told end (component_header_at bytes.now)) }
{
    match read_component_header(bytes) {
        Ok(rest) => Ok(rest),
        Err(error) => Err(error_at(end, error)),
    }
}

// The name of a custom section that ends at that offset, and what is behind it.
#[tactic(auto, using(wcv_bytes::proofs::Told::fails_told))]
fn read_custom(end: u64, bytes: &[u8]) -> Result<(&str, &[u8]), BinaryError>
    ensures { GivesAt (λ x. (x.0.now, x.1.now)) result (told end (text_at bytes.now)) }
{
    match read_text(bytes) {
        Ok(name) => Ok(name),
        Err(error) => Err(error_at(end, error)),
    }
}

// How many bytes may still be kept behind a section of items that ends at that offset.
fn count_items(id: u8, end: u64, room: u64, bytes: &[u8]) -> Result<u64, BinaryError>
    ensures { GivesAt (λ left. left) result (items_room id end room bytes.now) }
{
    if id == 9 {
        return Ok(room);
    }
    count_entries(id == 7, end, room, bytes)
}

// The items of a section that ends at that offset, behind others.
#[tactic(auto, using(wcv_bytes::proofs::Told::fails_told))]
fn read_items(
    alloc: Global,
    depth: usize,
    front: Vec<Item>,
    id: u8,
    end: u64,
    bytes: &[u8],
) -> Result<Vec<Item>, BinaryError>
    ensures { GivesAt (λ x. entries x.items) result (told end (entries_at depth id end (entries front.items) bytes.now)) }
{
    match read_listed(alloc, depth, front, id, end, bytes) {
        Ok(all) => Ok(all),
        Err(error) => Err(error_at(end, error)),
    }
}

/// A component, all of the bytes, in which components and declared types nest at most so deep.
#[cycle(components)]
#[tactic(auto, unfolding(crate::specs::Components::component_over))]
pub fn read_component(
    alloc: Global,
    depth: usize,
    end: u64,
    room: u64,
    bytes: &[u8],
) -> Result<(Vec<Item>, u64), BinaryError>
    ensures { GivesAt (λ x. (entries x.0.items, x.1)) result (component_over depth (component_within depth) end room bytes.now) }
{
    let rest = read_header(end, bytes)?;
    read_sections(alloc, depth, end, room.saturating_sub(8), rest)
}

// A component in a section, in which components and declared types nest at most so deep, itself among them.
#[cycle(components)]
fn read_nested(
    alloc: Global,
    depth: usize,
    end: u64,
    room: u64,
    bytes: &[u8],
) -> Result<(Vec<Item>, u64), BinaryError>
    ensures { GivesAt (λ x. (entries x.0.items, x.1)) result (component_within depth end room bytes.now) }
{
    if depth == 0 {
        return Err(BinaryError::Fault(BinaryFault {
            at: end.saturating_sub(bytes.len() as u64),
            why: Why::TooDeep,
        }));
    }
    read_component(alloc, depth - 1, end, room, bytes)
}

// What a section of one item holds, a core module or else a component.
#[cycle(components)]
#[tactic(auto, using(crate::proofs::Made::core_module_made, crate::proofs::Made::component_made), unfolding(crate::specs::Components::whole_at))]
fn read_whole(
    alloc: Global,
    depth: usize,
    id: u8,
    end: u64,
    room: u64,
    bytes: &[u8],
) -> Result<(Section, u64), BinaryError>
    ensures { GivesAt (λ x. (section_view x.0, x.1)) result (whole_at (component_within depth) id end room bytes.now) }
{
    if id == 1 {
        let (decls, room) = read_core_module(alloc, end, room, bytes)?;
        return Ok((Section::CoreModule(decls), room));
    }
    let (items, room) = read_nested(alloc, depth, end, room, bytes)?;
    Ok((Section::Component { items, end }, room))
}

// The items with those of a section, by its byte, where its contents end at that offset.
#[cycle(components)]
#[tactic(auto, using(crate::proofs::Made::item_made), unfolding(crate::specs::Components::held_at))]
fn read_held(
    alloc: Global,
    depth: usize,
    id: u8,
    end: u64,
    front: Vec<Item>,
    room: u64,
    bytes: &[u8],
) -> Result<(Vec<Item>, u64), BinaryError>
    ensures { GivesAt (λ x. (entries x.0.items, x.1)) result (held_at depth (component_within depth) id end (entries front.items) room bytes.now) }
{
    let offset = end.saturating_sub(bytes.len() as u64);
    if id == 0 {
        let _name = read_custom(end, bytes)?;
        return Ok((front, room));
    }
    if id == 1 || id == 4 {
        let mut all = front;
        all.reserve(1)?;
        let (section, room) = read_whole(alloc, depth, id, end, room, bytes)?;
        all.push_reserved(Item { offset, section });
        return Ok((all, room));
    }
    if id < 12 {
        let room = count_items(id, end, room, bytes)?;
        let all = read_items(alloc, depth, front, id, end, bytes)?;
        return Ok((all, room));
    }
    Err(BinaryError::Fault(BinaryFault {
        at: offset,
        why: Why::UnknownSection,
    }))
}

// A section behind its byte: all items so far, how many bytes may still be kept, and what is behind it.
#[cycle(components)]
#[tactic(auto, unfolding(crate::specs::Components::section_at))]
fn read_section(
    alloc: Global,
    depth: usize,
    id: u8,
    end: u64,
    front: Vec<Item>,
    room: u64,
    bytes: &[u8],
) -> Result<(Vec<Item>, u64, &[u8]), BinaryError>
    ensures { GivesAt (λ x. (entries x.0.items, x.1, x.2.now)) result (section_at depth (component_within depth) id end (entries front.items) room bytes.now) }
{
    let counts = !(id == 0 || id == 1 || id == 4);
    let (contents, behind, room) = read_contents(counts, end, room, bytes)?;
    let section_end = end.saturating_sub(behind.len() as u64);
    let (all, room) = read_held(alloc, depth, id, section_end, front, room, contents)?;
    Ok((all, room, behind))
}

// The items of all sections, to the end of the bytes.
#[cycle(components)]
#[tactic(auto, unfolding(crate::specs::Components::sections_at))]
fn read_sections(
    alloc: Global,
    depth: usize,
    end: u64,
    room: u64,
    bytes: &[u8],
) -> Result<(Vec<Item>, u64), BinaryError>
    ensures { GivesAt (λ x. (entries x.0.items, x.1)) result (sections_at depth (component_within depth) (length bytes.now) end [] room bytes.now) }
{
    let mut all = Vec::new(alloc);
    let mut left = room;
    let mut rest = bytes;
    let mut most = bytes.len();
    while let [id, behind @ ..] = rest {
        if most == 0 {
            return Err(BinaryError::Fault(BinaryFault {
                at: end,
                why: Why::Short,
            }));
        }
        most -= 1;
        let (more, room, after) = read_section(alloc, depth, *id, end, all, left, behind)?;
        all = more;
        left = room;
        rest = after;
    }
    Ok((all, left))
}
