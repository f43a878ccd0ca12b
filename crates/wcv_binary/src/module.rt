// Core modules, with their faults at their offsets in the file.
ghost use Rattle.std.specs.Prelude.{◌≡◌, ◌-◌, length, map};
ghost use Rattle.wcv_binary.specs.Headers.{module_header_at};
ghost use Rattle.wcv_binary.specs.ModuleSections.{no_sections};
ghost use Rattle.wcv_binary.specs.ModuleViews.{module_form};
ghost use Rattle.wcv_binary.specs.Modules.{module_room, module_section_at, module_sections_at, core_module_at};
ghost use Rattle.wcv_bytes.specs.Sections.{GivesAt, told};
ghost use Rattle.wcv_syntax.specs.View.{code_decl_view};

use crate::header::read_module_header;
use crate::module_section::{Module, keeps};
use std::alloc::Global;
use wcv_bytes::{BinaryError, BinaryFault, Why, count_entries, error_at, read_contents};
use wcv_syntax::ModuleDecl;

// What stands behind the header.
#[tactic(auto, using(wcv_bytes::proofs::Told::fails_told))]
fn skip_header(end: u64, bytes: &[u8]) -> Result<&[u8], BinaryError>
    ensures { GivesAt (λ x. x.now) result (told end (module_header_at bytes.now)) }
{
    match read_module_header(bytes) {
        Ok(rest) => Ok(rest),
        Err(error) => Err(error_at(end, error)),
    }
}

// How many bytes may still be kept behind a section that ends at that offset.
fn count_kept(id: u8, end: u64, room: u64, bytes: &[u8]) -> Result<u64, BinaryError>
    ensures { GivesAt (λ left. left) result (module_room id end room bytes.now) }
{
    if !keeps(id) {
        return Ok(room);
    }
    count_entries(false, end, room, bytes)
}

// A section, from its size on: what is left behind it, and how many bytes may still be kept.
#[tactic(auto, using(wcv_bytes::proofs::Told::fails_told), unfolding(crate::specs::Modules::module_section_at))]
fn read_section<'a>(
    alloc: Global,
    module: &mut Module,
    id: u8,
    end: u64,
    room: u64,
    bytes: &'a [u8],
) -> Result<(&'a [u8], u64), BinaryError>
    ensures { GivesAt (λ x. (module_form «module».new, x.0.now, x.1)) result (module_section_at id end room (module_form «module».old) bytes.now) }
{
    let (contents, rest, room) = read_contents(keeps(id), end, room, bytes)?;
    let contents_end = end.saturating_sub(rest.len() as u64);
    if let Err(error) = module.read_section(alloc, id, contents) {
        return Err(error_at(contents_end, error));
    }
    let room = count_kept(id, contents_end, room, contents)?;
    Ok((rest, room))
}

// All sections, and how many bytes may still be kept behind them.
#[tactic(auto, unfolding(crate::specs::Modules::module_sections_at))]
fn read_sections(
    alloc: Global,
    module: &mut Module,
    end: u64,
    room: u64,
    bytes: &[u8],
) -> Result<u64, BinaryError>
    ensures { GivesAt (λ left. (module_form «module».new, left)) result (module_sections_at (length bytes.now) end room (module_form «module».old) bytes.now) }
{
    let mut left = room;
    let mut rest = bytes;
    let mut most = bytes.len();
    while let [id, behind @ ..] = rest {
        if most == 0 {
            return Err(BinaryError::Fault(BinaryFault {
                at: end,
                why: Why::Short,
            }));
        }
        most -= 1;
        let (after, room) = read_section(alloc, module, *id, end, left, behind)?;
        left = room;
        rest = after;
    }
    Ok(left)
}

/// What a core module declares that takes all the bytes, as the core specification's binary format has it: its types,
/// its imports, and its exports with what they name. The bytes end at that offset, and `room` more may be kept; how
/// many may be kept behind the module is given, too.
#[tactic(auto, unfolding(crate::specs::Modules::core_module_at))]
pub fn read_core_module(
    alloc: Global,
    end: u64,
    room: u64,
    bytes: &[u8],
) -> Result<(Vec<ModuleDecl>, u64), BinaryError>
    ensures { GivesAt (λ x. (map code_decl_view x.0.items, x.1)) result (core_module_at end room bytes.now) }
{
    let rest = skip_header(end, bytes)?;
    let mut module = Module::new(alloc);
    let room = read_sections(alloc, &mut module, end, room.saturating_sub(8), rest)?;
    if module.bodies as usize != module.functions.len() {
        return Err(BinaryError::Fault(BinaryFault {
            at: end,
            why: Why::CodeCount,
        }));
    }
    let decls = module.declarations(alloc)?;
    Ok((decls, room))
}
