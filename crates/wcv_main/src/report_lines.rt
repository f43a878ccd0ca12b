// The report of a valid root, which goes out as it is made.
ghost use Rattle.std.specs.Prelude.{◌≡◌, ◌++◌, List, ℕ, string_bytes, OnOk, OnErr};
ghost use Rattle.std.specs.Io.KnownBytes.{Appends};
ghost use Rattle.wcv_core.specs.declared.features.WasmFeatures.{WasmFeatures};
ghost use Rattle.wcv_syntax.specs.Model.{Items};
ghost use Rattle.wcv_types.specs.Text.{type_text};
ghost use Rattle.wcv_types.specs.ComponentTrees.{root_tree};
ghost use Rattle.wcv_text.specs.TypeLines.{Leads, LinesStand};
ghost use Rattle.wcv_link.specs.Accepts.{Accepts};
ghost use Rattle.wcv_main.specs.Faults.{HasCause};
ghost use Rattle.wcv_main.specs.Pump.{AppendsPrefix, Goes};
ghost use Rattle.wcv_main.specs.Report.{report, space_lengths as lengths_of_spaces};

use crate::ends::{Failed, Sink};
use crate::pump::{WriteError, write_all};
use crate::report::push_report;
use std::alloc::Global;
use wcv_link::Accepted;
use wcv_state::{ComponentState, Space};
use wcv_text::TypeLines;

// How long the text grows, by its lines so far, before it goes out.
const CHUNK: usize = 65_536;

/// The lengths of the thirteen index spaces.
pub fn space_lengths(state: &ComponentState) -> [u64; 13]
    ensures { result ≡ lengths_of_spaces state.now.spaces }
{
    [
        state.space_len(Space::CoreTypes) as u64,
        state.space_len(Space::CoreFuncs) as u64,
        state.space_len(Space::CoreTags) as u64,
        state.space_len(Space::CoreModules) as u64,
        state.space_len(Space::CoreInstances) as u64,
        state.space_len(Space::CoreMemories) as u64,
        state.space_len(Space::CoreTables) as u64,
        state.space_len(Space::CoreGlobals) as u64,
        state.space_len(Space::Types) as u64,
        state.space_len(Space::Funcs) as u64,
        state.space_len(Space::Values) as u64,
        state.space_len(Space::Instances) as u64,
        state.space_len(Space::Components) as u64,
    ]
}

/// Writes the text where it is long, and empties it.
fn hand_on<K: Sink>(sink: &mut K, text: &mut String) -> Result<(), Failed>
    ensures handed { OnOk result ((sent : List ℕ) × Appends (K.taken sink.old) (K.taken sink.new) sent × (string_bytes text.old ≡ sent ++ string_bytes text.new)) }
    ensures prefix { OnErr result (AppendsPrefix (K.taken sink.old) (K.taken sink.new) (string_bytes text.old)) }
    ensures cause { HasCause (K.faults sink.old) (K.faults sink.new) result }
{
    if text.len() < CHUNK {
        return Ok(());
    }
    write_all(sink, text.as_bytes())?;
    text.clear();
    Ok(())
}

/// Writes the text, and behind it the lines that are left. Each line joins the text, which goes out
/// whenever it is long, so that it holds no more than its last lines.
fn write_lines<K: Sink>(
    sink: &mut K,
    text: &mut String,
    lines: &mut TypeLines<'_>,
) -> Result<(), WriteError>
    requires { LinesStand lines.old }
    ensures { (whole : List ℕ) → Leads lines.old (string_bytes text.old) whole → Goes result (K.taken sink.old) (K.taken sink.new) whole (K.faults sink.old) (K.faults sink.new) }
{
    while lines.is_left() {
        lines.push_next(text)?;
        hand_on(sink, text)?;
    }
    write_all(sink, text.as_bytes())?;
    Ok(())
}

/// Writes the report of a valid root.
pub fn write_report<K: Sink>(
    alloc: Global,
    sink: &mut K,
    accepted: &Accepted,
) -> Result<(), WriteError>
    requires { (features : WasmFeatures) × ((is : Items) × Accepts features is accepted.now) }
    ensures { Goes result (K.taken sink.old) (K.taken sink.new) (report (lengths_of_spaces accepted.now.state.spaces) ++ type_text accepted.now.types.core (root_tree accepted.now.types accepted.now.ty)) (K.faults sink.old) (K.faults sink.new) }
{
    let mut text = String::new(alloc);
    push_report(&mut text, &space_lengths(&accepted.state))?;
    let mut lines = TypeLines::new(alloc, &accepted.types, &accepted.ty)?;
    write_lines(sink, &mut text, &mut lines)
}
