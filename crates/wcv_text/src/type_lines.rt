// The text of a component type, line after line.
ghost use Rattle.std.specs.Prelude.{◌≡◌, ◌+◌, ◌++◌, ◌<◌, [], nat_lt, List, ℕ, All, string_bytes, OnOk, IfOk};
ghost use Rattle.wcv_types.specs.ComponentTrees.{root_tree, ComponentStands};
ghost use Rattle.wcv_types.specs.Text.{nothing_written, type_text};
ghost use Rattle.wcv_types.specs.Tree.{Text};
ghost use Rattle.wcv_text.specs.LineList.{LineStands, entry_word as entry_word_of, path_word as path_word_of, rest_of, say};
ghost use Rattle.wcv_text.specs.Numbers.{Writes, so_far};
ghost use Rattle.wcv_text.specs.TypeLines.{Leads, LinesStand};
ghost use Rattle.wcv_text.specs.declared.numbers.Numbers.{Numbers as AnyNumbers};

use crate::entry_list::push_entry_line;
use crate::line_list::{Line, entries_in, list_lines, paths_in};
use crate::node_lines::push_node;
use crate::numbers::Numbers;
use crate::paths::push_path;
use std::alloc::{AllocError, Global};
use wcv_types::{ComponentType, TypeAlloc};

/// The word before an import or an export.
fn entry_word(exported: bool) -> &'static str
    ensures { result.now ≡ entry_word_of exported }
{
    if exported { "export " } else { "import " }
}

/// The word before an imported or a defined resource.
fn path_word(defined: bool) -> &'static str
    ensures { result.now ≡ path_word_of defined }
{
    if defined { "defined " } else { "imported " }
}

/// Appends a line, behind those of the core groups that it names and that have none yet.
fn push_line(
    text: &mut String,
    numbers: &mut Numbers<'_>,
    types: &TypeAlloc,
    ty: &ComponentType,
    line: Line,
) -> Result<(), AllocError>
    requires line { LineStands types.now line }
    requires entries { ComponentStands types.now ty.now }
    ensures { OnOk result (Writes numbers.old (string_bytes text.old) numbers.new (string_bytes text.new) (say types.now ty.now line)) }
{
    match line {
        Line::Node(part) => push_node(text, numbers, types, part),
        Line::Entry(exported, k) => match entries_in(ty, exported).get_index(k) {
            Some(entry) => push_entry_line(text, numbers, entry_word(exported), entry),
            None => Ok(()),
        },
        Line::Path(defined, k) => match paths_in(ty, defined).get_index(k) {
            Some((resource, place)) => {
                push_path(
                    text,
                    numbers,
                    path_word(defined),
                    *resource,
                    place.positions(),
                )
            }
            None => Ok(()),
        },
    }
}

/// Lists the lines of a component type, of which none is listed yet.
fn list_all(
    alloc: Global,
    lines: &mut Vec<Line>,
    types: &TypeAlloc,
    ty: &ComponentType,
) -> Result<(), AllocError>
    requires stands { ComponentStands types.now ty.now }
    requires none { lines.old.items ≡ [] }
    ensures stand { OnOk result (All (LineStands types.now) lines.new.items) }
    ensures whole { OnOk result ((numbers : AnyNumbers) → so_far numbers [] ≡ nothing_written types.now.core → type_text types.now.core (root_tree types.now ty.now) ≡ (rest_of types.now ty.now lines.new.items 0 (so_far numbers [])).text) }
{
    let mut seen = Numbers::new(alloc, types.core_types());
    list_lines(lines, &mut seen, types, ty)
}

/// The lines of a component type that are still to be written. Beside them it keeps the numbers that
/// were given, and no text.
#[derive(Drop)]
pub struct TypeLines<'a> {
    types: &'a TypeAlloc,
    ty: &'a ComponentType,
    numbers: Numbers<'a>,
    lines: Vec<Line>,
    at: usize,
}

impl<'a> TypeLines<'a> {
    ghost use Rattle.wcv_text.specs.TypeLines.{Leads, LinesStand, lines_left};

    /// All lines of the type.
    pub fn new(
        alloc: Global,
        types: &'a TypeAlloc,
        ty: &'a ComponentType,
    ) -> Result<TypeLines<'a>, AllocError>
        requires { ComponentStands types.now ty.now }
        ensures stand { IfOk result LinesStand }
        ensures leads { IfOk result (λ lines. (before : List ℕ) → Leads lines before (before ++ type_text types.now.core (root_tree types.now ty.now))) }
    {
        let mut lines = Vec::new(alloc);
        list_all(alloc, &mut lines, types, ty)?;
        Ok(TypeLines {
            types,
            ty,
            numbers: Numbers::new(alloc, types.core_types()),
            lines,
            at: 0,
        })
    }

    /// Whether a line is left.
    pub fn is_left(&self) -> bool
        ensures { result ≡ nat_lt 0 (lines_left self.now) }
    {
        self.at < self.lines.len()
    }

    /// Appends the next line. Together with what was said before it leads to the same whole text.
    pub fn push_next(&mut self, text: &mut String) -> Result<(), AllocError>
        requires left { 0 < lines_left self.old }
        requires stand { LinesStand self.old }
        ensures stand { OnOk result (LinesStand self.new) }
        ensures leads { OnOk result ((sent whole : List ℕ) → Leads self.old (sent ++ string_bytes text.old) whole → Leads self.new (sent ++ string_bytes text.new) whole) }
        ensures fewer { OnOk result (lines_left self.new + 1 ≡ lines_left self.old) }
    {
        let line = self.lines[self.at];
        push_line(text, &mut self.numbers, self.types, self.ty, line)?;
        self.at += 1;
        Ok(())
    }
}

/// Appends the lines that are left.
fn push_left(lines: &mut TypeLines<'_>, text: &mut String) -> Result<(), AllocError>
    requires { LinesStand lines.old }
    ensures { OnOk result ((whole : Text) → Leads lines.old (string_bytes text.old) whole → string_bytes text.new ≡ whole) }
{
    while lines.is_left() {
        lines.push_next(text)?;
    }
    Ok(())
}

/// Appends the text of a component type.
pub fn push_type(
    alloc: Global,
    text: &mut String,
    types: &TypeAlloc,
    ty: &ComponentType,
) -> Result<(), AllocError>
    requires { ComponentStands types.now ty.now }
    ensures { OnOk result (string_bytes text.new ≡ string_bytes text.old ++ type_text types.now.core (root_tree types.now ty.now)) }
{
    let mut lines = TypeLines::new(alloc, types, ty)?;
    push_left(&mut lines, text)
}
