// The lines of instances and components.
ghost use Rattle.std.specs.Prelude.{◌≡◌, ◌++◌, [], map, codes, string_bytes, OnOk};
ghost use Rattle.wcv_types.specs.Quoting.{listed};
ghost use Rattle.wcv_types.specs.Text.{path_text, with_each, with_paths};
ghost use Rattle.wcv_types.specs.Tree.{Text};
ghost use Rattle.wcv_types.specs.Unfold.{resource_names, resource_path};
ghost use Rattle.wcv_text.specs.EntryList.{one_entry, entries_said, own_said, paths_said, instance_said, component_said};
ghost use Rattle.wcv_text.specs.Mentions.{comma, entry_said};
ghost use Rattle.wcv_text.specs.Numbers.{Appends, name_of, so_far};

use crate::mentions::{comma_at, push_entity, push_name};
use crate::numbers::Numbers;
use crate::paths::push_path_text;
use crate::quoting::push_label;
use std::alloc::AllocError;
use std::fmt::Write;
use wcv_core::Text;
use wcv_types::{ComponentInstanceType, ComponentItem, ComponentType, ItemMap, Paths, ResourceSet};

/// Appends an entry behind a word.
fn push_entry(
    text: &mut String,
    numbers: &Numbers<'_>,
    word: &str,
    entry: &(Text, ComponentItem),
) -> Result<(), AllocError>
    ensures { OnOk result (Appends numbers.now (string_bytes text.old) (string_bytes text.new) (λ w. one_entry w word.now entry.now)) }
{
    push_label(text, word, entry.0.as_str())?;
    push_entity(text, numbers, entry.1.ty)?;
    push_name(text, entry)
}

/// Appends the line of an entry whose nodes have lines.
pub fn push_entry_line(
    text: &mut String,
    numbers: &Numbers<'_>,
    word: &str,
    entry: &(Text, ComponentItem),
) -> Result<(), AllocError>
    ensures { OnOk result (Appends numbers.now (string_bytes text.old) (string_bytes text.new) (entry_said word.now entry.now)) }
{
    push_entry(text, numbers, word, entry)?;
    text.push_str("\n")
}

/// Appends entries behind a word, with commas between them, the first behind a comma where that is so.
fn push_list(
    text: &mut String,
    numbers: &Numbers<'_>,
    behind: bool,
    word: &str,
    list: &ItemMap,
) -> Result<(), AllocError>
    ensures { OnOk result (Appends numbers.now (string_bytes text.old) (string_bytes text.new) (λ w. listed (comma behind) (entries_said w word.now list.now))) }
{
    for k in 0..list.len() {
        match list.get_index(k) {
            Some(entry) => {
                text.push_str(comma_at(behind, k))?;
                push_entry(text, numbers, word, entry)?;
            }
            None => unreachable!(),
        }
    }
    Ok(())
}

/// Gives numbers to resources that have none, in order.
fn number_owned(numbers: &mut Numbers<'_>, owned: &ResourceSet) -> Result<(), AllocError>
    ensures { OnOk result ((t : Text) → so_far numbers.new t ≡ with_each (so_far numbers.old t) (resource_names owned.now)) }
{
    for k in 0..owned.len() {
        match owned.get_index(k) {
            Some(resource) => {
                let _ = numbers.resource(*resource)?;
            }
            None => unreachable!(),
        }
    }
    Ok(())
}

/// Gives numbers to resources with paths that have none, in order.
fn number_paths(numbers: &mut Numbers<'_>, paths: &Paths) -> Result<(), AllocError>
    ensures { OnOk result ((t : Text) → so_far numbers.new t ≡ with_paths (so_far numbers.old t) (map resource_path paths.now)) }
{
    for k in 0..paths.len() {
        match paths.get_index(k) {
            Some((resource, _)) => {
                let _ = numbers.resource(*resource)?;
            }
            None => unreachable!(),
        }
    }
    Ok(())
}

/// Appends own resources, which have numbers, with commas between them.
fn push_owned(
    text: &mut String,
    numbers: &Numbers<'_>,
    owned: &ResourceSet,
) -> Result<(), AllocError>
    ensures { OnOk result (Appends numbers.now (string_bytes text.old) (string_bytes text.new) (λ w. listed [] (map (own_said w) owned.now))) }
{
    for k in 0..owned.len() {
        match owned.get_index(k) {
            Some(resource) => {
                let before = comma_at(false, k);
                let number = numbers.resource_number(*resource);
                write!(text, "{before}own r{number}")?;
            }
            None => unreachable!(),
        }
    }
    Ok(())
}

/// Appends resources, which have numbers, with their paths behind a word.
fn push_path_list(
    text: &mut String,
    numbers: &Numbers<'_>,
    behind: bool,
    word: &str,
    paths: &Paths,
) -> Result<(), AllocError>
    ensures { OnOk result (Appends numbers.now (string_bytes text.old) (string_bytes text.new) (λ w. listed (comma behind) (paths_said w word.now paths.now))) }
{
    for k in 0..paths.len() {
        match paths.get_index(k) {
            Some((resource, place)) => {
                text.push_str(comma_at(behind, k))?;
                let number = numbers.resource_number(*resource);
                push_path_text(text, word, number, place.positions())?;
            }
            None => unreachable!(),
        }
    }
    Ok(())
}

/// Appends the form of an instance, and gives numbers to the resources that it owns.
pub fn push_instance(
    text: &mut String,
    numbers: &mut Numbers<'_>,
    instance: &ComponentInstanceType,
) -> Result<(), AllocError>
    ensures given { OnOk result ((t : Text) → so_far numbers.new t ≡ with_each (so_far numbers.old t) (resource_names instance.now.defined_resources)) }
    ensures form { OnOk result (Appends numbers.new (string_bytes text.old) (string_bytes text.new) (λ w. instance_said w instance.now)) }
{
    let owned = &instance.defined_resources;
    number_owned(numbers, owned)?;
    text.push_str("instance {")?;
    push_owned(text, numbers, owned)?;
    push_list(text, numbers, owned.len() > 0, "export ", &instance.exports)?;
    text.push_str("}")
}

/// Appends the lists of a component.
fn push_lists(
    text: &mut String,
    numbers: &Numbers<'_>,
    component: &ComponentType,
) -> Result<(), AllocError>
    ensures { OnOk result (Appends numbers.now (string_bytes text.old) (string_bytes text.new) (λ w. listed [] (entries_said w (codes "import ") component.now.imports ++ entries_said w (codes "export ") component.now.exports
        ++ paths_said w (codes "imported ") component.now.imported_resources ++ paths_said w (codes "defined ") component.now.defined_resources))) }
{
    let imports = component.imports.len() > 0;
    let exports = component.exports.len() > 0;
    let paths = component.imported_resources.len() > 0;
    let entries = imports || exports;
    let imported = entries || paths;
    push_list(text, numbers, false, "import ", &component.imports)?;
    push_list(text, numbers, imports, "export ", &component.exports)?;
    push_path_list(
        text,
        numbers,
        entries,
        "imported ",
        &component.imported_resources,
    )?;
    push_path_list(
        text,
        numbers,
        imported,
        "defined ",
        &component.defined_resources,
    )
}

/// Appends the form of a component, and gives numbers to the resources that it lists.
pub fn push_component(
    text: &mut String,
    numbers: &mut Numbers<'_>,
    component: &ComponentType,
) -> Result<(), AllocError>
    ensures given { OnOk result ((t : Text) → so_far numbers.new t ≡ with_paths (with_paths (so_far numbers.old t) (map resource_path component.now.imported_resources)) (map resource_path component.now.defined_resources)) }
    ensures form { OnOk result (Appends numbers.new (string_bytes text.old) (string_bytes text.new) (λ w. component_said w component.now)) }
{
    number_paths(numbers, &component.imported_resources)?;
    number_paths(numbers, &component.defined_resources)?;
    text.push_str("component {")?;
    push_lists(text, numbers, component)?;
    text.push_str("}")
}
