// Items.
ghost use Rattle.std.specs.Prelude.{◌++◌, ◌≡◌, ◌∷◌, [], OnOk, codes, map};
ghost use Rattle.json.specs.Token.{begin_object, key as key_token, number};
ghost use Rattle.serde_json.specs.Data.{array};
ghost use Rattle.std.specs.Fmt.{decimal};
ghost use Rattle.wcv_syntax.specs.View.{code_decl_view, item_view, section_view, items_view};
ghost use Rattle.wcv_write.specs.CoreForms.{core_module_data};
ghost use Rattle.wcv_write.specs.Items.{start_data, at_and, and_at, component_data, item_data, item_list};
ghost use Rattle.wcv_write.specs.Json.{tokens_of};
ghost use Rattle.wcv_write.specs.Sorts.{alias_data};

use crate::core_form::write_core_module;
use crate::indices::Indices;
use crate::instance::write_start;
use crate::list::ToJson;
use crate::output::Output;
use std::alloc::AllocError;
use wcv_syntax::{ComponentAlias, Item, ModuleDecl, Section};

// Opens an item at an offset, up to the body under its key.
fn open_item(out: &mut Output, offset: u64, key: &str) -> Result<(), AllocError>
    ensures { OnOk result (out.new ≡ out.old ++ begin_object ∷ key_token (codes "at") ∷ number (decimal offset) ∷ key_token key.now ∷ []) }
{
    out.open("at")?;
    out.count(offset)?;
    out.key(key)
}

// Writes an item by the body under its key.
fn write_at<T: ToJson, I: Indices>(
    out: &mut Output,
    indices: &I,
    offset: u64,
    key: &str,
    body: &T,
) -> Result<(), AllocError>
    ensures { OnOk result (out.new ≡ out.old ++ tokens_of (at_and offset key.now (T.form (I.written indices.now) body.now))) }
{
    open_item(out, offset, key)?;
    body.write(out, indices)?;
    out.end_object()
}

// Writes a core module under a key.
fn write_module_at(
    out: &mut Output,
    offset: u64,
    key: &str,
    decls: &[ModuleDecl],
) -> Result<(), AllocError>
    ensures { OnOk result (out.new ≡ out.old ++ tokens_of (at_and offset key.now (core_module_data (map code_decl_view decls.now)))) }
{
    open_item(out, offset, key)?;
    write_core_module(out, decls)?;
    out.end_object()
}

// Writes a start item under a key.
fn write_start_at<I: Indices>(
    out: &mut Output,
    indices: &I,
    offset: u64,
    key: &str,
    func: u32,
    args: &[u32],
    results: u32,
) -> Result<(), AllocError>
    ensures { OnOk result (out.new ≡ out.old ++ tokens_of (at_and offset key.now (start_data (I.written indices.now) func args.now results))) }
{
    open_item(out, offset, key)?;
    write_start(out, indices, func, args, results)?;
    out.end_object()
}

// Writes an alias, whose key stands before that of the offset.
fn write_alias_at<I: Indices>(
    out: &mut Output,
    indices: &I,
    offset: u64,
    key: &str,
    alias: &ComponentAlias,
) -> Result<(), AllocError>
    ensures { OnOk result (out.new ≡ out.old ++ tokens_of (and_at offset key.now (alias_data (I.written indices.now) alias.now))) }
{
    out.open(key)?;
    alias.write(out, indices)?;
    out.key("at")?;
    out.count(offset)?;
    out.end_object()
}

/// Writes an item.
#[cycle(items)]
pub fn write_item<I: Indices>(out: &mut Output, indices: &I, item: &Item) -> Result<(), AllocError>
    ensures { OnOk result (out.new ≡ out.old ++ tokens_of (item_data (I.written indices.now) (item_view item.now).offset (item_view item.now).form)) }
{
    write_section(out, indices, item.offset, &item.section)
}

// Writes what an item holds, with its offset.
#[cycle(items)]
fn write_section<I: Indices>(
    out: &mut Output,
    indices: &I,
    offset: u64,
    section: &Section,
) -> Result<(), AllocError>
    ensures { OnOk result (out.new ≡ out.old ++ tokens_of (item_data (I.written indices.now) offset (section_view section.now))) }
{
    match section {
        Section::CoreType(ty) => write_at(out, indices, offset, "core-type", ty),
        Section::CoreModule(decls) => write_module_at(out, offset, "core-module", decls),
        Section::CoreInstance(instance) => {
            write_at(out, indices, offset, "core-instance", instance)
        }
        Section::Ty(ty) => write_at(out, indices, offset, "type", ty),
        Section::Import(import) => write_at(out, indices, offset, "import", import),
        Section::Export(export) => write_at(out, indices, offset, "export", export),
        Section::Component { items, end } => {
            write_component_at(out, indices, offset, "component", items, *end)
        }
        Section::Instance(instance) => write_at(out, indices, offset, "instance", instance),
        Section::Alias(alias) => write_alias_at(out, indices, offset, "alias", alias),
        Section::Start {
            func_index,
            args,
            results,
        } => write_start_at(out, indices, offset, "start", *func_index, args, *results),
        Section::Canon(func) => write_at(out, indices, offset, "canon", func),
    }
}

// Writes a component under a key.
#[cycle(items)]
fn write_component_at<I: Indices>(
    out: &mut Output,
    indices: &I,
    offset: u64,
    key: &str,
    items: &Vec<Item>,
    end: u64,
) -> Result<(), AllocError>
    ensures { OnOk result (out.new ≡ out.old ++ tokens_of (at_and offset key.now (component_data (array (item_list (I.written indices.now) (items_view items.now.items))) end))) }
{
    open_item(out, offset, key)?;
    write_component(out, indices, items, end)?;
    out.end_object()
}

// Writes the end and the items of a component.
#[cycle(items)]
fn write_component<I: Indices>(
    out: &mut Output,
    indices: &I,
    items: &Vec<Item>,
    end: u64,
) -> Result<(), AllocError>
    ensures { OnOk result (out.new ≡ out.old ++ tokens_of (component_data (array (item_list (I.written indices.now) (items_view items.now.items))) end)) }
{
    out.open("end")?;
    out.count(end)?;
    out.key("items")?;
    write_items(out, indices, items)?;
    out.end_object()
}

// Writes the items of a component.
#[cycle(items)]
fn write_items<I: Indices>(
    out: &mut Output,
    indices: &I,
    items: &Vec<Item>,
) -> Result<(), AllocError>
    ensures { OnOk result (out.new ≡ out.old ++ tokens_of (array (item_list (I.written indices.now) (items_view items.now.items)))) }
{
    out.begin_array()?;
    for item in items {
        write_item(out, indices, item)?;
    }
    out.end_array()
}

impl ToJson for Item {
    ghost use Rattle.wcv_write.specs.Items.{entry_data};
    ghost use Rattle.wcv_syntax.specs.View.{item_view};

    ghost form = { λ ix item. entry_data ix (item_view item) };

    fn write<I: Indices>(&self, out: &mut Output, indices: &I) -> Result<(), AllocError> {
        write_item(out, indices, self)
    }
}
