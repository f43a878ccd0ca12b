// A listing that is made for a number.
ghost use Rattle.std.specs.Prelude.{◌≡◌, ◌≤◌, ◌+◌, ◌*◌, ◌++◌, ◌∷◌, [], IfOk, OnOk, codes};
ghost use Rattle.wcv_core.specs.Features.{default_features};
ghost use Rattle.wcv_syntax.specs.View.{section_view, entries, items_view};
ghost use Rattle.wcv_listing.specs.Generated.{plain_name, argument as argument_of, at, spaced, imports, resource_import, own_type, taker_type, taker_import, func_export, passing_component, passing_instance, passed_alias, passed_export, each_below, generated, Joins};

use crate::listing::Listing;
use std::alloc::Global;
use wcv_core::{OutOfMemory, Text, WasmFeatures};
use wcv_syntax::{
    ComponentAlias, ComponentDefinedType, ComponentExport, ComponentExternName,
    ComponentExternalKind, ComponentFuncType, ComponentImport, ComponentInstance,
    ComponentInstantiationArg, ComponentType, ComponentTypeRef, ComponentValType, Item, Section,
    TypeBounds,
};

// A name with no text beside it.
fn name_of(alloc: Global, text: &str) -> Result<ComponentExternName, OutOfMemory>
    ensures { IfOk result (λ name. name ≡ plain_name text.now) }
{
    let name = Text::new(alloc, text)?;
    Ok(ComponentExternName {
        name,
        implements: None,
        version_suffix: None,
        external_id: None,
    })
}

// An import of a new resource.
#[tactic(auto, using(crate::proofs::Made::import_made))]
fn import_resource(alloc: Global) -> Result<Section, OutOfMemory>
    ensures { IfOk result (λ section. section_view section ≡ resource_import) }
{
    let name = name_of(alloc, "r")?;
    let ty = ComponentTypeRef::Ty(TypeBounds::SubResource);
    Ok(Section::Import(ComponentImport { name, ty }))
}

// The type of what owns the resource.
#[tactic(auto, using(crate::proofs::Made::ty_made, crate::proofs::Made::defined_made))]
fn own_resource() -> Section
    ensures { section_view result ≡ own_type }
{
    Section::Ty(ComponentType::Defined(ComponentDefinedType::Own(0)))
}

// The type of functions that take what owns the resource.
#[tactic(auto, using(crate::proofs::Made::ty_made, crate::proofs::Made::type_made))]
fn take_resource(alloc: Global) -> Result<Section, OutOfMemory>
    ensures { IfOk result (λ section. section_view section ≡ taker_type) }
{
    let mut params = Vec::new(alloc);
    params.push((Text::new(alloc, "x")?, ComponentValType::Ty(1)))?;
    Ok(Section::Ty(ComponentType::Func(ComponentFuncType {
        async_: false,
        params,
        result: None,
    })))
}

// An import of such a function.
#[tactic(auto, using(crate::proofs::Made::import_made))]
fn import_taker(alloc: Global) -> Result<Section, OutOfMemory>
    ensures { IfOk result (λ section. section_view section ≡ taker_import) }
{
    let name = name_of(alloc, "f")?;
    let ty = ComponentTypeRef::Func(2);
    Ok(Section::Import(ComponentImport { name, ty }))
}

// An export of a function.
#[tactic(auto, using(crate::proofs::Made::export_made))]
fn export_func(alloc: Global, name: &str, index: u32) -> Result<Section, OutOfMemory>
    ensures { IfOk result (λ section. section_view section ≡ func_export name.now index) }
{
    let name = name_of(alloc, name)?;
    Ok(Section::Export(ComponentExport {
        name,
        kind: ComponentExternalKind::Func,
        index,
        ty: None,
    }))
}

// Adds an item at an offset.
#[tactic(auto, using(crate::proofs::Made::item_made))]
fn push_at(items: &mut Vec<Item>, offset: u64, section: Section) -> Result<(), OutOfMemory>
    ensures { OnOk result (entries items.new.items ≡ entries items.old.items ++ at offset (section_view section) ∷ []) }
{
    items.push(Item { offset, section })?;
    Ok(())
}

// The four items with which the root and the component begin, the first at offset 0.
fn imported(alloc: Global, gap: u64) -> Result<Vec<Item>, OutOfMemory>
    requires { gap ≤ 1 }
    ensures { IfOk result (λ items. entries items.items ≡ spaced gap 0 imports) }
{
    let mut items = Vec::new(alloc);
    push_at(&mut items, 0, import_resource(alloc)?)?;
    push_at(&mut items, gap, own_resource())?;
    push_at(&mut items, gap + gap, take_resource(alloc)?)?;
    push_at(&mut items, gap + gap + gap, import_taker(alloc)?)?;
    Ok(items)
}

// The component of which there are instances.
#[tactic(auto, using(crate::proofs::Made::component_item_made))]
fn component(alloc: Global) -> Result<Section, OutOfMemory>
    ensures { IfOk result (λ section. section_view section ≡ passing_component) }
{
    let mut items = imported(alloc, 0)?;
    push_at(&mut items, 0, export_func(alloc, "g", 0)?)?;
    Ok(Section::Component { items, end: 0 })
}

// An argument, which is the first item of its sort.
fn argument(
    alloc: Global,
    name: &str,
    kind: ComponentExternalKind,
) -> Result<ComponentInstantiationArg, OutOfMemory>
    ensures { IfOk result (λ arg. arg ≡ argument_of name.now kind) }
{
    let name = Text::new(alloc, name)?;
    Ok(ComponentInstantiationArg {
        name,
        kind,
        index: 0,
    })
}

// An instance of the component.
#[tactic(auto, using(crate::proofs::Made::component_instance_made))]
fn instance(alloc: Global) -> Result<Section, OutOfMemory>
    ensures { IfOk result (λ section. section_view section ≡ passing_instance) }
{
    let mut args = Vec::new(alloc);
    args.push(argument(alloc, "r", ComponentExternalKind::Ty)?)?;
    args.push(argument(alloc, "f", ComponentExternalKind::Func)?)?;
    let component_index = 0;
    Ok(Section::Instance(ComponentInstance::Instantiate {
        component_index,
        args,
    }))
}

// An alias of what an instance exports.
#[tactic(auto, using(crate::proofs::Made::alias_made))]
fn alias(alloc: Global, instance_index: u32) -> Result<Section, OutOfMemory>
    ensures { IfOk result (λ section. section_view section ≡ passed_alias instance_index) }
{
    let name = Text::new(alloc, "g")?;
    Ok(Section::Alias(ComponentAlias::InstanceExport {
        kind: ComponentExternalKind::Func,
        instance_index,
        name,
    }))
}

// An export of what an instance exports.
fn export(alloc: Global, i: u32) -> Result<Section, OutOfMemory>
    requires { i ≤ 1000 }
    ensures { IfOk result (λ section. section_view section ≡ passed_export i) }
{
    let name = format!(in alloc; "g{i}")?;
    export_func(alloc, name.as_str(), i + 1)
}

// Adds an item at its position.
fn push(items: &mut Vec<Item>, section: Section) -> Result<(), OutOfMemory>
    ensures { OnOk result (Joins (entries items.old.items) (section_view section ∷ []) (entries items.new.items)) }
{
    let offset = items.len() as u64;
    push_at(items, offset, section)
}

// Adds the instances.
fn push_instances(alloc: Global, n: u32, items: &mut Vec<Item>) -> Result<(), OutOfMemory>
    ensures { OnOk result (Joins (entries items.old.items) (each_below n (λ i. passing_instance)) (entries items.new.items)) }
{
    for _i in 0..n {
        push(items, instance(alloc)?)?;
    }
    Ok(())
}

// Adds an alias for each instance.
fn push_aliases(alloc: Global, n: u32, items: &mut Vec<Item>) -> Result<(), OutOfMemory>
    ensures { OnOk result (Joins (entries items.old.items) (each_below n passed_alias) (entries items.new.items)) }
{
    for i in 0..n {
        push(items, alias(alloc, i)?)?;
    }
    Ok(())
}

// Adds an export for each instance.
fn push_exports(alloc: Global, n: u32, items: &mut Vec<Item>) -> Result<(), OutOfMemory>
    requires { n ≤ 1000 }
    ensures { OnOk result (Joins (entries items.old.items) (each_below n passed_export) (entries items.new.items)) }
{
    for i in 0..n {
        push(items, export(alloc, i)?)?;
    }
    Ok(())
}

/// A listing for a number, up to 1,000. It imports a resource `r` and a function `f` that takes one. A component
/// in it imports the same, and exports the function. There are `n` instances of it, and what the instance `i`
/// exports is exported again, as `g` with the number `i` behind it.
pub fn generate(alloc: Global, n: u32) -> Result<Listing, OutOfMemory>
    requires { n ≤ 1000 }
    ensures features { IfOk result (λ listing. listing.features ≡ default_features) }
    ensures items { IfOk result (λ listing. items_view listing.items.items ≡ generated n) }
    ensures end { IfOk result (λ listing. listing.end ≡ 5 + 3 * n) }
{
    let mut items = imported(alloc, 1)?;
    push(&mut items, component(alloc)?)?;
    push_instances(alloc, n, &mut items)?;
    push_aliases(alloc, n, &mut items)?;
    push_exports(alloc, n, &mut items)?;
    Ok(Listing {
        features: WasmFeatures::default(),
        items,
        end: u64::from(5 + 3 * n),
    })
}
