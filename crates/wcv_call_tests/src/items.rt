// An item that holds others is copied.
use std::alloc::Global;
use wcv_core::{OutOfMemory, Text};
use wcv_syntax::{
    ComponentExternName, ComponentType, ComponentTypeRef, InstanceTypeDeclaration, Item, Section,
};

// An export `n` of a function.
fn export(alloc: Global) -> Result<InstanceTypeDeclaration, OutOfMemory> {
    Ok(InstanceTypeDeclaration::Export {
        name: ComponentExternName {
            name: Text::new(alloc, "n")?,
            implements: None,
            version_suffix: None,
            external_id: None,
        },
        ty: ComponentTypeRef::Func(7),
    })
}

// An instance type that has it.
fn declared(alloc: Global) -> Result<Section, OutOfMemory> {
    let decls = vec![in alloc; export(alloc)?]?;
    Ok(Section::Ty(ComponentType::Instance(decls)))
}

// A component that has that type.
fn nested(alloc: Global) -> Result<Item, OutOfMemory> {
    let section = declared(alloc)?;
    let items = vec![in alloc; Item { offset: 5, section }]?;
    Ok(Item {
        offset: 3,
        section: Section::Component { items, end: 9 },
    })
}

// Whether there is memory for its copy.
fn has_copy(alloc: Global, item: &Item) -> bool {
    match item.copy(alloc) {
        Ok(copied) => {
            drop(copied);
            true
        }
        Err(_) => false,
    }
}

pub fn an_item_is_copied(alloc: Global) -> bool {
    match nested(alloc) {
        Ok(item) => {
            let copied = has_copy(alloc, &item);
            drop(item);
            copied
        }
        Err(_) => false,
    }
}
