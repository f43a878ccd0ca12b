// Whether core instances serve the imports of a core module.
ghost use Rattle.std.specs.Prelude.{◌≡◌, All, IfOk, IfErr, IfSome, OnOk, bytes_eq, option_copied};
ghost use Rattle.std.specs.Map.{lookup};
ghost use Rattle.wcv_core.specs.CoreGroups.{total};
ghost use Rattle.wcv_core.specs.CoreSizes.{IsEntityWithin};
ghost use Rattle.wcv_types.specs.Standing.{Stands};
ghost use Rattle.wcv_types.specs.Tree.{Text, parts};
ghost use Rattle.wcv_types.specs.Unfold.{tree_at};
ghost use Rattle.wcv_types.specs.declared.ids.Part.TheVariants as p;
ghost use Rattle.wcv_closed.specs.CoreModules.{AllServed};
ghost use Rattle.wcv_matching.specs.ByName.{held};
ghost use Rattle.wcv_matching.specs.CoreArguments.{argument_exports, export_under, HeldAs};
ghost use Rattle.wcv_matching.specs.ModuleItems.{core_imports_in, instance_exports, ItemsMatch};
ghost use Rattle.wcv_matching.specs.Refusals.{IsMismatch, MemoryOrMismatch};
ghost use Rattle.wcv_matching.specs.Standings.{FoundAs};

use crate::by_name::exports_by_name;
use crate::modules::{Sought, check_item};
use std::collections::BTreeMap;
use wcv_core::{CoreTypes, EntityType, Error, OutOfMemory, Text};
use wcv_types::{
    ComponentCoreInstanceTypeId, ComponentCoreModuleTypeId, CoreInstanceTypeKind, ExportMap,
    ImportMap, TypeAlloc,
};

/// What a core instance exports: what its module does, or what it lists.
fn core_exports(types: &TypeAlloc, id: ComponentCoreInstanceTypeId) -> &ExportMap
    requires { Stands types.now (p.CoreInstance id) }
    ensures exports { result.now ≡ instance_exports (tree_at types.now (p.CoreInstance id)) }
    ensures within { All (λ e. IsEntityWithin (total types.now.core) e.1) result.now }
{
    types.modules_within();
    match &types.get(id).kind {
        CoreInstanceTypeKind::Exports(exports) => exports,
        CoreInstanceTypeKind::Instantiated(module) => &types.get(*module).exports,
    }
}

/// What a core instance exports under the name. However much it exports, it takes the time of one look-up.
pub fn core_export_of<'a>(
    types: &'a TypeAlloc,
    id: ComponentCoreInstanceTypeId,
    name: &Text,
) -> Option<&'a EntityType>
    requires { Stands types.now (p.CoreInstance id) }
    ensures export { option_copied result ≡ lookup (bytes_eq name.now) (instance_exports (tree_at types.now (p.CoreInstance id))) }
    ensures within { IfSome (option_copied result) (IsEntityWithin (total types.now.core)) }
{
    types.modules_within();
    match &types.get(id).kind {
        CoreInstanceTypeKind::Exports(_) => types.listed_export_of(id, name),
        CoreInstanceTypeKind::Instantiated(module) => {
            let _ = types.get(*module);
            types.module_export_of(*module, name)
        }
    }
}

/// What stands under each name that an argument exports, by the argument's name.
fn arguments_by_name<'a>(
    types: &'a TypeAlloc,
    args: &'a [(Text, ComponentCoreInstanceTypeId)],
) -> Result<BTreeMap<&'a str, BTreeMap<&'a str, EntityType>>, OutOfMemory>
    requires { All (λ x. Stands types.now (p.CoreInstance x.1)) args.now }
    ensures held { IfOk result (λ m. (q : Text) → HeldAs (held m q) (lookup (bytes_eq q) (argument_exports types.now args.now))) }
    ensures within { IfOk result (λ m. (i : Text × Text) → IfSome (export_under m i) (IsEntityWithin (total types.now.core))) }
{
    let alloc = types.allocator();
    let mut items = BTreeMap::new(alloc);
    let mut left = args.len();
    while left > 0 {
        left -= 1;
        let arg = &args[left];
        let exports = exports_by_name(alloc, core_exports(types, arg.1))?;
        items.insert(arg.0.as_str(), exports)?;
    }
    Ok(items)
}

/// What an argument exports under a name.
fn export_under<'a>(
    items: &BTreeMap<&'a str, BTreeMap<&'a str, EntityType>>,
    argument: &'a str,
    name: &'a str,
) -> Option<EntityType>
    ensures { result ≡ export_under items.now (argument.now, name.now) }
{
    match items.get(argument) {
        Some(exports) => exports.get(name).copied(),
        None => None,
    }
}

/// Whether an argument has the name of the module that is imported from, and exports an item that matches.
fn check_argument<'a>(
    types: &CoreTypes,
    items: &BTreeMap<&'a str, BTreeMap<&'a str, EntityType>>,
    import: &'a ((Text, Text), EntityType),
    offset: u64,
) -> Result<(), Error>
    requires found { IfSome (export_under items.now import.now.0) (IsEntityWithin (total types.now)) }
    requires expected { IsEntityWithin (total types.now) import.now.1 }
    ensures ok { OnOk result (FoundAs (ItemsMatch types.now) (export_under items.now import.now.0) import.now.1) }
    ensures err { IfErr result (IsMismatch offset (FoundAs (ItemsMatch types.now) (export_under items.now import.now.0) import.now.1)) }
{
    let module = import.0.0.as_str();
    let name = import.0.1.as_str();
    let found = export_under(items, module, name);
    check_item(
        types,
        found,
        &import.1,
        Sought::Argument(module, name),
        offset,
    )
}

/// Whether the arguments serve each of the imports.
fn imports_served(
    types: &TypeAlloc,
    args: &[(Text, ComponentCoreInstanceTypeId)],
    imports: &ImportMap,
    offset: u64,
) -> Result<(), Error>
    requires args { All (λ x. Stands types.now (p.CoreInstance x.1)) args.now }
    requires imports { All (λ i. IsEntityWithin (total types.now.core) i.1) imports.now }
    ensures ok { OnOk result (AllServed (ItemsMatch types.now.core) (argument_exports types.now args.now) imports.now) }
    ensures err { IfErr result (MemoryOrMismatch offset (AllServed (ItemsMatch types.now.core) (argument_exports types.now args.now) imports.now)) }
{
    let items = arguments_by_name(types, args)?;
    for k in 0..imports.len() {
        if let Some(import) = imports.get_index(k) {
            match check_argument(types.core_types(), &items, import, offset) {
                Ok(()) => {}
                Err(err) => return Err(err),
            }
        }
    }
    Ok(())
}

/// Whether the core instances, by the names of the arguments, serve what the core module imports. Of a name that stands
/// twice the first counts, and arguments that the module does not ask for are passed over.
pub fn core_arguments(
    types: &TypeAlloc,
    args: &[(Text, ComponentCoreInstanceTypeId)],
    id: ComponentCoreModuleTypeId,
    offset: u64,
) -> Result<(), Error>
    requires args { All (λ x. Stands types.now (p.CoreInstance x.1)) args.now }
    requires module { Stands types.now (p.Module id) }
    ensures ok { OnOk result (AllServed (ItemsMatch types.now.core) (argument_exports types.now args.now) (core_imports_in (parts (tree_at types.now (p.Module id))))) }
    ensures err { IfErr result (MemoryOrMismatch offset (AllServed (ItemsMatch types.now.core) (argument_exports types.now args.now) (core_imports_in (parts (tree_at types.now (p.Module id)))))) }
{
    types.modules_within();
    imports_served(types, args, &types.get(id).imports, offset)
}
