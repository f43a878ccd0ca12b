// Whether one core module is the same as another, or may stand where it is expected.
ghost use Rattle.std.specs.Prelude.{◌≡◌, ◌+◌, ◌≤◌, IfOk};
ghost use Rattle.wcv_types.specs.Standing.{Stands};
ghost use Rattle.wcv_types.specs.Unfold.{tree_at};
ghost use Rattle.wcv_types.specs.declared.ids.Part.TheVariants as p;
ghost use Rattle.wcv_matching.specs.AtomTests.{id_tests};
ghost use Rattle.wcv_atoms.specs.Extent.{extent};
ghost use Rattle.wcv_atoms.specs.IdPasses.{modules_pass};

use std::sync::ledger::Ledger;
use wcv_atoms::visited;
use wcv_core::{ErrorKind, OutOfMemory};
use wcv_matching::shapes_match;
use wcv_types::{ComponentCoreModuleTypeId, Steps, TypeAlloc};

/// Whether the one core module matches the other.
fn module_matches(
    types: &TypeAlloc,
    a: ComponentCoreModuleTypeId,
    b: ComponentCoreModuleTypeId,
) -> Result<bool, OutOfMemory>
    requires a { Stands types.now (p.Module a) }
    requires b { Stands types.now (p.Module b) }
    ensures { IfOk result (λ matches. matches ≡ (id_tests types.now.core).modules (tree_at types.now (p.Module a)) (tree_at types.now (p.Module b))) }
{
    types.modules_within();
    let _count = types.core_types().len();
    match shapes_match(types, types.get(a), types.get(b), 0) {
        Ok(()) => Ok(true),
        Err(err) => match err.kind() {
            ErrorKind::OutOfMemory => Err(OutOfMemory),
            _ => Ok(false),
        },
    }
}

/// Whether the one core module matches the other, and where they are to be the same also the other way round. It takes a
/// step for each of them, for all that they import and export.
pub fn modules_pass<L: Ledger>(
    types: &TypeAlloc,
    exact: bool,
    a: ComponentCoreModuleTypeId,
    b: ComponentCoreModuleTypeId,
    steps: &mut Steps<L>,
) -> Result<bool, OutOfMemory>
    requires a { Stands types.now (p.Module a) }
    requires b { Stands types.now (p.Module b) }
    ensures passes { IfOk result (λ passes. passes ≡ modules_pass (id_tests types.now.core) exact (tree_at types.now (p.Module a)) (tree_at types.now (p.Module b))) }
    ensures counted { steps.new ≤ steps.old + (extent (tree_at types.now (p.Module a)) + extent (tree_at types.now (p.Module b))) }
{
    types.nodes_fit();
    let _ = visited(types, a, steps);
    let _ = visited(types, b, steps);
    if exact {
        Ok(module_matches(types, a, b)? && module_matches(types, b, a)?)
    } else {
        module_matches(types, a, b)
    }
}
