// How deep the type of a module is.
ghost use Rattle.std.specs.Prelude.{◌≡◌};
ghost use Rattle.wcv_module.specs.Kept.{module_depth};

use wcv_types::{ExportMap, ImportMap};

/// How deep the type of a module is.
#[tactic(auto, using(crate::proofs::Fitting::depth_none, crate::proofs::Fitting::depth_imports, crate::proofs::Fitting::depth_exports))]
pub fn depth_of(imports: &ImportMap, exports: &ExportMap) -> u32
    ensures { result ≡ module_depth imports.now exports.now }
{
    if imports.len() > 0 || exports.len() > 0 {
        return 2;
    }
    1
}
