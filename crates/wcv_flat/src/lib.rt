//! Flat types of value types, and the core types of functions that are lifted or lowered.
#![tactic(auto)]

mod canon_rows;
mod func_types;
mod lowering;
mod options;
mod rows;

ghost use Rattle.std.specs.Prelude.{◌≡◌};
ghost use Rattle.wcv_core.specs.Names.{Name};
ghost use Rattle.wcv_types.specs.Tree.{Tree, Parts};
ghost use Rattle.wcv_types.specs.Rename.{rename_parts};
ghost use Rattle.wcv_types.specs.Flat.{flat};
ghost use Rattle.wcv_types.specs.Open.{open_flat};
ghost use Rattle.wcv_flat.specs.Flat.{core_words, cores};
ghost use Rattle.wcv_flat.specs.Options.{type_checks};
ghost use Rattle.wcv_flat.specs.Signature.{core_type};
ghost use Rattle.wcv_flat.specs.declared.options.Abi.{Abi};
ghost use Rattle.wcv_flat.specs.declared.options.CanonicalOptions.{CanonicalOptions};
ghost use Rattle.wcv_flat.specs.declared.options.Concurrency.{Concurrency};
ghost use Rattle.wcv_flat.specs.declared.options.PtrSize.{PtrSize};

pub use canon_rows::{Appends, Ask, Barred, CarrierSort, Needed, OptionName, Row, Word, row_of};
pub use lowering::{lower, lower_value};
pub use options::{Abi, CanonicalOptions, Concurrency, PtrSize, StringEncoding, core_type};
pub use rows::{RowFacts, RowFunction, row_signature};

/// Flat types with pointers left open are the flat types with pointers of either size.
#[tactic(auto, using(crate::proofs::Opening::opened))]
pub fn open_types_have_either_size()
    ensures { (s : PtrSize) (t : Tree Name Name) → cores s (open_flat t) ≡ flat (core_words s) t }
{}

/// The core type of a function, and what it asks of options, look at no name.
#[tactic(auto, using(crate::proofs::Renamed::core_type_renamed, crate::proofs::Renamed::type_checks_renamed))]
pub fn signatures_look_at_no_name()
    ensures core { (f g : Name → Name) (s : PtrSize) (a : Abi) (k : Concurrency) (ps : Parts Name Name) → core_type s a k (rename_parts f g ps) ≡ core_type s a k ps }
    ensures checks { (f g : Name → Name) (o : CanonicalOptions) (a : Abi) (ps : Parts Name Name) → type_checks o a (rename_parts f g ps) ≡ type_checks o a ps }
{}
