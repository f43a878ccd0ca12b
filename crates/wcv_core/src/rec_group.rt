// What a group of core types is added to.
use crate::core_types::CoreTypeId;
use crate::error::Refusal;
use crate::features::WasmFeatures;
use crate::memory::OutOfMemory;

/// A space of core types, and the features that may be used in it. Contracts see it as a value, so that an
/// implementation says by its `Model` what else it keeps.
pub trait InternRecGroup {
    ghost use Rattle.std.specs.Prelude.{◌≡◌, ℕ, List, ◌∷◌, [], ◌++◌, ◌+◌, ◌<◌, ◌^◌, length, slice_get, Some, IfOk, OnOk, OnErr, IfErr};
    ghost use Rattle.wcv_core.specs.Checks.{CausedBy};
    ghost use Rattle.wcv_core.specs.CoreWritten.{Core_entry, sub_entry, entry_checks};
    ghost use Rattle.wcv_core.specs.declared.features.WasmFeatures.{WasmFeatures};

    /// What the indices stand for.
    ghost entries: { Self → List Core_entry };

    /// The features that may be used.
    ghost allowed: { Self → WasmFeatures };

    /// The space with one more type behind the others.
    ghost with_type: { Self → ℕ → Self };

    /// The space after memory ended in a call.
    ghost failed: { Self → Self };

    /// The features that may be used.
    fn features(&self) -> &WasmFeatures
        ensures { result.now ≡ allowed self.now };

    /// Adds a type behind the others.
    fn add_type_id(&mut self, id: CoreTypeId) -> Result<(), OutOfMemory>
        requires { length (entries self.old) + 1 < 2 ^ 32 }
        ensures ok { OnOk result (self.new ≡ with_type self.old id.index) }
        ensures entries { OnOk result (entries self.new ≡ entries self.old ++ sub_entry id.index ∷ []) }
        ensures features { allowed self.new ≡ allowed self.old }
        ensures err { OnErr result (self.new ≡ failed self.old) }
        ensures stays { OnErr result (entries self.new ≡ entries self.old) };

    /// The type at an index.
    fn type_id_at(&self, idx: u32, offset: u64) -> Result<CoreTypeId, Refusal<'static>>
        ensures ok { IfOk result (λ id. slice_get (entries self.now) idx ≡ Some (sub_entry id.index)) }
        ensures err { IfErr result (CausedBy (entry_checks (slice_get (entries self.now) idx)) offset) };

    /// How many types there are.
    fn types_len(&self) -> u32
        ensures { result ≡ length (entries self.now) };
}
