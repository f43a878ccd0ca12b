// The features that core imports and exports need.
ghost use Rattle.std.specs.Prelude.{◌≡◌, true, false, OnOk, OnErr, IfErr};
ghost use Rattle.wcv_core.specs.Checks.{IsFree, CausedBy};
ghost use Rattle.wcv_core.specs.Features.{exceptions, shared_everything_threads, threads, memory64, custom_page_sizes};
ghost use Rattle.wcv_core.specs.CoreFeatures.{needs};
ghost use Rattle.wcv_core.specs.Refusal.{error_kind, error_offset};

use bitflags::Flags;
use wcv_core::{ErrorKind, Refusal, WasmFeatures, missing_feature};

/// Refuses what needs a feature that is missing, by what needs it.
fn check_feature(
    lacks: bool,
    feature: WasmFeatures,
    by: &'static str,
    offset: u64,
) -> Result<(), Refusal<'static>>
    ensures ok { OnOk result (lacks ≡ false) }
    ensures not { OnErr result (lacks ≡ true) }
    ensures err { IfErr result (λ e. (error_kind e ≡ ErrorKind.Feature) × (error_offset e ≡ offset)) }
{
    if lacks {
        return Err(missing_feature(by, "", feature, offset));
    }
    Ok(())
}

/// Whether 64-bit indices may be used, if they are.
pub fn check_memory64(
    features: &WasmFeatures,
    there: bool,
    by: &'static str,
    offset: u64,
) -> Result<(), Refusal<'static>>
    ensures ok { OnOk result (IsFree (needs features.now memory64 there)) }
    ensures err { IfErr result (CausedBy (needs features.now memory64 there) offset) }
{
    let lacks = there && !features.contains(WasmFeatures::MEMORY64);
    check_feature(lacks, WasmFeatures::MEMORY64, by, offset)
}

/// Whether memories may be shared, if one is.
pub fn check_threads(
    features: &WasmFeatures,
    there: bool,
    offset: u64,
) -> Result<(), Refusal<'static>>
    ensures ok { OnOk result (IsFree (needs features.now threads there)) }
    ensures err { IfErr result (CausedBy (needs features.now threads there) offset) }
{
    let lacks = there && !features.contains(WasmFeatures::THREADS);
    check_feature(lacks, WasmFeatures::THREADS, "a shared memory", offset)
}

/// Whether pages may have an unusual size, if they have.
pub fn check_page_sizes(
    features: &WasmFeatures,
    there: bool,
    offset: u64,
) -> Result<(), Refusal<'static>>
    ensures ok { OnOk result (IsFree (needs features.now custom_page_sizes there)) }
    ensures err { IfErr result (CausedBy (needs features.now custom_page_sizes there) offset) }
{
    let lacks = there && !features.contains(WasmFeatures::CUSTOM_PAGE_SIZES);
    let by = "a memory whose page exponent is not 16";
    check_feature(lacks, WasmFeatures::CUSTOM_PAGE_SIZES, by, offset)
}

/// Whether tables and globals may be shared, if one is.
pub fn check_shared(
    features: &WasmFeatures,
    there: bool,
    by: &'static str,
    offset: u64,
) -> Result<(), Refusal<'static>>
    ensures ok { OnOk result (IsFree (needs features.now shared_everything_threads there)) }
    ensures err { IfErr result (CausedBy (needs features.now shared_everything_threads there) offset) }
{
    let lacks = there && !features.contains(WasmFeatures::SHARED_EVERYTHING_THREADS);
    check_feature(lacks, WasmFeatures::SHARED_EVERYTHING_THREADS, by, offset)
}

/// Whether there may be tags.
pub fn check_tags(features: &WasmFeatures, offset: u64) -> Result<(), Refusal<'static>>
    ensures ok { OnOk result (IsFree (needs features.now exceptions true)) }
    ensures err { IfErr result (CausedBy (needs features.now exceptions true) offset) }
{
    let lacks = !features.contains(WasmFeatures::EXCEPTIONS);
    check_feature(lacks, WasmFeatures::EXCEPTIONS, "a tag", offset)
}
