// Features that an item needs.
ghost use Rattle.std.specs.Prelude.{◌≡◌, true, false, OnOk, OnErr, IfErr};
ghost use Rattle.wcv_core.specs.Refusal.{error_kind, error_offset};
ghost use Rattle.wcv_lower.specs.Checks.{IsFree};
ghost use Rattle.wcv_core.specs.Features.{cm_values, cm_error_context};
ghost use Rattle.wcv_lower.specs.Values.{has_feature, lacks, kind_checks, primitive_checks};
ghost use Rattle.wcv_spaces.specs.Promises.{MemoryOrCausedBy};

use bitflags::Flags;
use wcv_core::{ErrorKind, PrimitiveValType, Refusal, WasmFeatures, missing_feature};
use wcv_syntax::ComponentExternalKind;

/// Refuses what needs a feature that is missing, by what needs it.
pub fn check_feature(
    has: bool,
    feature: WasmFeatures,
    needed_by: &'static str,
    offset: u64,
) -> Result<(), Refusal<'static>>
    ensures ok { OnOk result (has ≡ true) }
    ensures not { OnErr result (has ≡ false) }
    ensures err { IfErr result (λ e. (error_kind e ≡ ErrorKind.Feature) × (error_offset e ≡ offset)) }
{
    if !has {
        return Err(missing_feature(needed_by, "", feature, offset));
    }
    Ok(())
}

/// Whether a primitive may stand.
pub fn check_primitive(
    ty: PrimitiveValType,
    features: &WasmFeatures,
    offset: u64,
) -> Result<(), Refusal<'static>>
    ensures ok { OnOk result (IsFree (primitive_checks features.now ty)) }
    ensures err { IfErr result (MemoryOrCausedBy (primitive_checks features.now ty) offset) }
{
    match ty {
        PrimitiveValType::ErrorContext => check_feature(
            features.contains(WasmFeatures::CM_ERROR_CONTEXT),
            WasmFeatures::CM_ERROR_CONTEXT,
            "`error-context`",
            offset,
        ),
        _ => Ok(()),
    }
}

/// Whether values may be imported, exported, aliased or handed on.
pub fn check_values(features: &WasmFeatures, offset: u64) -> Result<(), Refusal<'static>>
    ensures ok { OnOk result (IsFree (lacks features.now cm_values)) }
    ensures err { IfErr result (MemoryOrCausedBy (lacks features.now cm_values) offset) }
{
    check_feature(
        features.contains(WasmFeatures::CM_VALUES),
        WasmFeatures::CM_VALUES,
        "a value",
        offset,
    )
}

/// Whether items of the sort may stand: a value needs its feature.
pub fn check_kind(
    features: &WasmFeatures,
    kind: ComponentExternalKind,
    offset: u64,
) -> Result<(), Refusal<'static>>
    ensures ok { OnOk result (IsFree (kind_checks features.now kind)) }
    ensures err { IfErr result (MemoryOrCausedBy (kind_checks features.now kind) offset) }
{
    match kind {
        ComponentExternalKind::Value => check_values(features, offset),
        _ => Ok(()),
    }
}
