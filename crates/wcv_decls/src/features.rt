// Features that a type needs.
ghost use Rattle.std.specs.Prelude.{◌≡◌, true, false, OnOk, IfErr};
ghost use Rattle.wcv_syntax.specs.View.{defined_view};
ghost use Rattle.wcv_lower.specs.Checks.{IsFree};
ghost use Rattle.wcv_lower.specs.Defined.{feature_checks};
ghost use Rattle.wcv_core.specs.Features.{cm64, cm_async, cm_map, cm_fixed_length_lists};
ghost use Rattle.wcv_lower.specs.Values.{has_feature, lacks, primitive_checks};
ghost use Rattle.wcv_spaces.specs.Promises.{MemoryOrCausedBy};

use bitflags::Flags;
use wcv_core::{Refusal, WasmFeatures};
use wcv_state::{check_feature, check_primitive};
use wcv_syntax::ComponentDefinedType;

/// Whether futures, streams and async functions may stand.
pub fn check_async(
    features: &WasmFeatures,
    needed_by: &'static str,
    offset: u64,
) -> Result<(), Refusal<'static>>
    ensures ok { OnOk result (IsFree (lacks features.now cm_async)) }
    ensures err { IfErr result (MemoryOrCausedBy (lacks features.now cm_async) offset) }
{
    check_feature(
        features.contains(WasmFeatures::CM_ASYNC),
        WasmFeatures::CM_ASYNC,
        needed_by,
        offset,
    )
}

/// Whether `i64` may represent a resource.
pub fn check_cm64(features: &WasmFeatures, offset: u64) -> Result<(), Refusal<'static>>
    ensures ok { OnOk result (IsFree (lacks features.now cm64)) }
    ensures err { IfErr result (MemoryOrCausedBy (lacks features.now cm64) offset) }
{
    check_feature(
        features.contains(WasmFeatures::CM64),
        WasmFeatures::CM64,
        "a resource that `i64` represents",
        offset,
    )
}

/// Whether a defined type of that form may stand.
pub fn check_features(
    ty: &ComponentDefinedType,
    features: &WasmFeatures,
    offset: u64,
) -> Result<(), Refusal<'static>>
    ensures ok { OnOk result (IsFree (feature_checks features.now (defined_view ty.now))) }
    ensures err { IfErr result (MemoryOrCausedBy (feature_checks features.now (defined_view ty.now)) offset) }
{
    match ty {
        ComponentDefinedType::Primitive(primitive) => {
            check_primitive(*primitive, features, offset)
        }
        ComponentDefinedType::Map(_, _) => check_feature(
            features.contains(WasmFeatures::CM_MAP),
            WasmFeatures::CM_MAP,
            "a map",
            offset,
        ),
        ComponentDefinedType::FixedLengthList(_, _) => check_feature(
            features.contains(WasmFeatures::CM_FIXED_LENGTH_LISTS),
            WasmFeatures::CM_FIXED_LENGTH_LISTS,
            "a list of a fixed length",
            offset,
        ),
        ComponentDefinedType::Future(_) => check_async(features, "a future", offset),
        ComponentDefinedType::Stream(_) => check_async(features, "a stream", offset),
        _ => Ok(()),
    }
}
