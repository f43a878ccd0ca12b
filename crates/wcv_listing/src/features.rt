// The features that a listing names.
ghost use Rattle.std.specs.Prelude.{◌≡◌, option_map};
ghost use Rattle.wcv_core.specs.Features.{feature_names};
ghost use Rattle.wcv_listing.specs.Features.{feature_bit, features_of};
ghost use Rattle.wcv_listing.specs.Fields.{named};
ghost use Rattle.wcv_listing.specs.Seen.{view};

use crate::list::named_in;
use crate::node::Node;
use crate::value::{list_of, text_of};
use bitflags::Flags;
use wcv_core::{FEATURE_NAMES, WasmFeatures};

/// The feature that has this name in a listing.
#[tactic(auto, using(crate::proofs::Names::named_mapped))]
pub fn feature_named(name: &str) -> Option<WasmFeatures>
    ensures { option_map (λ feature. feature.0) result ≡ named feature_names name.now }
{
    named_in(&FEATURE_NAMES, name)
}

// The feature that the value names.
fn read_feature(value: Node<'_, '_>) -> Option<WasmFeatures>
    ensures { option_map (λ feature. feature.0) result ≡ feature_bit (view value.entry) }
{
    feature_named(text_of(value)?)
}

/// The set of the features that are named.
pub fn read_features(value: Node<'_, '_>) -> Option<WasmFeatures>
    ensures { result ≡ features_of (view value.entry) }
{
    let mut list = list_of(value)?;
    let mut features = WasmFeatures::empty();
    while let Some((name, rest)) = list.next() {
        features.insert(read_feature(name)?);
        list = rest;
    }
    Some(features)
}
