// Listings.
ghost use Rattle.std.specs.Prelude.{◌++◌, ◌≡◌, OnOk, IfOk, IsUtf8, codes, map, ◌∷◌, [], if◌then◌else◌};
ghost use Rattle.json.specs.Token.{string};
ghost use Rattle.wcv_core.specs.Features.{has_feature};
ghost use Rattle.serde_json.specs.Written.{compact_text};
ghost use Rattle.serde_json.specs.Data.{array};
ghost use Rattle.wcv_syntax.specs.View.{entries};
ghost use Rattle.wcv_write.specs.Indices.{numbers};
ghost use Rattle.wcv_write.specs.Json.{list_data, optional_tokens, tokens_of, tokens_of_members};
ghost use Rattle.wcv_write.specs.Items.{entry_data};
ghost use Rattle.wcv_write.specs.Listing.{feature_items, features_data, last_members, listing_data};

use crate::indices::{Indices, Numbers};
use crate::list::write_list;
use crate::output::Output;
use bitflags::Flags;
use std::alloc::{AllocError, Global};
use wcv_core::{FEATURE_NAMES, OutOfMemory, WasmFeatures};
use wcv_syntax::Item;

// Writes the name of a feature, where it is in the set.
fn write_feature(
    out: &mut Output,
    features: WasmFeatures,
    name: &str,
    feature: WasmFeatures,
) -> Result<(), AllocError>
    ensures { OnOk result (out.new ≡ out.old ++ (if has_feature features feature.0 then string name.now ∷ [] else [])) }
{
    if features.contains(feature) {
        out.text(name)
    } else {
        Ok(())
    }
}

// Writes the names of those features, of some, that are in the set.
fn write_names(
    out: &mut Output,
    features: WasmFeatures,
    names: &[(&str, WasmFeatures)],
) -> Result<(), AllocError>
    ensures { OnOk result (out.new ≡ out.old ++ tokens_of (array (feature_items features (map (λ row. (row.0.now, row.1.0)) names.now)))) }
{
    out.begin_array()?;
    for (name, feature) in names {
        write_feature(out, features, *name, *feature)?;
    }
    out.end_array()
}

// Writes the names of features.
#[tactic(auto, unfolding(crate::specs::Listing::features_data))]
fn write_features(out: &mut Output, features: WasmFeatures) -> Result<(), AllocError>
    ensures { OnOk result (out.new ≡ out.old ++ tokens_of (features_data features)) }
{
    write_names(out, features, &FEATURE_NAMES)
}

// Writes the features where there are some.
fn write_optional_features(
    out: &mut Output,
    features: Option<WasmFeatures>,
) -> Result<(), AllocError>
    ensures { OnOk result (out.new ≡ out.old ++ optional_tokens (codes "features") features_data features) }
{
    match features {
        None => Ok(()),
        Some(features) => {
            out.key("features")?;
            write_features(out, features)
        }
    }
}

// Writes the items of a root.
#[tactic(auto, using(crate::proofs::Lists::items_of_map))]
fn write_entries<I: Indices>(
    out: &mut Output,
    indices: &I,
    items: &[Item],
) -> Result<(), AllocError>
    ensures { OnOk result (out.new ≡ out.old ++ tokens_of (list_data (entry_data (I.written indices.now)) (entries items.now))) }
{
    write_list(out, indices, items)
}

// Writes the items and the version of a root, and the closing brace.
fn write_last_members<I: Indices>(
    out: &mut Output,
    indices: &I,
    items: &[Item],
) -> Result<(), AllocError>
    ensures { OnOk result (out.new ≡ out.old ++ tokens_of_members (last_members (I.written indices.now) (entries items.now))) }
{
    out.key("items")?;
    write_entries(out, indices, items)?;
    out.key("version")?;
    out.count(1)?;
    out.end_object()
}

// Writes a root.
#[tactic(auto, unfolding(crate::specs::Listing::listing_data))]
fn write_root<I: Indices>(
    out: &mut Output,
    indices: &I,
    features: Option<WasmFeatures>,
    items: &[Item],
    end: u64,
) -> Result<(), AllocError>
    ensures { OnOk result (out.new ≡ out.old ++ tokens_of (listing_data (I.written indices.now) features (entries items.now) end)) }
{
    out.open("end")?;
    out.count(end)?;
    write_optional_features(out, features)?;
    write_last_members(out, indices, items)
}

/// The items as the text of a listing of version 1, with the features where they are given.
pub fn write_listing(
    alloc: Global,
    features: Option<WasmFeatures>,
    items: &[Item],
    end: u64,
) -> Result<Vec<u8>, OutOfMemory>
    ensures text { IfOk result (λ text. text.items ≡ compact_text (listing_data numbers features (entries items.now) end)) }
    ensures utf8 { IfOk result (λ text. IsUtf8 text.items) }
{
    let mut out = Output::new(alloc);
    write_root(&mut out, &Numbers, features, items, end)?;
    Ok(out.into_text())
}
