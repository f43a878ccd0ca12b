// What is done with the bytes that a command reads.
ghost use Rattle.std.specs.Prelude.{◌≡◌, IfOk, option_map, map};
ghost use Rattle.wcv_main.specs.Commands.{features_of_word as of_word, joined_names, reading_of_word as by_word, reading_with as by_features, reading_of as by_words};

use crate::words::Words;
use bitflags::Flags;
use std::alloc::Global;
use wcv_core::{OutOfMemory, WasmFeatures};
use wcv_listing::feature_named;

/// What is done with the bytes that are read to the end of the source.
#[derive(Clone, Copy)]
pub enum Reading {
    /// They are a listing, and what it lists is validated.
    Listing,
    /// They are a component binary, which is validated with these features.
    Binary(WasmFeatures),
    /// They are a component binary, of which the listing is written, with these features if the words name some.
    ToListing(Option<WasmFeatures>),
}

// The set of the features of these names.
#[tactic(auto, unfolding(crate::specs::Commands::joined_names))]
fn features_named(names: &[&str]) -> Option<WasmFeatures>
    ensures { option_map (λ features. features.0) result ≡ joined_names (map (λ name. name.now) names.now) 0 }
{
    let mut features = WasmFeatures::empty();
    for name in names {
        features.insert(feature_named(name)?);
    }
    Some(features)
}

// The features that the word names: `all`, `none`, or names parted by commas.
fn features_of_word(alloc: Global, word: &str) -> Result<Option<WasmFeatures>, OutOfMemory>
    ensures { IfOk result (λ features. features ≡ of_word word.now) }
{
    if word == "all" {
        return Ok(Some(WasmFeatures::all()));
    }
    if word == "none" {
        return Ok(Some(WasmFeatures::empty()));
    }
    let names: Vec<&str> = word.split(',').collect(alloc)?;
    Ok(features_named(&names))
}

// What the word alone asks for.
fn reading_of_word(word: &str) -> Option<Reading>
    ensures { result ≡ by_word word.now }
{
    match word {
        "validate" => Some(Reading::Listing),
        "validate-binary" => Some(Reading::Binary(WasmFeatures::default())),
        "list" => Some(Reading::ToListing(None)),
        _ => None,
    }
}

// What the word asks for with these features.
fn reading_with(word: &str, features: Option<WasmFeatures>) -> Option<Reading>
    ensures { result ≡ by_features word.now features }
{
    let features = features?;
    match word {
        "validate-binary" => Some(Reading::Binary(features)),
        "list" => Some(Reading::ToListing(Some(features))),
        _ => None,
    }
}

/// What is done with the bytes, where the words are a command that reads.
pub fn reading_of(alloc: Global, words: &Words) -> Result<Option<Reading>, OutOfMemory>
    ensures { IfOk result (λ reading. reading ≡ by_words words.now) }
{
    let Some(word) = words.get(0) else {
        return Ok(None);
    };
    let Some(features) = words.get(1) else {
        return Ok(reading_of_word(word));
    };
    if words.len() != 2 {
        return Ok(None);
    }
    let features = features_of_word(alloc, features)?;
    Ok(reading_with(word, features))
}
