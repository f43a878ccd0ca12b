// A row a second time, as a binary of the same items.
use crate::answer::answer_with;
use crate::question::Question;
use bitflags::Flags;
use std::alloc::{AllocError, Global};
use wcv_core::{FEATURE_NAMES, WasmFeatures};
use wcv_encode::write_binary;
use wcv_listing::{Listing, read_listing};

/// The words that ask whether a binary is valid with these features.
fn words_with(alloc: Global, features: WasmFeatures) -> Result<String, AllocError> {
    let mut words = String::from_str(alloc, "validate-binary ")?;
    let mut is_first = true;
    for (name, feature) in FEATURE_NAMES.as_slice() {
        if features.contains(*feature) {
            words.push_str(if is_first { "" } else { "," })?;
            words.push_str(*name)?;
            is_first = false;
        }
    }
    words.push_str(if is_first { "none" } else { "" })?;
    Ok(words)
}

/// An answer without the offset of a refusal, which is another one in a binary. The message names the position of
/// the item.
fn without_offset(alloc: Global, answer: &str) -> Result<String, AllocError> {
    let (first, rest) = match answer.strip_prefix("1\n") {
        Some(lines) => lines.split_once('\n').unwrap_or((lines, "")),
        None => return String::from_str(alloc, answer),
    };
    let (kind, _) = first.split_once(" at ").unwrap_or((first, ""));
    format!(in alloc; "{kind}\n{rest}")
}

/// Whether an answer says that there is more to read, or to keep, than there may be.
fn is_too_long(answer: &str) -> bool {
    answer.strip_prefix("7\n").is_some()
}

/// What a binary of these items is answered, where they have bytes.
fn answer_as_binary(
    alloc: Global,
    question: &Question<'_>,
    listing: &Listing,
) -> Result<Option<String>, AllocError> {
    let Ok(Some(bytes)) = write_binary(alloc, &listing.items) else {
        return Ok(None);
    };
    let words = words_with(alloc, listing.features)?;
    Ok(Some(answer_with(alloc, question, words.as_str(), bytes)?))
}

/// What a binary of the listing's items is answered otherwise than the listing was, but for offsets. A text that is
/// no listing, or whose items have no bytes, has no binary, and one with more bytes than a binary may keep is not
/// compared.
pub fn other_as_binary(
    alloc: Global,
    question: &Question<'_>,
    text: &[u8],
    answer: &str,
) -> Result<Option<String>, AllocError> {
    let Ok(listing) = read_listing(alloc, text) else {
        return Ok(None);
    };
    let other = answer_as_binary(alloc, question, &listing)?;
    drop(listing);
    let other = match other {
        Some(other) if !is_too_long(other.as_str()) => other,
        _ => return Ok(None),
    };
    if without_offset(alloc, other.as_str())? != without_offset(alloc, answer)? {
        return Ok(Some(other));
    }
    Ok(None)
}
