// What comes of a component that is varied.
use crate::answer::answer_on;
use crate::question::Question;
use crate::sections::{Spelling, ends_whole, is_number, spelled};
use std::alloc::{AllocError, Global};

/// What comes of these parts, where that is not a fault at the offset where it is due.
fn answer_but_fault(
    alloc: Global,
    question: &Question<'_>,
    parts: &[&str],
    spelling: Spelling,
) -> Result<Option<String>, AllocError> {
    let (bytes, at) = spelled(alloc, parts, spelling)?;
    let answer = answer_on(alloc, question, bytes)?;
    let due = format!(in alloc; "3\nbad binary at {at}\n")?;
    if answer.starts_with(due.as_str()) {
        return Ok(None);
    }
    Ok(Some(answer))
}

/// What comes of a component with a number that is too long or too large, where that is no fault there.
fn answer_with_number(
    alloc: Global,
    question: &Question<'_>,
    parts: &[&str],
) -> Result<Option<String>, AllocError> {
    for (k, part) in parts.iter().enumerate() {
        if is_number(part) {
            if let Some(other) = answer_but_fault(alloc, question, parts, Spelling::TooLong(k))? {
                return Ok(Some(format!(in alloc; "with part {k} too long: {other}")?));
            }
            if let Some(other) = answer_but_fault(alloc, question, parts, Spelling::TooLarge(k))? {
                return Ok(Some(format!(in alloc; "with part {k} too large: {other}")?));
            }
        }
    }
    Ok(None)
}

/// What comes of a component that ends inside a section, where that is no fault at its end.
fn answer_on_beginnings(
    alloc: Global,
    question: &Question<'_>,
    parts: &[&str],
) -> Result<Option<String>, AllocError> {
    for len in 1..parts.len() {
        let (first, rest) = parts.split_at(len);
        if !ends_whole(first, rest) {
            if let Some(other) = answer_but_fault(alloc, question, first, Spelling::Shortest)? {
                return Ok(Some(format!(in alloc; "of the first {len} parts: {other}")?));
            }
        }
    }
    Ok(None)
}

/// The answer on a component as it stands, if the same comes with its numbers in their longest forms, and a fault
/// with each of them too long, with each too large, and of each beginning. Else what comes in place of that.
pub fn answer_varied(
    alloc: Global,
    question: &Question<'_>,
    parts: &[&str],
) -> Result<String, AllocError> {
    let (bytes, _) = spelled(alloc, parts, Spelling::Shortest)?;
    let answer = answer_on(alloc, question, bytes)?;
    let (bytes, _) = spelled(alloc, parts, Spelling::Longest)?;
    let other = answer_on(alloc, question, bytes)?;
    if other != answer {
        return format!(in alloc; "with longest numbers: {other}");
    }
    if let Some(other) = answer_with_number(alloc, question, parts)? {
        return Ok(other);
    }
    match answer_on_beginnings(alloc, question, parts)? {
        Some(other) => Ok(other),
        None => Ok(answer),
    }
}
