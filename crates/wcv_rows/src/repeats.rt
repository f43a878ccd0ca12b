// Texts in which marks give way to others.
use std::alloc::{AllocError, Global};

/// Appends a text in which each mark gives way to another text.
pub fn push_with(
    whole: &mut String,
    text: &str,
    mark: &str,
    other: &str,
) -> Result<(), AllocError> {
    for (k, part) in text.split(mark).enumerate() {
        if k > 0 {
            whole.push_str(other)?;
        }
        whole.push_str(part)?;
    }
    Ok(())
}

/// Appends a text so many times, with another between. `#` gives way to the number of the time, from 0 on.
fn push_times(
    alloc: Global,
    whole: &mut String,
    text: &str,
    between: &str,
    count: u64,
) -> Result<(), AllocError> {
    let is_numbered = text.find('#').is_some();
    for k in 0..count {
        if k > 0 {
            whole.push_str(between)?;
        }
        if is_numbered {
            let number = k.to_string(alloc)?;
            push_with(whole, text, "#", number.as_str())?;
        } else {
            whole.push_str(text)?;
        }
    }
    Ok(())
}

/// Appends what `COUNT|BETWEEN|TEXT` stands for.
fn push_repeat(alloc: Global, whole: &mut String, words: &str) -> Result<(), AllocError> {
    let (count, rest) = words.split_once('|').unwrap_or((words, ""));
    let (between, text) = rest.split_once('|').unwrap_or(("", rest));
    match count.parse::<u64>() {
        Ok(count) => push_times(alloc, whole, text, between, count),
        Err(_) => whole.push_str(words),
    }
}

/// A text in which each `<<COUNT|BETWEEN|TEXT>>` gives way to what it stands for.
pub fn expanded(alloc: Global, text: &str) -> Result<String, AllocError> {
    let mut whole = String::new(alloc);
    for (k, part) in text.split("<<").enumerate() {
        match part.split_once(">>") {
            Some((words, rest)) if k > 0 => {
                push_repeat(alloc, &mut whole, words)?;
                whole.push_str(rest)?;
            }
            _ => whole.push_str(part)?,
        }
    }
    Ok(whole)
}
