// What a row says is due, and whether it came.
use std::alloc::{AllocError, Global};

/// The index spaces, in the order of a report.
const SPACES: [&str; 13] = [
    "core-types",
    "core-funcs",
    "core-tags",
    "core-modules",
    "core-instances",
    "core-memories",
    "core-tables",
    "core-globals",
    "types",
    "funcs",
    "values",
    "instances",
    "components",
];

/// The number that stands behind a name in a list such as `types 2, funcs 1`, or 0.
fn count_of<'a>(counts: &'a str, name: &str) -> &'a str {
    for part in counts.split(", ") {
        if let Some((other, count)) = part.split_once(' ') {
            if other == name {
                return count;
            }
        }
    }
    "0"
}

/// The answer on a valid root with so many items in its spaces, whose report ends with these lines.
fn accepted(alloc: Global, counts: &str, lines: &str) -> Result<String, AllocError> {
    let mut text = String::from_str(alloc, "0\naccepted\n")?;
    for name in SPACES {
        let count = count_of(counts, name);
        writeln!(text, "{name} {count}")?;
    }
    if !lines.is_empty() {
        writeln!(text, "{lines}")?;
    }
    Ok(text)
}

/// The whole answer where it is due as it stands: that on a valid root, that on bytes that are no listing, or a
/// status and a text.
pub fn whole_answer(alloc: Global, due: &str) -> Result<Option<String>, AllocError> {
    let (first, lines) = due.split_once('\n').unwrap_or((due, ""));
    if let Some(counts) = first.strip_prefix("accepted") {
        return Ok(Some(accepted(alloc, counts.trim_start(), lines)?));
    }
    if first == "NotJson" {
        return Ok(Some(String::from_str(alloc, "3\nbad listing: not JSON\n")?));
    }
    if first == "WrongWords" {
        let usage = "2\nusage: wcv validate, wcv link TURNS or wcv make N\n";
        return Ok(Some(String::from_str(alloc, usage)?));
    }
    if let Some(at) = first.strip_prefix("BadShape at ") {
        return Ok(Some(format!(in alloc; "3\nbad listing at {at}\n")?));
    }
    match first.strip_prefix("status ") {
        Some(code) if lines.is_empty() => Ok(Some(format!(in alloc; "{code}\n")?)),
        Some(code) => Ok(Some(format!(in alloc; "{code}\n{lines}\n")?)),
        None => Ok(None),
    }
}

/// Whether the answer begins so and ends with this message, or with any one line if none is due.
fn is_told(first: &str, message: &str, answer: &str) -> bool {
    let rest = answer.strip_prefix(first).unwrap_or("");
    match rest.strip_suffix('\n') {
        Some(line) if message.is_empty() => line.find('\n').is_none(),
        Some(line) => line == message,
        None => false,
    }
}

/// Whether the answer is `ok`, as any on a valid root, a refusal of one of the kinds that are due, or a fault of a
/// binary.
pub fn is_short_answer(
    alloc: Global,
    due: &str,
    offset: &str,
    answer: &str,
) -> Result<bool, AllocError> {
    let (first, message) = due.split_once('\n').unwrap_or((due, ""));
    if first == "ok" {
        return Ok(answer.starts_with("0\naccepted\n"));
    }
    let (kinds, _) = first.split_once(" at ").unwrap_or((first, ""));
    for kind in kinds.split('|') {
        let first = match kind {
            "BadBinary" => format!(in alloc; "3\nbad binary at {offset}\n")?,
            "Unsupported" => format!(in alloc; "3\nunsupported at {offset}\n")?,
            _ => format!(in alloc; "1\nrefused {kind} at {offset}\n")?,
        };
        if is_told(first.as_str(), message, answer) {
            return Ok(true);
        }
    }
    Ok(false)
}

/// The first line of one text that the other has not, and what the other has in its place.
pub fn first_difference<'a>(due: &'a str, came: &'a str) -> (&'a str, &'a str) {
    let mut lines = came.split('\n');
    for line in due.split('\n') {
        match lines.next() {
            Some(other) if other == line => {}
            Some(other) => return (line, other),
            None => return (line, "the end"),
        }
    }
    ("the end", lines.next().unwrap_or("the end"))
}
