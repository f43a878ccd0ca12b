// What is wrong with a name that is no label, for messages.
use crate::kebab::is_label;
use arrayvec::ArrayString;
use std::fmt;

/// The longest name for which a label is looked for, and the longest label that is shown, in bytes.
const LONGEST_NAME: usize = 64;

const LONGEST_LABEL: usize = 80;

/// Shows which rule of labels a text breaks that is none, and a label that is near to it, if one is found.
#[derive(Clone, Copy)]
pub struct Slip<'a>(pub &'a str);

fn is_label_byte(b: u8) -> bool {
    b.is_ascii_alphanumeric() || b == b'-'
}

/// Whether the byte stands between two words in other ways of writing names.
fn is_gap(b: u8) -> bool {
    matches!(b, b'-' | b'_' | b'.' | b' ')
}

/// Whether a dash stands where no word follows it.
fn has_bare_dash(bytes: &[u8]) -> bool {
    let mut before = b'a';
    for b in bytes {
        if before == b'-' && *b == b'-' {
            return true;
        }
        before = *b;
    }
    before == b'-'
}

/// The rule that a text breaks which is no label.
fn broken_rule(bytes: &[u8]) -> &'static str {
    match bytes.first() {
        None => "it is empty",
        Some(first) => {
            if bytes.iter().any(|b| !is_label_byte(*b)) {
                "ASCII letters, digits and `-` alone may stand in it"
            } else if !first.is_ascii_alphabetic() {
                "it must begin with a letter"
            } else if has_bare_dash(bytes) {
                "a word must follow each `-`"
            } else {
                "the letters of a word must have one case"
            }
        }
    }
}

/// Whether a word begins with the byte, by the bytes around it.
fn begins_word(before: u8, b: u8, after: u8) -> bool {
    is_gap(before)
        || (b.is_ascii_uppercase() && (!before.is_ascii_uppercase() || after.is_ascii_lowercase()))
}

/// The words of the name in lower case, joined by dashes. None where a byte stands in no word.
fn joined_words(bytes: &[u8]) -> Option<ArrayString<LONGEST_LABEL>> {
    let mut label = ArrayString::new();
    let mut before = b'-';
    for (i, b) in bytes.iter().enumerate() {
        if b.is_ascii_alphanumeric() {
            let after = bytes.get(i.saturating_add(1)).copied().unwrap_or(b'-');
            if begins_word(before, *b, after) && !label.is_empty() {
                label.try_push('-').ok()?;
            }
            label.try_push(b.to_ascii_lowercase() as char).ok()?;
        } else if !is_gap(*b) {
            return None;
        }
        before = *b;
    }
    Some(label)
}

impl fmt::Display for Slip<'_> {
    fn fmt<W: fmt::Write>(&self, f: &mut fmt::Formatter<W>) -> fmt::Result {
        let bytes = self.0.as_bytes();
        f.write_str(broken_rule(bytes))?;
        if bytes.len() > LONGEST_NAME {
            return Ok(());
        }
        match joined_words(bytes) {
            Some(label) if is_label(label.as_str()) => {
                f.write_str("; `")?;
                f.write_str(label.as_str())?;
                f.write_str("` is a label")
            }
            _ => Ok(()),
        }
    }
}
