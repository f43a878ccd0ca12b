// Labels.
ghost use Rattle.std.specs.Prelude.{◌≡◌, ◌↔◌, IfOk, IfSome, IsSome, IsNone, length, true};
ghost use Rattle.std.specs.List.{list_all};
ghost use Rattle.wcv_core.specs.Dashes.{IsPlain, IsFirstDash};
ghost use Rattle.wcv_core.specs.Label.{is_label as is_label_text, words, is_word as is_word_text, is_lower_or_digit, is_upper_or_digit, begins_with_letter};

use crate::memory::OutOfMemory;
use crate::text::Text;
use std::alloc::Global;

/// Whether the byte is a lower-case letter or a digit.
fn is_lower_byte(b: u8) -> bool
    ensures { result ≡ is_lower_or_digit b }
{
    b.is_ascii_lowercase() || b.is_ascii_digit()
}

/// Whether the byte is an upper-case letter or a digit.
fn is_upper_byte(b: u8) -> bool
    ensures { result ≡ is_upper_or_digit b }
{
    b.is_ascii_uppercase() || b.is_ascii_digit()
}

/// Whether all are lower-case letters or digits.
fn are_lower(bytes: &[u8]) -> bool
    ensures { result ≡ list_all is_lower_or_digit bytes.now }
{
    bytes.iter().all(|b| is_lower_byte(*b))
}

/// Whether all are upper-case letters or digits.
fn are_upper(bytes: &[u8]) -> bool
    ensures { result ≡ list_all is_upper_or_digit bytes.now }
{
    bytes.iter().all(|b| is_upper_byte(*b))
}

/// Whether the bytes are one word of a label: letters of one case, and digits.
fn is_word(bytes: &[u8]) -> bool
    ensures { result ≡ is_word_text bytes.now }
{
    !bytes.is_empty() && (are_lower(bytes) || are_upper(bytes))
}

/// The place of the first dash.
fn dash_at(bytes: &[u8]) -> Option<usize>
    ensures found { IfSome result (λ i. IsFirstDash bytes.now i) }
    ensures none { IsNone result → IsPlain bytes.now (length bytes.now) }
{
    for (i, b) in bytes.iter().enumerate() {
        if *b == b'-' {
            return Some(i);
        }
    }
    None
}

/// Whether each part between dashes is a word.
fn are_words(bytes: &[u8]) -> bool
    ensures { result ≡ list_all is_word_text (words bytes.now) }
{
    let mut start = 0;
    while let Some(width) = dash_at(&bytes[start..]) {
        if !is_word(&bytes[start..start + width]) {
            return false;
        }
        start += width + 1;
    }
    is_word(&bytes[start..])
}

/// Whether the first byte is a letter.
fn is_letter_first(bytes: &[u8]) -> bool
    ensures { result ≡ begins_with_letter bytes.now }
{
    match bytes.first() {
        Some(b) => b.is_ascii_alphabetic(),
        None => false,
    }
}

/// Whether the text is a label of the component model's text grammar: one or more words joined by
/// single dashes, where a word is ASCII letters of one case and digits, and the first word begins
/// with a letter.
pub fn is_label(name: &str) -> bool
    ensures { result ≡ is_label_text name.now }
{
    let bytes = name.as_bytes();
    is_letter_first(bytes) && are_words(bytes)
}

/// A label.
#[derive(Drop)]
pub struct KebabString {
    text: Text,
}

impl KebabString {
    ghost use Rattle.wcv_core.specs.Kebab.{label_of};

    /// The text as a label, or `None` exactly where it is none.
    pub fn new(alloc: Global, s: &str) -> Result<Option<KebabString>, OutOfMemory>
        ensures label { IfOk result (λ label. IsSome label ↔ (is_label_text s.now ≡ true)) }
        ensures text { IfOk result (λ label. IfSome label (λ l. label_of l ≡ s.now)) }
    {
        if !is_label(s) {
            return Ok(None);
        }
        let text = Text::new(alloc, s)?;
        Ok(Some(KebabString { text }))
    }

    /// The label, as it is written.
    pub fn as_str(&self) -> &str
        ensures { result.now ≡ label_of self.now }
    {
        self.text.as_str()
    }
}
