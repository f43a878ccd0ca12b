// The beginning of a name, for messages.
use std::fmt;

const LONGEST: usize = 64;

/// Shows at most the first 64 bytes of a text, cut at a character, and `..` where it was cut. A character
/// that is not seen, or that changes the line or the order of what is seen, is shown as the replacement
/// character: so a message stays one line.
#[derive(Clone, Copy)]
pub struct Excerpt<'a>(pub &'a str);

/// Whether the character is not seen, or changes the line or the order of what is seen.
fn is_hidden(c: char) -> bool {
    c.is_control()
        || matches!(c, '\u{200b}'..='\u{200f}' | '\u{2028}'..='\u{202e}' | '\u{2066}'..='\u{2069}' | '\u{feff}')
}

impl fmt::Display for Excerpt<'_> {
    fn fmt<W: fmt::Write>(&self, f: &mut fmt::Formatter<W>) -> fmt::Result {
        let mut room = LONGEST;
        for c in self.0.chars() {
            let width = c.len_utf8();
            if width > room {
                return f.write_str("..");
            }
            room -= width;
            f.write_char(if is_hidden(c) { '\u{fffd}' } else { c })?;
        }
        Ok(())
    }
}
