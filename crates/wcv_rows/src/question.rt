// What a row asks.
use crate::sections::{Spelling, spelled};
use std::alloc::{AllocError, Global};
use std::mem::replace;

/// How a listing begins.
const HEAD: &str = "{\"version\":1,\"items\":[";

/// The words of a run, the listing, the bytes of a binary or the parts of one, whether beginnings are asked for or
/// all that is varied, and which reads and writes fail.
#[derive(Drop)]
pub struct Question<'a> {
    words: &'a str,
    has_words: bool,
    text: String,
    is_whole: bool,
    bytes: Vec<u8>,
    is_binary: bool,
    parts: Vec<&'a str>,
    is_cut: bool,
    is_varied: bool,
    features: &'a str,
    end: &'a str,
    items: u64,
    at: Option<&'a str>,
    reads: &'a str,
    writes: &'a str,
}

impl<'a> Question<'a> {
    /// A listing of no items, and no bytes.
    pub fn new(alloc: Global) -> Question<'a> {
        Question {
            words: "validate",
            has_words: false,
            text: String::new(alloc),
            is_whole: false,
            bytes: Vec::new(alloc),
            is_binary: false,
            parts: Vec::new(alloc),
            is_cut: false,
            is_varied: false,
            features: "",
            end: "99",
            items: 0,
            at: None,
            reads: "",
            writes: "",
        }
    }

    /// One line of a row: a word, and what stands behind it.
    pub fn push_line(&mut self, line: &'a str) -> Result<(), AllocError> {
        let (word, rest) = line.split_once(' ').unwrap_or((line, ""));
        match word {
            "" => {}
            "words" => {
                self.words = rest;
                self.has_words = true;
            }
            "features" => self.features = rest,
            "end" => self.end = rest,
            "reads" => self.reads = rest,
            "writes" => self.writes = rest,
            "beginnings" => self.is_cut = true,
            "varied" => self.is_varied = true,
            "listing" => return self.push_text(rest),
            "bytes" => return self.push_bytes(rest),
            "sections" => return self.push_sections(rest),
            _ => return self.push_item(word, rest),
        }
        Ok(())
    }

    /// One line of a listing's own text.
    fn push_text(&mut self, line: &str) -> Result<(), AllocError> {
        if self.is_whole {
            self.text.push_str("\n")?;
        }
        self.is_whole = true;
        self.text.push_str(line)
    }

    /// More bytes of a binary, each as two hexadecimal digits.
    fn push_bytes(&mut self, line: &str) -> Result<(), AllocError> {
        self.is_binary = true;
        for word in line.split(' ') {
            if let Ok(byte) = u8::from_str_radix(word, 16) {
                self.bytes.push(byte)?;
            }
        }
        Ok(())
    }

    /// More sections of a binary, by their parts.
    fn push_sections(&mut self, line: &'a str) -> Result<(), AllocError> {
        self.is_binary = true;
        for part in line.split(' ') {
            self.parts.push(part)?;
        }
        Ok(())
    }

    /// One more item, by its form, with its offset behind `@` if it is not its position, and its body.
    fn push_item(&mut self, form: &'a str, body: &str) -> Result<(), AllocError> {
        self.text
            .push_str(if self.items == 0 { HEAD } else { ",\n" })?;
        match form.split_once('@') {
            Some((form, at)) => {
                self.at = Some(at);
                write!(self.text, "{{\"at\":{at},\"{form}\":{body}}}")?;
            }
            None => {
                let at = self.items;
                self.at = None;
                write!(self.text, "{{\"at\":{at},\"{form}\":{body}}}")?;
            }
        }
        self.items = self.items.saturating_add(1);
        Ok(())
    }

    /// Ends the listing.
    pub fn finish(&mut self) -> Result<(), AllocError> {
        if self.is_whole {
            return Ok(());
        }
        if self.items == 0 {
            self.text.push_str(HEAD)?;
        }
        let end = self.end;
        write!(self.text, "],\"end\":{end}")?;
        if !self.features.is_empty() {
            let features = self.features;
            write!(self.text, ",\"features\":{features}")?;
        }
        self.text.push_str("}")
    }

    /// The words: `validate-binary` for bytes and `validate` for a listing, where the row names none.
    pub fn words(&self) -> &str {
        if self.is_binary && !self.has_words {
            return "validate-binary";
        }
        self.words
    }

    /// Whether a listing is validated, and nothing fails.
    pub fn is_usual(&self) -> bool {
        !self.has_words && self.reads.is_empty() && self.writes.is_empty()
    }

    pub fn reads(&self) -> &str {
        self.reads
    }

    pub fn writes(&self) -> &str {
        self.writes
    }

    /// The offset at which a refusal is due: that which stands behind ` at `, or else that of the last item. `!` is
    /// that of the byte before which it stands among the parts of a binary.
    pub fn offset(&self, alloc: Global, due: &str) -> Result<String, AllocError> {
        let (first, _) = due.split_once('\n').unwrap_or((due, ""));
        let named = first.split_once(" at ").map(|(_, at)| at);
        match named.or(self.at) {
            Some("end") => String::from_str(alloc, self.end),
            Some("!") => self.marked(alloc),
            Some(at) => String::from_str(alloc, at),
            None => self.items.saturating_sub(1).to_string(alloc),
        }
    }

    /// The offset of the byte that is marked among the parts of a binary.
    fn marked(&self, alloc: Global) -> Result<String, AllocError> {
        let (_, at) = spelled(alloc, &self.parts, Spelling::Shortest)?;
        at.to_string(alloc)
    }

    /// Whether each proper beginning of the listing is asked for, in place of the listing.
    pub fn is_cut(&self) -> bool {
        self.is_cut
    }

    /// Whether bytes of a binary were given.
    pub fn is_binary(&self) -> bool {
        self.is_binary
    }

    /// The parts of a binary that are to be varied, if they are.
    pub fn varied(&self) -> Option<&[&'a str]> {
        if self.is_varied {
            return Some(&self.parts);
        }
        None
    }

    /// The bytes of the binary, which it has no more then.
    pub fn take_binary(&mut self, alloc: Global) -> Result<Vec<u8>, AllocError> {
        if self.parts.is_empty() {
            return Ok(replace(&mut self.bytes, Vec::new(alloc)));
        }
        let (bytes, _) = spelled(alloc, &self.parts, Spelling::Shortest)?;
        Ok(bytes)
    }

    /// The bytes of the listing, which it has no more then.
    pub fn take_listing(&mut self, alloc: Global) -> Vec<u8> {
        replace(&mut self.text, String::new(alloc)).into_bytes()
    }
}
