// What a run answers.
use crate::question::Question;
use crate::second::other_as_binary;
use crate::varied::answer_varied;
use std::alloc::{AllocError, Global};
use wcv_main::{MemorySink, MemorySource, Words, run};

/// The words of a line, parted by single spaces.
fn words_of(alloc: Global, line: &str) -> Result<Words, AllocError> {
    let mut words = Words::new(alloc);
    if !line.is_empty() {
        for word in line.split(' ') {
            words.push(word).ok().ok_or(AllocError)?;
        }
    }
    Ok(words)
}

/// The numbers of a line, parted by single spaces.
fn numbers_of(alloc: Global, line: &str) -> Result<Vec<u64>, AllocError> {
    let mut numbers = Vec::new(alloc);
    for word in line.split(' ') {
        if let Ok(number) = word.parse() {
            numbers.push(number)?;
        }
    }
    Ok(numbers)
}

/// The status that a run ends with.
fn code_of(alloc: Global, words: &Words, source: &mut MemorySource, sink: &mut MemorySink) -> u8 {
    run(alloc, words, source, sink).code()
}

/// The status that a run with these words on these bytes ends with, as a line, and the text that it writes.
pub fn answer_with(
    alloc: Global,
    question: &Question<'_>,
    words: &str,
    bytes: Vec<u8>,
) -> Result<String, AllocError> {
    let words = words_of(alloc, words)?;
    let reads = numbers_of(alloc, question.reads())?;
    let mut sink = MemorySink::new(alloc, numbers_of(alloc, question.writes())?);
    let mut source = MemorySource::new(bytes, reads);
    let code = code_of(alloc, &words, &mut source, &mut sink);
    let text = String::from_utf8_lossy(alloc, sink.taken())?;
    format!(in alloc; "{code}\n{text}")
}

/// What comes of these bytes with the row's own words.
pub fn answer_on(
    alloc: Global,
    question: &Question<'_>,
    bytes: Vec<u8>,
) -> Result<String, AllocError> {
    answer_with(alloc, question, question.words(), bytes)
}

/// The answer that comes of no bytes and of each other proper beginning of these, or else what another one comes
/// of.
fn answer_on_beginnings(
    alloc: Global,
    question: &Question<'_>,
    bytes: &[u8],
) -> Result<String, AllocError> {
    let answer = answer_on(alloc, question, Vec::new(alloc))?;
    for len in 1..bytes.len() {
        let beginning = bytes.get(..len).unwrap_or(bytes).to_vec(alloc)?;
        let other = answer_on(alloc, question, beginning)?;
        if other != answer {
            return format!(in alloc; "of the first {len} bytes: {other}");
        }
    }
    Ok(answer)
}

/// The status and the text that come of the listing, or of the binary where there is one, varied where that is
/// asked for, or of the proper beginnings where these are. A listing is asked a second time as a binary of the same items: where that
/// is answered otherwise, this is what came.
pub fn answer(alloc: Global, question: &mut Question<'_>) -> Result<String, AllocError> {
    if let Some(parts) = question.varied() {
        return answer_varied(alloc, question, parts);
    }
    if question.is_binary() {
        let bytes = question.take_binary(alloc)?;
        return answer_on(alloc, question, bytes);
    }
    let text = question.take_listing(alloc);
    if question.is_cut() {
        return answer_on_beginnings(alloc, question, &text);
    }
    if !question.is_usual() {
        return answer_on(alloc, question, text);
    }
    let answer = answer_on(alloc, question, text.to_vec(alloc)?)?;
    match other_as_binary(alloc, question, &text, answer.as_str())? {
        Some(other) => format!(in alloc; "as a binary: {other}"),
        None => Ok(answer),
    }
}

/// What comes of the listing with the word `validate`.
pub fn answer_listing(alloc: Global, question: &mut Question<'_>) -> Result<String, AllocError> {
    let listing = question.take_listing(alloc);
    answer_with(alloc, question, "validate", listing)
}
