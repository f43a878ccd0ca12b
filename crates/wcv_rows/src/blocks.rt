// The blocks of a file: rows, tables of rows, and remarks.
use crate::answer::{answer, answer_listing};
use crate::due::{first_difference, is_short_answer, whole_answer};
use crate::question::Question;
use crate::repeats::{expanded, push_with};
use crate::tally::Tally;
use std::alloc::{AllocError, Global};

/// The answer on a row of these lines, and the offset at which a refusal is due.
fn answer_lines(alloc: Global, lines: &str, due: &str) -> Result<(String, String), AllocError> {
    let mut question = Question::new(alloc);
    for line in lines.split('\n') {
        question.push_line(line)?;
    }
    question.finish()?;
    let offset = question.offset(alloc, due)?;
    Ok((answer(alloc, &mut question)?, offset))
}

/// Runs a row of these lines, which have a binary and a listing that are to be answered alike.
fn run_alike(tally: &mut Tally, title: &str, lines: &str) -> Result<(), AllocError> {
    let alloc = tally.alloc();
    let mut question = Question::new(alloc);
    for line in lines.split('\n') {
        question.push_line(line)?;
    }
    let listed = answer_listing(alloc, &mut question)?;
    let answer = answer(alloc, &mut question)?;
    if listed == answer {
        return Ok(());
    }
    let (due, came) = first_difference(listed.as_str(), answer.as_str());
    tally.tell(title, "", due, came)
}

/// Runs a row of these lines, and tells by its title and what it asks if another answer comes than the one that
/// is due.
fn run_row(
    tally: &mut Tally,
    title: &str,
    asked: &str,
    lines: &str,
    due: &str,
) -> Result<(), AllocError> {
    let alloc = tally.alloc();
    tally.count();
    let lines = expanded(alloc, lines)?;
    let due = expanded(alloc, due)?;
    let due = due.as_str();
    if due == "alike" {
        return run_alike(tally, title, lines.as_str());
    }
    let (answer, offset) = answer_lines(alloc, lines.as_str(), due)?;
    if let Some(whole) = whole_answer(alloc, due)? {
        if whole == answer {
            return Ok(());
        }
        let (due, came) = first_difference(whole.as_str(), answer.as_str());
        return tally.tell(title, asked, due, came);
    }
    if is_short_answer(alloc, due, offset.as_str(), answer.as_str())? {
        return Ok(());
    }
    tally.tell(title, asked, due, answer.trim_end())
}

/// Runs a line of a table: its items stand in a template, for `%`, and are parted by ` ; `.
fn run_line(
    tally: &mut Tally,
    title: &str,
    features: &str,
    template: &str,
    line: &str,
) -> Result<(), AllocError> {
    let (asked, due) = line.split_once(" => ").unwrap_or((line, ""));
    let (features, item) = asked.split_once(" | ").unwrap_or((features, asked));
    let mut items = String::new(tally.alloc());
    push_with(&mut items, template, "%", item)?;
    let mut lines = String::new(tally.alloc());
    if !features.is_empty() {
        writeln!(lines, "features {features}")?;
    }
    push_with(&mut lines, items.as_str(), " ; ", "\n")?;
    run_row(tally, title, items.as_str(), lines.as_str(), due)
}

/// Runs a line of a table in each of the table's templates, or by itself if it has none.
fn run_in_templates(
    tally: &mut Tally,
    title: &str,
    features: &str,
    lines: &str,
    line: &str,
) -> Result<(), AllocError> {
    let mut has_template = false;
    for other in lines.split('\n') {
        if let Some(template) = other.strip_prefix("in ") {
            has_template = true;
            run_line(tally, title, features, template, line)?;
        }
    }
    if has_template {
        return Ok(());
    }
    run_line(tally, title, features, "%", line)
}

/// The features of a table, if it names any.
fn features_of(lines: &str) -> &str {
    for line in lines.split('\n') {
        if let Some(features) = line.strip_prefix("features ") {
            return features;
        }
    }
    ""
}

/// Runs the lines of a table.
fn run_table(tally: &mut Tally, title: &str, lines: &str) -> Result<(), AllocError> {
    let features = features_of(lines);
    for line in lines.split('\n') {
        if !line.starts_with("features ") && !line.starts_with("in ") {
            run_in_templates(tally, title, features, lines, line)?;
        }
    }
    Ok(())
}

/// Runs a row or the lines of a table. A remark is passed over.
fn run_block(tally: &mut Tally, block: &str) -> Result<(), AllocError> {
    let (head, lines) = block.split_once('\n').unwrap_or((block, ""));
    if let Some(title) = head.strip_prefix("table ") {
        return run_table(tally, title, lines);
    }
    if let Some(title) = head.strip_prefix("row ") {
        let (lines, due) = block.split_once("\n=> ").unwrap_or((block, ""));
        let (_, lines) = lines.split_once('\n').unwrap_or((lines, ""));
        return run_row(tally, title, "", lines, due);
    }
    if head.starts_with("# ") {
        return Ok(());
    }
    tally.count();
    tally.tell("no row", "", "`row ..`, `table ..` or `# ..`", head)
}

/// Runs the blocks of a file, which are parted by blank lines.
pub fn run_blocks(tally: &mut Tally, text: &str) -> Result<(), AllocError> {
    for block in text.trim().split("\n\n") {
        run_block(tally, block.trim())?;
    }
    Ok(())
}
