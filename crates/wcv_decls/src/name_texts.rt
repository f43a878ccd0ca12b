// Texts of names of imports and of exports.
ghost use Rattle.std.specs.Prelude.{OnOk, IfErr, option_to_list};
ghost use Rattle.wcv_lower.specs.Checks.{IsFree, texts_of, too_long, each_too_long};
ghost use Rattle.wcv_lower.specs.Entries.{extern_name};
ghost use Rattle.wcv_spaces.specs.Promises.{MemoryOrCausedBy};

use wcv_core::limits::MAX_TEXT;
use wcv_core::{Error, ErrorKind, Refusal, Text, Why};
use wcv_syntax::ComponentExternName;

/// Whether a text of an item is not too long. What it is called is for the message.
pub fn check_text<'a>(text: &'a Text, called: &'static str, offset: u64) -> Result<(), Refusal<'a>>
    ensures ok { OnOk result (IsFree (too_long text.now)) }
    ensures err { IfErr result (MemoryOrCausedBy (too_long text.now) offset) }
{
    if text.as_str().len() > MAX_TEXT {
        let bytes = text.as_str().len() as u64;
        let why = Why::new("%w `%n` has %1 bytes, at most %2 are allowed");
        let why = why.word(called).name(text.as_str());
        let why = why.numbers([bytes, MAX_TEXT as u64, 0]);
        return Err(Error::new(ErrorKind::Limit, offset, why));
    }
    Ok(())
}

/// So of a text that may be there.
fn check_option(text: &Option<Text>, offset: u64) -> Result<(), Refusal<'_>>
    ensures ok { OnOk result (IsFree (each_too_long (option_to_list text.now))) }
    ensures err { IfErr result (MemoryOrCausedBy (each_too_long (option_to_list text.now)) offset) }
{
    match text {
        Some(text) => check_text(text, "text beside a name", offset),
        None => Ok(()),
    }
}

/// So of the texts of the name of an import or an export.
#[tactic(auto, using(crate::proofs::Texts::texts_both, crate::proofs::Texts::caused_first, crate::proofs::Texts::caused_later))]
pub fn check_name<'a>(
    name: &'a ComponentExternName,
    called: &'static str,
    offset: u64,
) -> Result<(), Refusal<'a>>
    ensures ok { OnOk result (IsFree (each_too_long (texts_of (extern_name name.now)))) }
    ensures err { IfErr result (MemoryOrCausedBy (each_too_long (texts_of (extern_name name.now))) offset) }
{
    check_text(&name.name, called, offset)?;
    check_option(&name.implements, offset)?;
    check_option(&name.version_suffix, offset)?;
    check_option(&name.external_id, offset)
}
