// The lines of resources and their paths.
ghost use Rattle.std.specs.Prelude.{◌≡◌, ◌++◌, [], codes, string_bytes, OnOk};
ghost use Rattle.std.specs.Fmt.{decimal};
ghost use Rattle.wcv_types.specs.Text.{positions_text};
ghost use Rattle.wcv_text.specs.Entries.{write_path};
ghost use Rattle.wcv_text.specs.Numbers.{Writes};

use crate::mentions::separator_at;
use crate::numbers::Numbers;
use std::alloc::AllocError;
use std::fmt::Write;
use wcv_types::ResourceId;

/// Appends positions with commas between them.
fn push_positions(text: &mut String, positions: &[u64]) -> Result<(), AllocError>
    ensures { OnOk result (string_bytes text.new ≡ string_bytes text.old ++ positions_text [] positions.now) }
{
    for (index, position) in positions.iter().enumerate() {
        let before = separator_at(",", index);
        write!(text, "{before}{position}")?;
    }
    Ok(())
}

/// Appends a resource by its number and its path behind a word.
pub fn push_path_text(
    text: &mut String,
    word: &str,
    number: usize,
    positions: &[u64],
) -> Result<(), AllocError>
    ensures { OnOk result (string_bytes text.new ≡ string_bytes text.old ++ (word.now ++ codes "r" ++ decimal number ++ codes " [" ++ positions_text [] positions.now ++ codes "]")) }
{
    write!(text, "{word}r{number} [")?;
    push_positions(text, positions)?;
    text.push_str("]")
}

/// Appends the line of a resource and its path behind a word. The resource gets a number where it has none.
pub fn push_path(
    text: &mut String,
    numbers: &mut Numbers<'_>,
    word: &str,
    resource: ResourceId,
    positions: &[u64],
) -> Result<(), AllocError>
    ensures { OnOk result (Writes numbers.old (string_bytes text.old) numbers.new (string_bytes text.new) (write_path word.now (resource, positions.now))) }
{
    let number = numbers.resource(resource)?;
    push_path_text(text, word, number, positions)?;
    text.push_str("\n")
}
