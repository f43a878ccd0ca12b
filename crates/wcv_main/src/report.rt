// The first lines of the report on a valid root.
ghost use Rattle.std.specs.Prelude.{◌≡◌, ◌++◌, length, string_bytes, OnOk, map};
ghost use Rattle.wcv_main.specs.Report.{length_line, length_lines, report};

use std::alloc::AllocError;

// Appends the name of an index space and how many items it has, as one line.
fn push_length(text: &mut String, name: &str, count: u64) -> Result<(), AllocError>
    ensures { OnOk result (string_bytes text.new ≡ string_bytes text.old ++ length_line name.now count) }
{
    writeln!(text, "{name} {count}")
}

// Appends a line for each name and its count.
fn push_lengths(text: &mut String, names: &[&str], counts: &[u64]) -> Result<(), AllocError>
    requires { length names.now ≡ length counts.now }
    ensures { OnOk result (string_bytes text.new ≡ string_bytes text.old ++ length_lines (map (λ name. name.now) names.now) counts.now) }
{
    for k in 0..names.len() {
        push_length(text, names[k], counts[k])?;
    }
    Ok(())
}

/// Appends the report's first 14 lines: that the root is accepted, and the number of items in each
/// of its thirteen index spaces.
pub fn push_report(text: &mut String, counts: &[u64; 13]) -> Result<(), AllocError>
    ensures { OnOk result (string_bytes text.new ≡ string_bytes text.old ++ report counts.now) }
{
    text.push_str("accepted\n")?;
    push_lengths(
        text,
        &[
            "core-types",
            "core-funcs",
            "core-tags",
            "core-modules",
            "core-instances",
            "core-memories",
            "core-tables",
            "core-globals",
            "types",
            "funcs",
            "values",
            "instances",
            "components",
        ],
        counts,
    )
}
