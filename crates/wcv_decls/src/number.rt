// Numbers of labels.
ghost use Rattle.std.specs.Prelude.{◌≡◌};
ghost use Rattle.wcv_core.specs.LabelSet.{mix_step as mix_step_of};
ghost use Rattle.wcv_decls.specs.Numbers.{number_of};

/// The number with one more part.
fn mix_step(number: u64, part: u64) -> u64
    ensures { result ≡ mix_step_of number part }
{
    number
        .wrapping_mul(0x9e37_79b9_7f4a_7c15)
        .wrapping_add(part)
}

/// A number of the label in lower case. It takes eight bytes at a time.
pub fn number_of(label: &str) -> u64
    ensures { result ≡ number_of label.now }
{
    let mut number = 0u64;
    let mut rest = label.as_bytes();
    while let [a, b, c, d, e, f, g, h, more @ ..] = rest {
        let part = u64::from_le_bytes([
            a.to_ascii_lowercase(),
            b.to_ascii_lowercase(),
            c.to_ascii_lowercase(),
            d.to_ascii_lowercase(),
            e.to_ascii_lowercase(),
            f.to_ascii_lowercase(),
            g.to_ascii_lowercase(),
            h.to_ascii_lowercase(),
        ]);
        number = mix_step(number, part);
        rest = more;
    }
    for b in rest {
        number = mix_step(number, b.to_ascii_lowercase() as u64);
    }
    number
}
