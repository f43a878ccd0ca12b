// The labels of one list.
ghost use Rattle.std.specs.Prelude.{◌≡◌, ◌||◌, List, [], ℕ, not, string_bytes, OnOk, OnErr, IfOk};
ghost use Rattle.std.specs.Str.{bytes_eq};
ghost use Rattle.wcv_core.specs.Label.{lower_case, is_among};
ghost use Rattle.wcv_core.specs.LabelSet.{mixed, mix_step as mix_step_of};

use crate::memory::OutOfMemory;
use std::alloc::Global;
use std::collections::BTreeSet;
use std::marker::Model;

/// Labels in lower case, each once: labels of one list differ in more than case. Contracts see it as the
/// list of them, in no order that they tell.
///
/// A label stands behind a number that its bytes give, so that two labels are mostly told apart without a
/// look at their bytes. Labels with one number, whoever chose them, are told apart by their bytes: a look-up
/// among `n` labels never makes more than some `log n` comparisons.
#[derive(Drop)]
pub struct LabelSet {
    labels: BTreeSet<(u64, String)>,
    alloc: Global,
}

impl Model for LabelSet {
    ghost use Rattle.std.specs.Prelude.{ℕ, List};
    ghost use Rattle.wcv_core.specs.LabelSet.{texts, AreNumbered};

    ghost Value = { List (List ℕ) };

    ghost view = { λ s. texts s.labels.keys };

    ghost invariant = { λ s. AreNumbered s.labels.keys };
}

/// The number with one more part.
fn mix_step(number: u64, part: u64) -> u64
    ensures { result ≡ mix_step_of number part }
{
    number
        .wrapping_mul(0x9e37_79b9_7f4a_7c15)
        .wrapping_add(part)
}

/// The number that the bytes give: texts are mostly told apart by it. It takes eight bytes at a time.
#[tactic(auto, using(crate::proofs::Mixing::few_left))]
pub fn mix(text: &str) -> u64
    ensures { result ≡ mixed text.now }
{
    let mut number = 0u64;
    let mut rest = text.as_bytes();
    while let [a, b, c, d, e, f, g, h, more @ ..] = rest {
        let part = u64::from_le_bytes([*a, *b, *c, *d, *e, *f, *g, *h]);
        number = mix_step(number, part);
        rest = more;
    }
    for b in rest {
        number = mix_step(number, *b as u64);
    }
    number
}

impl LabelSet {
    /// A set with no label. It takes no memory.
    pub fn new(alloc: Global) -> LabelSet
        ensures { result ≡ [] }
    {
        LabelSet {
            labels: BTreeSet::new(alloc),
            alloc,
        }
    }

    /// Adds the label, in lower case. The answer is false exactly where the set has it already.
    pub fn insert(&mut self, label: &str) -> Result<bool, OutOfMemory>
        ensures added { IfOk result (λ added. added ≡ not (is_among (lower_case label.now) self.old)) }
        ensures has { OnOk result ((t : List ℕ) → is_among t self.new ≡ (bytes_eq t (lower_case label.now) || is_among t self.old)) }
        ensures err { OnErr result (self.new ≡ self.old) }
    {
        let text = label.to_ascii_lowercase(self.alloc)?;
        self.insert_text(text)
    }

    /// Adds the text as it is. The answer is false exactly where the set has it already.
    pub fn insert_text(&mut self, text: String) -> Result<bool, OutOfMemory>
        ensures added { IfOk result (λ added. added ≡ not (is_among (string_bytes text) self.old)) }
        ensures has { OnOk result ((t : List ℕ) → is_among t self.new ≡ (bytes_eq t (string_bytes text) || is_among t self.old)) }
        ensures err { OnErr result (self.new ≡ self.old) }
    {
        let number = mix(text.as_str());
        Ok(self.labels.insert((number, text))?)
    }

    /// Whether the set has the text as it is.
    pub fn has_text(&self, text: String) -> bool
        ensures { result ≡ is_among (string_bytes text) self.now }
    {
        let number = mix(text.as_str());
        self.labels.contains(&(number, text))
    }
}
