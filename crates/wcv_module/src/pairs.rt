// Whether pairs of names differ.
ghost use Rattle.std.specs.Prelude.{◌≡◌, ◌||◌, List, [], ◌∷◌, false, not, string_bytes, OnOk, OnErr, IfOk, IfErr};
ghost use Rattle.wcv_core.specs.Checks.{IsFree, MemoryOrCausedBy};
ghost use Rattle.wcv_core.specs.Refusal.{error_kind, error_offset};
ghost use Rattle.wcv_syntax.specs.Model.{Text};
ghost use Rattle.wcv_syntax.specs.ModuleTypes.{same_pair, is_pair_among, import_pairs, pairs_repeat};
ghost use Rattle.wcv_module.specs.PairSet.{bytes_of};

use std::alloc::Global;
use std::collections::BTreeSet;
use std::marker::Model;
use wcv_core::{EntityType, Error, ErrorKind, Excerpt, OutOfMemory, Text};

/// Pairs of texts, each once. Contracts see it as the list of them, in no order that they tell.
#[derive(Drop)]
pub struct PairSet {
    pairs: BTreeSet<(String, String)>,
}

impl Model for PairSet {
    ghost use Rattle.std.specs.Prelude.{List};
    ghost use Rattle.wcv_syntax.specs.Model.{Text};
    ghost use Rattle.wcv_module.specs.PairSet.{pairs_of};

    ghost Value = { List (Text × Text) };

    ghost view = { λ s. pairs_of s.pairs.keys };
}

impl PairSet {
    /// A set with no pair.
    pub fn new(alloc: Global) -> PairSet
        ensures { result ≡ [] }
    {
        PairSet {
            pairs: BTreeSet::new(alloc),
        }
    }

    /// Adds a pair. The answer is false exactly where the set has it already.
    pub fn insert(&mut self, pair: (String, String)) -> Result<bool, OutOfMemory>
        ensures added { IfOk result (λ added. added ≡ not (is_pair_among (bytes_of pair) self.old)) }
        ensures has { OnOk result ((p : Text × Text) → is_pair_among p self.new ≡ (same_pair p (bytes_of pair) || is_pair_among p self.old)) }
    {
        Ok(self.pairs.insert(pair)?)
    }
}

/// The names of an import, and what it is.
pub type CoreImport = ((Text, Text), EntityType);

fn repeated(names: &(Text, Text), offset: u64) -> Error
    ensures kind { error_kind result ≡ ErrorKind.Conflict }
    ensures offset { error_offset result ≡ offset }
{
    let module = Excerpt(names.0.as_str());
    let name = Excerpt(names.1.as_str());
    Error::told(
        ErrorKind::Conflict,
        offset,
        format_args!("the module imports `{name}` of `{module}` twice"),
    )
}

/// Adds the names of an import. The answer is false exactly where the set has them already.
fn add_names(seen: &mut PairSet, alloc: Global, import: &CoreImport) -> Result<bool, OutOfMemory>
    ensures added { IfOk result (λ added. added ≡ not (is_pair_among import.now.0 seen.old)) }
    ensures has { OnOk result ((p : Text × Text) → is_pair_among p seen.new ≡ (same_pair p import.now.0 || is_pair_among p seen.old)) }
{
    let module = String::from_str(alloc, import.0.0.as_str())?;
    let name = String::from_str(alloc, import.0.1.as_str())?;
    seen.insert((module, name))
}

/// Whether no two imports have one pair of names.
pub fn check_pairs(alloc: Global, imports: &[CoreImport], offset: u64) -> Result<(), Error>
    ensures ok { OnOk result (pairs_repeat (import_pairs imports.now) ≡ false) }
    ensures err { IfErr result (MemoryOrCausedBy ((ErrorKind.Conflict, pairs_repeat (import_pairs imports.now)) ∷ []) offset) }
{
    let mut seen = PairSet::new(alloc);
    for import in imports {
        let is_new = add_names(&mut seen, alloc, import)?;
        if !is_new {
            return Err(repeated(&import.0, offset));
        }
    }
    Ok(())
}
