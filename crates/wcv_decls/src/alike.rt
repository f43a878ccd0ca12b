// Names that are labels, and differ in more than case.
ghost use Rattle.std.specs.Prelude.{◌≡◌, true, map, IfOk};
ghost use Rattle.std.specs.List.{list_all};
ghost use Rattle.wcv_core.specs.Label as label;
ghost use Rattle.wcv_lower.specs.Checks.{IsFree, label_checks};
ghost use Rattle.wcv_spaces.specs.NameLists.{list_names};
ghost use Rattle.wcv_decls.specs.Numbers.{number_of, Ascend};

use crate::lower::is_any_label;
use crate::number::number_of;
use std::alloc::Global;
use wcv_core::OutOfMemory;
use wcv_state::NameList;

/// Whether each name is a label.
#[tactic(auto, using(crate::proofs::Ascending::labels_next))]
fn are_labels(list: NameList<'_>) -> bool
    ensures { result ≡ true → list_all label.is_label (list_names list.entry) ≡ true }
{
    for k in 0..list.len() {
        if !is_any_label(list.text_at(k).as_str()) {
            return false;
        }
    }
    true
}

/// The numbers of the names, in order.
fn numbers(alloc: Global, list: NameList<'_>) -> Result<Vec<u64>, OutOfMemory>
    ensures { IfOk result (λ ns. ns.items ≡ map number_of (list_names list.entry)) }
{
    let mut numbers = Vec::with_capacity(alloc, list.len())?;
    for k in 0..list.len() {
        numbers.push(number_of(list.text_at(k).as_str()))?;
    }
    Ok(numbers)
}

/// Whether each number is greater than the one before it.
fn ascend(numbers: &[u64]) -> bool
    ensures { result ≡ true → Ascend numbers.now }
{
    for k in 1..numbers.len() {
        if numbers[k - 1] >= numbers[k] {
            return false;
        }
    }
    true
}

/// Whether it is seen by their numbers alone that the names are labels that differ in more than case. So it
/// is of all but few lists whose names are: the answer false says nothing.
pub fn are_seen_to_differ(alloc: Global, list: NameList<'_>) -> Result<bool, OutOfMemory>
    ensures { IfOk result (λ yes. yes ≡ true → IsFree (label_checks (list_names list.entry))) }
{
    if !are_labels(list) {
        return Ok(false);
    }
    let mut numbers = numbers(alloc, list)?;
    numbers.sort_unstable();
    Ok(ascend(&numbers))
}
