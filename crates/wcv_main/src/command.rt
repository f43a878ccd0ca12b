// Which command the words are.
ghost use Rattle.std.specs.Prelude.{◌≡◌, ◌↔◌, ◌≤◌, IfSome, IsTrue};
ghost use Rattle.wcv_main.specs.Commands.{made_number as number_made, number_up_to as up_to, IsMarked};

use crate::words::Words;

// The greatest number for which a listing is made.
const MAX_MADE: u32 = 1_000;

// Whether a sign stands in front of the text, or a zero in front of more.
fn is_marked(text: &[u8]) -> bool
    ensures { IsTrue result ↔ IsMarked text.now }
{
    if text.is_empty() {
        return false;
    }
    if text[0] == b'+' {
        return true;
    }
    text[0] == b'0' && text.len() > 1
}

// The number, no greater than `most`, that the text is in decimal.
fn number_up_to(text: &str, most: u32) -> Option<u32>
    ensures number { result ≡ up_to most text.now }
    ensures small { IfSome result (λ n. n ≤ most) }
{
    if is_marked(text.as_bytes()) {
        return None;
    }
    let Ok(number) = text.parse::<u32>() else {
        return None;
    };
    if number <= most { Some(number) } else { None }
}

/// The number `N` where the words are the command `make N`: in decimal, with no sign and no zero in front, and
/// at most 1,000.
pub fn made_number(words: &Words) -> Option<u32>
    ensures number { result ≡ number_made words.now }
    ensures small { IfSome result (λ n. n ≤ 1000) }
{
    if words.len() != 2 {
        return None;
    }
    let Some(word) = words.get(0) else {
        return None;
    };
    let Some(number) = words.get(1) else {
        return None;
    };
    if word == "make" {
        number_up_to(number, MAX_MADE)
    } else {
        None
    }
}
