// Labels in lower case, seen eight bytes at a time.
ghost use Rattle.std.specs.Prelude.{◌≡◌, true};
ghost use Rattle.std.specs.List.{list_all};
ghost use Rattle.wcv_core.specs.Label as label;
ghost use Rattle.wcv_decls.specs.LowerWords.{slip_of};

use wcv_core::is_label;

/// Nought where the byte may stand behind that one in words of lower case, joined by single dashes.
fn slip(before: u8, b: u8) -> u8
    ensures { result ≡ slip_of before b }
{
    if b.is_ascii_lowercase() || b.is_ascii_digit() || (b == b'-' && before != b'-') {
        0
    } else {
        1
    }
}

/// Whether the bytes are seen to be such words.
fn are_lower_words(bytes: &[u8]) -> bool
    ensures { result ≡ true → list_all label.is_word (label.words bytes.now) ≡ true }
{
    let mut before = b'-';
    let mut rest = bytes;
    while let [a, b, c, d, e, f, g, h, more @ ..] = rest {
        let slips = u64::from_le_bytes([
            slip(before, *a),
            slip(*a, *b),
            slip(*b, *c),
            slip(*c, *d),
            slip(*d, *e),
            slip(*e, *f),
            slip(*f, *g),
            slip(*g, *h),
        ]);
        if slips != 0 {
            return false;
        }
        before = *h;
        rest = more;
    }
    while let [b, more @ ..] = rest {
        if slip(before, *b) != 0 {
            return false;
        }
        before = *b;
        rest = more;
    }
    before != b'-'
}

/// Whether the name is seen to be a label in lower case.
fn is_lower_label(name: &str) -> bool
    ensures { result ≡ true → label.is_label name.now ≡ true }
{
    let bytes = name.as_bytes();
    match bytes.first() {
        Some(b) => b.is_ascii_alphabetic() && are_lower_words(bytes),
        None => false,
    }
}

/// Whether the name is a label. Most are in lower case, and those are looked at first.
pub fn is_any_label(name: &str) -> bool
    ensures { result ≡ label.is_label name.now }
{
    is_lower_label(name) || is_label(name)
}
