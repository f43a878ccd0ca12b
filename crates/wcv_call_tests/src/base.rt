// Labels.
use std::alloc::Global;
use wcv_core::KebabString;

// A label is kept as it is written.
pub fn a_label_is_kept(alloc: Global) -> bool {
    match KebabString::new(alloc, "FOO-x1") {
        Ok(Some(label)) => label.as_str() == "FOO-x1",
        _ => false,
    }
}
