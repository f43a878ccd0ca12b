// The line of a resource reference.
ghost use Rattle.std.specs.Prelude.{◌≡◌, ◌++◌, codes, string_bytes, OnOk};
ghost use Rattle.wcv_types.specs.Text.{resource_number, with_resource};
ghost use Rattle.wcv_types.specs.Tree.{Text};
ghost use Rattle.wcv_text.specs.Numbers.{Appends, name_of, so_far};

use crate::numbers::Numbers;
use std::alloc::AllocError;
use std::fmt::Write;
use wcv_types::ResourceId;

/// Appends the form of a reference to the resource, which gets a number where it has none.
pub fn push_reference(
    text: &mut String,
    numbers: &mut Numbers,
    resource: ResourceId,
) -> Result<(), AllocError>
    ensures given { OnOk result ((t : Text) → so_far numbers.new t ≡ with_resource (so_far numbers.old t) (name_of resource)) }
    ensures form { OnOk result (Appends numbers.new (string_bytes text.old) (string_bytes text.new) (λ w. codes "resource " ++ resource_number w (name_of resource))) }
{
    let number = numbers.resource(resource)?;
    write!(text, "resource r{number}")
}
