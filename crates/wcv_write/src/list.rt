// Lists of things of one kind.
ghost use Rattle.std.specs.Prelude.{◌++◌, ◌≡◌, OnOk};
ghost use Rattle.wcv_write.specs.Json.{list_data, tokens_of, under};

use crate::indices::Indices;
use crate::output::Output;
use std::alloc::AllocError;
use wcv_core::Text;

/// What is written as one value.
pub trait ToJson {
    ghost use Rattle.std.specs.Prelude.{◌++◌, ◌≡◌, OnOk};
    ghost use Rattle.serde_json.specs.Data.{Data};
    ghost use Rattle.wcv_write.specs.Indices.{Indexing};
    ghost use Rattle.wcv_write.specs.Json.{tokens_of};

    ghost form: { Indexing → Self → Data };

    /// Writes it.
    fn write<I: Indices>(&self, out: &mut Output, indices: &I) -> Result<(), AllocError>
        ensures { OnOk result (out.new ≡ out.old ++ tokens_of (form (I.written indices.now) self.now)) };
}

/// Writes an array.
pub fn write_list<T: ToJson, I: Indices>(
    out: &mut Output,
    indices: &I,
    things: &[T],
) -> Result<(), AllocError>
    ensures { OnOk result (out.new ≡ out.old ++ tokens_of (list_data (T.form (I.written indices.now)) things.now)) }
{
    out.begin_array()?;
    for thing in things {
        thing.write(out, indices)?;
    }
    out.end_array()
}

impl<T: ToJson> ToJson for Vec<T> {
    ghost use Rattle.wcv_write.specs.Json.{list_data};

    ghost form = { λ ix things. list_data (T.form ix) things.items };

    fn write<I: Indices>(&self, out: &mut Output, indices: &I) -> Result<(), AllocError> {
        write_list(out, indices, self)
    }
}

/// Writes an object of one member.
pub fn write_under<T: ToJson, I: Indices>(
    out: &mut Output,
    indices: &I,
    key: &str,
    thing: &T,
) -> Result<(), AllocError>
    ensures { OnOk result (out.new ≡ out.old ++ tokens_of (under key.now (T.form (I.written indices.now) thing.now))) }
{
    out.open(key)?;
    thing.write(out, indices)?;
    out.end_object()
}

impl ToJson for Text {
    ghost use Rattle.serde_json.specs.Data.{string};

    ghost form = { λ _ text. string text };

    fn write<I: Indices>(&self, out: &mut Output, _indices: &I) -> Result<(), AllocError> {
        out.text(self.as_str())
    }
}
