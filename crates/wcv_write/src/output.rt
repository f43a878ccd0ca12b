// JSON that is written from left to right.
ghost use Rattle.std.specs.Prelude.{◌≡◌, [], ◌∷◌, ◌++◌, OnOk, IsUtf8, decimal};
ghost use Rattle.json.specs.Print.{print};
ghost use Rattle.json.specs.Token as token;

use json::Writer;
use std::alloc::{AllocError, Global};
use std::marker::Model;

/// JSON that grows. Contracts see it as the list of its tokens.
#[derive(Drop)]
pub struct Output {
    writer: Writer,
}

impl Model for Output {
    ghost use Rattle.std.specs.Prelude.{◌≡◌, List, []};
    ghost use Rattle.json.specs.Token.{Token, tokens_code};

    ghost Value = { List Token };

    ghost coded = { tokens_code };

    ghost view = { λ o. o.writer.tokens };

    ghost invariant = { λ o. o.writer.before ≡ [] };
}

impl Output {
    /// Nothing is written yet.
    pub fn new(alloc: Global) -> Output
        ensures { result ≡ [] }
    {
        Output {
            writer: Writer::new(Vec::new(alloc)),
        }
    }

    /// The text.
    pub fn into_text(self) -> Vec<u8>
        ensures text { result.items ≡ print self }
        ensures utf8 { IsUtf8 result.items }
    {
        self.writer.into_inner()
    }

    /// Opens an object.
    pub fn begin_object(&mut self) -> Result<(), AllocError>
        ensures { OnOk result (self.new ≡ self.old ++ token.begin_object ∷ []) }
    {
        self.writer.begin_object()
    }

    /// Opens an object, up to the value of its first member.
    pub fn open(&mut self, key: &str) -> Result<(), AllocError>
        ensures { OnOk result (self.new ≡ self.old ++ token.begin_object ∷ token.key key.now ∷ []) }
    {
        self.begin_object()?;
        self.key(key)
    }

    /// Closes an object.
    pub fn end_object(&mut self) -> Result<(), AllocError>
        ensures { OnOk result (self.new ≡ self.old ++ token.end_object ∷ []) }
    {
        self.writer.end_object()
    }

    /// Opens an array.
    pub fn begin_array(&mut self) -> Result<(), AllocError>
        ensures { OnOk result (self.new ≡ self.old ++ token.begin_array ∷ []) }
    {
        self.writer.begin_array()
    }

    /// Closes an array.
    pub fn end_array(&mut self) -> Result<(), AllocError>
        ensures { OnOk result (self.new ≡ self.old ++ token.end_array ∷ []) }
    {
        self.writer.end_array()
    }

    /// The key of a member.
    pub fn key(&mut self, name: &str) -> Result<(), AllocError>
        ensures { OnOk result (self.new ≡ self.old ++ token.key name.now ∷ []) }
    {
        self.writer.key(name)
    }

    /// A text.
    pub fn text(&mut self, text: &str) -> Result<(), AllocError>
        ensures { OnOk result (self.new ≡ self.old ++ token.string text.now ∷ []) }
    {
        self.writer.string(text)
    }

    /// A number.
    pub fn count(&mut self, n: u64) -> Result<(), AllocError>
        ensures { OnOk result (self.new ≡ self.old ++ token.number (decimal n) ∷ []) }
    {
        self.writer.u64(n)
    }

    /// A Boolean.
    pub fn boolean(&mut self, value: bool) -> Result<(), AllocError>
        ensures { OnOk result (self.new ≡ self.old ++ token.boolean value ∷ []) }
    {
        self.writer.boolean(value)
    }

    /// Null.
    pub fn null(&mut self) -> Result<(), AllocError>
        ensures { OnOk result (self.new ≡ self.old ++ token.null ∷ []) }
    {
        self.writer.null()
    }
}
