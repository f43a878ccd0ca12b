// How a run of the program ends.
ghost use Rattle.std.specs.Prelude.{◌≡◌};
ghost use Rattle.wcv_main.specs.Codes.{code_of};

/// How a run of the program ended.
#[derive(Clone, Copy, Debug, PartialEq, Eq)]
pub enum Status {
    /// All was written.
    Done,
    /// The sections are not valid.
    Refused,
    /// The words are no command.
    Words,
    /// The bytes are no listing.
    Listing,
    /// A read failed.
    ReadFault,
    /// A write failed, so a prefix of the text was written.
    WriteFault,
    /// Out of memory, so a prefix of the text was written.
    Memory,
    /// The source gave more bytes than a listing may have.
    TooLong,
}

impl Status {
    /// The number with which the program ends, from 0 to 7 in the order of the variants.
    pub fn code(&self) -> u8
        ensures { result ≡ code_of self.now }
    {
        *self as u8
    }
}
