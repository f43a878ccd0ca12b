// What the canonical ABI makes of value types.

/// How a value type lies in memory, with pointers of 4 and of 8 bytes, and what stands in it. Sizes and
/// alignments are in bytes. A size above 18,446,744,073,709,551,615 stands as that number.
#[derive(Clone, Copy)]
pub struct AbiInfo {
    pub size32: u64,
    pub align32: u64,
    pub size64: u64,
    pub align64: u64,
    /// A string, a list or a map stands in it, futures and streams aside.
    pub contains_ptr: bool,
    /// A handle, a future, a stream or an error context stands in it.
    pub contains_handle: bool,
    /// A borrowed handle stands in it.
    pub contains_borrow: bool,
}
