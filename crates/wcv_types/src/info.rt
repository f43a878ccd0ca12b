// How large and how deep a type is.
ghost use Rattle.std.specs.Prelude.{◌≡◌, OnOk, OnErr, IfErr};
ghost use Rattle.wcv_core.specs.Refusal.{error_kind, error_offset};
ghost use Rattle.wcv_types.specs.Info.{combined, IsWithinLimits, PassesLimit};

use wcv_core::limits::{MAX_DEPTH, MAX_SIZE};
use wcv_core::{Error, ErrorKind, Refusal, Why};

/// The size and the depth of a type. A number above 4,294,967,295 stands as 4,294,967,295.
#[derive(Clone, Copy)]
pub struct TypeInfo {
    pub size: u32,
    pub depth: u32,
}

impl TypeInfo {
    /// Counts a part of the type: adds its size, and raises the depth above that of the part. Where a
    /// limit is passed it stays as it was.
    pub fn combine(&mut self, other: TypeInfo, offset: u64) -> Result<(), Refusal<'static>>
        ensures ok { OnOk result ((self.new ≡ combined self.old other) × IsWithinLimits (combined self.old other)) }
        ensures err { OnErr result ((self.new ≡ self.old) × PassesLimit (combined self.old other)) }
        ensures kind { IfErr result (λ e. error_kind e ≡ ErrorKind.Limit) }
        ensures place { IfErr result (λ e. error_offset e ≡ offset) }
    {
        let size = self.size as u64 + other.size as u64;
        if size > MAX_SIZE {
            let why = Why::new("type has the size %1, at most %2 is allowed");
            let why = why.numbers([size, MAX_SIZE, 0]);
            return Err(Error::new(ErrorKind::Limit, offset, why));
        }
        let below = other.depth as u64 + 1;
        let depth = below.max(self.depth as u64);
        if depth > MAX_DEPTH {
            let why = Why::new("type has the depth %1, at most %2 is allowed");
            let why = why.numbers([depth, MAX_DEPTH, 0]);
            return Err(Error::new(ErrorKind::Limit, offset, why));
        }
        self.size = size as u32;
        self.depth = depth as u32;
        Ok(())
    }
}
