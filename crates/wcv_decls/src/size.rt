// How large a type may be.
ghost use Rattle.std.specs.Prelude.{◌≡◌, OnOk, IfErr};
ghost use Rattle.wcv_core.specs.Refusal.{error_kind, error_offset};
ghost use Rattle.wcv_lower.specs.Checks.{IsFree};
ghost use Rattle.wcv_spaces.specs.Promises.{MemoryOrCausedBy};
ghost use Rattle.wcv_decls.specs.Resolved.{kept_checks};

use wcv_core::limits::{MAX_ABI_SIZE, MAX_DEPTH, MAX_SIZE};
use wcv_core::{Error, ErrorKind, Refusal, Why};
use wcv_types::TypeInfo;

fn too_large(offset: u64, what: &'static str, number: u64, limit: u64) -> Refusal<'static>
    ensures kind { error_kind result ≡ ErrorKind.Limit }
    ensures offset { error_offset result ≡ offset }
{
    let why = Why::new("type %w %1, at most %2 is allowed").word(what);
    Error::new(ErrorKind::Limit, offset, why.numbers([number, limit, 0]))
}

/// Whether a type of that size and depth, which takes so many bytes with pointers of 4 and of 8 bytes, is not
/// too large.
pub fn check_size(
    info: TypeInfo,
    size32: u64,
    size64: u64,
    offset: u64,
) -> Result<(), Refusal<'static>>
    ensures ok { OnOk result (IsFree (kept_checks info size32 size64)) }
    ensures err { IfErr result (MemoryOrCausedBy (kept_checks info size32 size64) offset) }
{
    let size = info.size as u64;
    if size > MAX_SIZE {
        return Err(too_large(offset, "has the size", size, MAX_SIZE));
    }
    let depth = info.depth as u64;
    if depth > MAX_DEPTH {
        return Err(too_large(offset, "has the depth", depth, MAX_DEPTH));
    }
    if size32 > MAX_ABI_SIZE {
        return Err(too_large(offset, "takes this many bytes:", size32, MAX_ABI_SIZE));
    }
    if size64 > MAX_ABI_SIZE {
        return Err(too_large(
            offset,
            "takes this many bytes with 64-bit pointers:",
            size64,
            MAX_ABI_SIZE,
        ));
    }
    Ok(())
}
