// Flat types.
ghost use Rattle.std.specs.Prelude.{◌≡◌};
ghost use Rattle.wcv_types.specs.Flat as spec;
ghost use Rattle.wcv_types.specs.Open.{open_join};

/// A flat type, where the size of pointers is left open.
#[derive(Clone, Copy)]
pub enum FlatType {
    I32,
    I64,
    F32,
    F64,
    Pointer,
}

impl FlatType {
    /// The flat type for values of either.
    fn join(self, other: FlatType) -> FlatType
        ensures { result ≡ open_join self other }
    {
        match (self, other) {
            (FlatType::I32, FlatType::I32 | FlatType::F32) | (FlatType::F32, FlatType::I32) => {
                FlatType::I32
            }
            (FlatType::F32, FlatType::F32) => FlatType::F32,
            (FlatType::F64, FlatType::F64) => FlatType::F64,
            (FlatType::Pointer, FlatType::Pointer | FlatType::I32 | FlatType::F32)
            | (FlatType::I32 | FlatType::F32, FlatType::Pointer) => FlatType::Pointer,
            _ => FlatType::I64,
        }
    }
}

/// What stands at a position of two joined lists, from what stands there in each.
pub fn either(first: Option<FlatType>, second: Option<FlatType>) -> Option<FlatType>
    ensures { result ≡ spec.either open_join first second }
{
    match (first, second) {
        (Some(first), Some(second)) => Some(first.join(second)),
        (None, one) | (one, None) => one,
    }
}
