// The features that a component may use.
ghost use Rattle.std.specs.Prelude.{◌≡◌, map};
ghost use Rattle.wcv_core.specs.Features as spec;
ghost use Rattle.wcv_core.specs.Features.{feature_names};

use bitflags::{Flag, Flags, bitflag_items};

/// A set of features. Those of `default` hold where a listing names none.
#[derive(Clone, Copy)]
pub struct WasmFeatures(u32);

bitflag_items! {
    impl WasmFeatures: u32 {
        const SIMD = 1;
        const THREADS = 1 << 1;
        const FUNCTION_REFERENCES = 1 << 2;
        const GC = 1 << 3;
        const EXCEPTIONS = 1 << 4;
        const MEMORY64 = 1 << 5;
        const CUSTOM_PAGE_SIZES = 1 << 6;
        const SHARED_EVERYTHING_THREADS = 1 << 7;
        const CM_ASYNC = 1 << 8;
        const CM_ASYNC_STACKFUL = 1 << 9;
        const CM_MORE_ASYNC_BUILTINS = 1 << 10;
        const CM_FORWARD = 1 << 11;
        const CM_THREADING = 1 << 12;
        const CM64 = 1 << 13;
        const CM_VALUES = 1 << 14;
        const CM_MAP = 1 << 15;
        const CM_FIXED_LENGTH_LISTS = 1 << 16;
        const CM_ERROR_CONTEXT = 1 << 17;
        const CM_CANON_NAMES = 1 << 18;
        const CM_IMPLEMENTS = 1 << 19;
        const CM_ACCESSORS = 1 << 20;
    }
}

/// The features by their names in a listing, in the order of their bits.
pub const FEATURE_NAMES: [(&str, WasmFeatures); 21] = [
    ("simd", WasmFeatures::SIMD),
    ("threads", WasmFeatures::THREADS),
    ("function-references", WasmFeatures::FUNCTION_REFERENCES),
    ("gc", WasmFeatures::GC),
    ("exceptions", WasmFeatures::EXCEPTIONS),
    ("memory64", WasmFeatures::MEMORY64),
    ("custom-page-sizes", WasmFeatures::CUSTOM_PAGE_SIZES),
    (
        "shared-everything-threads",
        WasmFeatures::SHARED_EVERYTHING_THREADS,
    ),
    ("cm-async", WasmFeatures::CM_ASYNC),
    ("cm-async-stackful", WasmFeatures::CM_ASYNC_STACKFUL),
    (
        "cm-more-async-builtins",
        WasmFeatures::CM_MORE_ASYNC_BUILTINS,
    ),
    ("cm-forward", WasmFeatures::CM_FORWARD),
    ("cm-threading", WasmFeatures::CM_THREADING),
    ("cm64", WasmFeatures::CM64),
    ("cm-values", WasmFeatures::CM_VALUES),
    ("cm-map", WasmFeatures::CM_MAP),
    ("cm-fixed-length-lists", WasmFeatures::CM_FIXED_LENGTH_LISTS),
    ("cm-error-context", WasmFeatures::CM_ERROR_CONTEXT),
    ("cm-canon-names", WasmFeatures::CM_CANON_NAMES),
    ("cm-implements", WasmFeatures::CM_IMPLEMENTS),
    ("cm-accessors", WasmFeatures::CM_ACCESSORS),
];

/// The name beside the feature in the table, or no text where it has none.
fn name_in(table: &[(&'static str, WasmFeatures)], feature: WasmFeatures) -> &'static str
    ensures { result.now ≡ spec.name_in (map (λ row. (row.0.now, row.1.0)) table.now) feature.0 }
{
    for (name, known) in table {
        if known.0 == feature.0 {
            return *name;
        }
    }
    ""
}

impl WasmFeatures {
    /// The name of the feature in a listing, where the set has that feature alone.
    pub fn name(self) -> &'static str
        ensures { result.now ≡ spec.name_in feature_names self.0 }
    {
        name_in(&FEATURE_NAMES, self)
    }
}

impl Flags for WasmFeatures {
    ghost use Rattle.std.specs.Prelude.{⊤};
    ghost use Rattle.wcv_core.specs.Features.{feature_bits};

    type Bits = u32;

    ghost exact = { ⊤ };

    ghost table = { feature_bits };

    ghost set_of = { λ f. f.0 };

    fn flags<'a>() -> &'a [Flag<WasmFeatures>] {
        WasmFeatures::FLAGS
    }

    fn bits(&self) -> u32 {
        self.0
    }

    fn from_bits_retain(bits: u32) -> WasmFeatures {
        WasmFeatures(bits)
    }
}

impl Default for WasmFeatures {
    ghost use Rattle.std.specs.Prelude.{◌≡◌};
    ghost use Rattle.wcv_core.specs.Features.{default_features};

    ghost is_default = { λ f. f ≡ default_features };

    fn default() -> WasmFeatures {
        WasmFeatures(
            WasmFeatures::SIMD.0
                | WasmFeatures::THREADS.0
                | WasmFeatures::FUNCTION_REFERENCES.0
                | WasmFeatures::GC.0
                | WasmFeatures::EXCEPTIONS.0
                | WasmFeatures::MEMORY64.0
                | WasmFeatures::CM_ASYNC.0,
        )
    }
}
