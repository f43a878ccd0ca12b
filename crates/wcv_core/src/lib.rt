//! The base of the validator: texts, names, kinds of refusal, features and core types.
#![tactic(auto)]

mod append_only;
mod canonical;
mod core_checks;
mod core_closing;
mod core_codes;
mod core_display;
mod core_features;
mod core_laws;
mod core_limits;
mod core_matching;
mod core_rows;
mod core_rules;
mod core_sizes;
mod core_table;
mod core_types;
mod error;
mod excerpt;
mod extern_kind;
mod features;
mod kebab;
mod label_set;
pub mod limits;
mod memory;
mod primitive;
mod rec_group;
mod slip;
mod text;
mod text_set;

pub use append_only::{IndexMapAppendOnly, IntoIter, Iter};
pub use canonical::canonicalize_and_intern_rec_group;
pub use core_closing::{Site, close_heap, close_val, closed_mark};
pub use core_features::{
    check_group_features, check_ref_features, check_val_features, missing_feature, require_feature,
};
pub use core_laws::{
    an_interned_group_is_found, declared_is_the_closure_of_supertypes,
    depths_count_declared_supertypes, equal_codes_are_of_equal_groups, equal_groups_have_one_id,
    groups_with_a_common_id_are_equal, interning_again_changes_nothing,
    older_groups_keep_their_ids, older_types_keep_their_ids, types_stand_at_their_ids,
    what_is_compared_by_codes_is_equal, words_match_by_the_rules,
};
pub use core_limits::check_group_limits;
pub use core_sizes::core_item_size;
pub use core_table::CoreTypes;
pub use core_types::{
    AbstractHeap, ArrayType, CompositeInnerType, CoreTypeId, EntityType, FieldType, FuncType,
    GlobalType, HeapType, MemoryType, RecGroup, RefType, StorageType, StructType, SubType,
    SuperType, TableType, ValType,
};
pub use error::{Error, ErrorKind, Refusal, Why};
pub use excerpt::Excerpt;
pub use extern_kind::ExternKind;
pub use features::{FEATURE_NAMES, WasmFeatures};
pub use kebab::{KebabString, is_label};
pub use label_set::{LabelSet, mix};
pub use memory::OutOfMemory;
pub use primitive::PrimitiveValType;
pub use rec_group::InternRecGroup;
pub use slip::Slip;
pub use text::{Place, Text};
pub use text_set::TextSet;
