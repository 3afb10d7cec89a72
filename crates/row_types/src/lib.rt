//! Values, keys, rows, edges, spans and schemas, with the orders of keys and edges.
#![tactic(auto)]

mod byte_list;
mod digests;
mod edges;
mod item_lists;
mod keys;
mod lock_modes;
mod memory;
mod order_laws;
mod row_checks;
mod row_faults;
mod table_rows;
mod table_schema;
mod values;

pub use byte_list::Bytes;
pub use digests::{Digest, DigestKind};
pub use edges::{Edge, Span};
pub use item_lists::{Items, Plain};
pub use keys::{Key, compare_values};
pub use lock_modes::LockMode;
pub use memory::{Memory, R};
pub use order_laws::{
    clipped_numbers_are_nearest, each_key_is_past_or_before, edges_are_ordered, keys_are_ordered,
    meeting_has_the_keys_of_both, no_key_lies_between_neighbours,
};
pub use row_checks::clip;
pub use row_faults::RowFault;
pub use table_rows::{Row, Rows, Tables};
pub use table_schema::{Column, ColumnKind, Columns, Schema, SchemaList, Schemas};
pub use values::Value;
