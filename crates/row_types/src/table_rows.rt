use crate::item_lists::Items;
use crate::values::Value;

/// The values of a row, in column order.
pub type Row = Items<Value>;

/// Rows; of a table by rising key.
pub type Rows = Items<Row>;

/// The rows of each table of a node, the tables in the order of their numbers.
pub type Tables = Items<Rows>;
