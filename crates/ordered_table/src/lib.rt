//! A table's rows by rising key, in pages, with look-ups at a key and from an edge.
#![tactic(auto)]

mod edge_search;
mod key_places;
mod leading_numbers;
mod page_laws;
mod page_lengths;
mod page_search;
mod pages;
mod places;
mod row_lists;
mod rows_ahead;
mod store;
mod table_laws;
mod tables;

pub use page_laws::{pages_are_few, pages_have_their_sizes};
pub use rows_ahead::RowsAhead;
pub use table_laws::{
    a_put_acts_at_its_key, a_removal_acts_at_its_key, a_row_is_found_at_its_key,
    a_span_has_its_rows, keys_past_an_edge_are_counted_in_order,
    rows_are_what_they_have_at_each_key, rows_of_a_schema_are_ordered,
    the_next_key_is_the_least_past, the_previous_key_is_the_greatest_before,
};
pub use tables::Table;
