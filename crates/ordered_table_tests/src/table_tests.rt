use ordered_table::{RowsAhead, Table};
use row_types::{Edge, Key, Memory, Plain, R, Row, Span, Value};
use std::alloc::Global;
use std::test::Fail;
use test_builders::{key, key_of_two, keys_between, null_row, row, row_of_text};

/// Puts a row that the table takes.
fn put(table: &mut Table, row: Row) -> R<Option<Row>> {
    if !table.takes(&row) {
        return Err(Memory);
    }
    match table.put(row) {
        Ok(replaced) => Ok(replaced),
        Err((_, memory)) => Err(memory),
    }
}

/// Puts a row back where its key is present or a row is spare.
fn put_back(alloc: Global, table: &mut Table, row: Row) -> R<Option<Row>> {
    if !table.takes(&row) {
        return Err(Memory);
    }
    let values = row.as_slice().split_at(table.key_len() as usize).0;
    let key = Key::from_values(alloc, values)?;
    if table.spare() == 0 && table.get(&key).is_none() {
        return Err(Memory);
    }
    Ok(table.put_back(row))
}

/// The rows (10, 1), (15, 7), (20, 2), put in another order.
fn three(alloc: Global) -> R<Table> {
    let mut table = Table::new(alloc, 1);
    for (id, v) in [(15, 7), (20, 2), (10, 1)] {
        put(&mut table, row(alloc, id, v)?)?;
    }
    Ok(table)
}

/// Whether a row is there and has these two values.
fn is_row(found: Option<&Row>, id: i64, v: i64) -> bool {
    match found {
        None => false,
        Some(row) => match row.as_slice() {
            [Value::Int(first), Value::Int(second)] => *first == id && *second == v,
            _ => false,
        },
    }
}

/// Whether a key of one number is there, or none where none is wanted.
fn is_key(found: Option<&[Value]>, want: Option<i64>) -> bool {
    match (found, want) {
        (None, None) => true,
        (Some([Value::Int(id)]), Some(want)) => *id == want,
        _ => false,
    }
}

/// Whether the rows to come have these first values, and no others come.
fn have_ids(ahead: RowsAhead, ids: &[i64]) -> bool {
    let mut ahead = ahead;
    for id in ids {
        let found = match ahead.next_row() {
            None => false,
            Some(row) => matches!(row.as_slice().first(), Some(Value::Int(first)) if first == id),
        };
        if !found {
            return false;
        }
    }
    ahead.next_row().is_none()
}

/// Whether a table of keys of two values has nothing anywhere.
fn is_bare(table: &Table, ten: &Key) -> bool {
    table.is_empty()
        && table.len() == 0
        && table.key_len() == 2
        && table.get(ten).is_none()
        && table.next(&Edge::Low).is_none()
        && table.prev(&Edge::High).is_none()
        && table.nth(&Edge::Low, 1).is_none()
        && table.row_past(&Edge::Low).is_none()
}

/// How many rows of a span are handed out.
fn count_of(alloc: Global, table: &Table, span: &Span) -> R<usize> {
    let rows = table.rows(alloc, span)?;
    Ok(rows.len())
}

#[test]
fn an_empty_table_has_no_rows(rt: HostRuntime) -> Result<(), Fail> {
    let alloc = rt.alloc();
    let ten = key(alloc, 10)?;
    let mut table = Table::new(alloc, 2);
    assert!(rt; is_bare(&table, &ten) && table.remove(&ten).is_none());
    assert!(rt; count_of(alloc, &table, &Span::whole())? == 0);
    Ok(())
}

/// Whether a row is there and has these two values, or none where none is wanted.
fn is_found(found: Option<&Row>, id: i64, v: Option<i64>) -> bool {
    match v {
        None => found.is_none(),
        Some(v) => is_row(found, id, v),
    }
}

/// Whether a key has this value, or no row where none is wanted.
fn has_at(alloc: Global, table: &Table, id: i64, v: Option<i64>) -> R<bool> {
    let key = key(alloc, id)?;
    Ok(is_found(table.get(&key), id, v) && is_found(table.get_at(key.as_slice()), id, v))
}

/// Puts a value at a key: whether this one was there, or none.
fn put_replaces(alloc: Global, table: &mut Table, id: i64, v: i64, old: Option<i64>) -> R<bool> {
    let replaced = put(table, row(alloc, id, v)?)?;
    Ok(is_found(replaced.as_ref(), id, old))
}

/// Puts a value back at a key: whether this one was there, or none.
fn back_replaces(alloc: Global, table: &mut Table, id: i64, v: i64, old: Option<i64>) -> R<bool> {
    let replaced = put_back(alloc, table, row(alloc, id, v)?)?;
    Ok(is_found(replaced.as_ref(), id, old))
}

/// Takes a key away: whether it had this value, or none.
fn remove_gives(alloc: Global, table: &mut Table, id: i64, old: Option<i64>) -> R<bool> {
    let gone = table.remove(&key(alloc, id)?);
    Ok(is_found(gone.as_ref(), id, old))
}

/// Whether a row is found at its key alone, and a second one there takes its place.
fn puts_by_key(alloc: Global, table: &mut Table) -> R<bool> {
    if table.len() != 3 || !has_at(alloc, table, 15, Some(7))? || !has_at(alloc, table, 16, None)? {
        return Ok(false);
    }
    let replaced = put_replaces(alloc, table, 15, 8, Some(7))?;
    Ok(replaced && table.len() == 3 && has_at(alloc, table, 15, Some(8))?)
}

/// Whether what is taken away is gone, and what is not there stays away.
fn removes_by_key(alloc: Global, table: &mut Table) -> R<bool> {
    if !remove_gives(alloc, table, 16, None)? || table.len() != 3 {
        return Ok(false);
    }
    if !remove_gives(alloc, table, 15, Some(8))? || !has_at(alloc, table, 15, None)? {
        return Ok(false);
    }
    Ok(have_ids(table.each(&Span::whole()), &[10, 20]) && table.all().len() == 2)
}

#[test]
fn rows_are_put_and_taken_away(rt: HostRuntime) -> Result<(), Fail> {
    let alloc = rt.alloc();
    let mut table = three(alloc)?;
    assert!(rt; table.get_at(&[]).is_none() && !table.all().is_empty());
    assert!(rt; puts_by_key(alloc, &mut table)?);
    assert!(rt; removes_by_key(alloc, &mut table)?);
    Ok(())
}

/// Whether tables are the same both ways.
fn are_same(table: &Table, other: &Table) -> bool {
    table.same_rows(other) && other.same_rows(table)
}

/// Whether a table is another one no more, once that has another value and then a row less.
fn differs_once_changed(alloc: Global, table: &Table, other: &mut Table) -> R<bool> {
    if !put_replaces(alloc, other, 15, 8, Some(7))? || table.same_rows(other) {
        return Ok(false);
    }
    Ok(remove_gives(alloc, other, 15, Some(8))? && !table.same_rows(other))
}

/// Tables have the same rows where each row has the same values.
#[test]
fn tables_are_compared(rt: HostRuntime) -> Result<(), Fail> {
    let alloc = rt.alloc();
    let table = three(alloc)?;
    let mut other = three(alloc)?;
    assert!(rt; are_same(&table, &other));
    assert!(rt; differs_once_changed(alloc, &table, &mut other)?);
    assert!(rt; !table.same_rows(&Table::new(alloc, 1)));
    Ok(())
}

/// Whether the next key past an edge, and the one before it, are these, or none.
fn lies_between(table: &Table, edge: &Edge, below: Option<i64>, above: Option<i64>) -> bool {
    is_key(table.prev(edge), below) && is_key(table.next(edge), above)
}

/// The same of the edge before a key, and of that after it.
fn before_lies(
    alloc: Global,
    table: &Table,
    id: i64,
    below: Option<i64>,
    above: Option<i64>,
) -> R<bool> {
    let edge = Edge::Before(key(alloc, id)?);
    Ok(lies_between(table, &edge, below, above))
}

fn after_lies(
    alloc: Global,
    table: &Table,
    id: i64,
    below: Option<i64>,
    above: Option<i64>,
) -> R<bool> {
    let edge = Edge::After(key(alloc, id)?);
    Ok(lies_between(table, &edge, below, above))
}

/// The keys on both sides of each edge.
#[test]
fn edges_lie_between_keys(rt: HostRuntime) -> Result<(), Fail> {
    let alloc = rt.alloc();
    let table = three(alloc)?;
    assert!(rt; lies_between(&table, &Edge::Low, None, Some(10)));
    assert!(rt; before_lies(alloc, &table, 15, Some(10), Some(15))?);
    assert!(rt; after_lies(alloc, &table, 15, Some(15), Some(20))?);
    assert!(rt; after_lies(alloc, &table, 12, Some(10), Some(15))?);
    assert!(rt; lies_between(&table, &Edge::High, Some(20), None));
    Ok(())
}

/// Whether the first two keys past an edge are these, and there is no third one.
fn has_two_past(table: &Table, edge: &Edge, first: i64, second: i64) -> bool {
    is_key(table.nth(edge, 1), Some(first))
        && is_key(table.nth(edge, 2), Some(second))
        && is_key(table.nth(edge, 3), None)
}

/// The first keys past an edge, and the row at the first of them.
#[test]
fn keys_are_counted_past_an_edge(rt: HostRuntime) -> Result<(), Fail> {
    let alloc = rt.alloc();
    let table = three(alloc)?;
    let before = Edge::Before(key(alloc, 15)?);
    assert!(rt; has_two_past(&table, &before, 15, 20) && is_row(table.row_past(&before), 15, 7));
    assert!(rt; is_key(table.nth(&Edge::Low, 3), Some(20)));
    assert!(rt; is_key(table.nth(&Edge::Low, u64::MAX), None));
    Ok(())
}

/// The keys between 10 and 20, neither of them among these.
fn inside(alloc: Global) -> R<Span> {
    Ok(Span {
        lo: Edge::After(key(alloc, 10)?),
        hi: Edge::Before(key(alloc, 20)?),
    })
}

/// A span whose edges leave no key.
fn crossed(alloc: Global) -> R<Span> {
    Ok(Span {
        lo: Edge::After(key(alloc, 20)?),
        hi: Edge::Before(key(alloc, 10)?),
    })
}

/// Whether the rows of a span have these first values.
fn span_has(alloc: Global, table: &Table, span: &Span, ids: &[i64]) -> R<bool> {
    Ok(count_of(alloc, table, span)? == ids.len() && have_ids(table.each(span), ids))
}

/// The rows of a span, at its edges and where its edges leave none.
#[test]
fn spans_have_rows(rt: HostRuntime) -> Result<(), Fail> {
    let alloc = rt.alloc();
    let table = three(alloc)?;
    assert!(rt; span_has(alloc, &table, &inside(alloc)?, &[15])?);
    assert!(rt; span_has(alloc, &table, &keys_between(alloc, 10, 20)?, &[10, 15, 20])?);
    assert!(rt; span_has(alloc, &table, &crossed(alloc)?, &[])?);
    Ok(())
}

/// The keys (1, 'a'), (1, 'b'), (2, 'a'), put in another order.
fn two_columns(alloc: Global) -> R<Table> {
    let mut table = Table::new(alloc, 2);
    for (id, text) in [(2, b"a"), (1, b"b"), (1, b"a")] {
        put(&mut table, row_of_text(alloc, id, text)?)?;
    }
    Ok(table)
}

/// Whether a key is there and is this one.
fn has_key(found: Option<&[Value]>, want: &Key) -> bool {
    match found {
        None => false,
        Some(values) => Value::all_same(values, want.as_slice()),
    }
}

/// Whether (1, 'b') is there, as the next key past (1, 'a').
fn second_follows_first(alloc: Global, table: &Table) -> R<bool> {
    let second = key_of_two(alloc, 1, b"b")?;
    let after_first = Edge::After(key_of_two(alloc, 1, b"a")?);
    Ok(table.get(&second).is_some() && has_key(table.next(&after_first), &second))
}

#[test]
fn keys_have_two_columns(rt: HostRuntime) -> Result<(), Fail> {
    let alloc = rt.alloc();
    let table = two_columns(alloc)?;
    assert!(rt; second_follows_first(alloc, &table)?);
    assert!(rt; have_ids(table.each(&Span::whole()), &[1, 1, 2]));
    Ok(())
}

/// Whether (1) is no key, and (1, 'b') the next one past the edge after it.
fn prefix_is_before(alloc: Global, table: &Table) -> R<bool> {
    let one = key(alloc, 1)?;
    let first = key_of_two(alloc, 1, b"a")?;
    let is_absent = table.get(&one).is_none();
    Ok(is_absent && has_key(table.next(&Edge::After(one)), &first))
}

/// An edge at a first column alone.
#[test]
fn a_prefix_of_a_key_is_before_it(rt: HostRuntime) -> Result<(), Fail> {
    let alloc = rt.alloc();
    let table = two_columns(alloc)?;
    assert!(rt; prefix_is_before(alloc, &table)?);
    Ok(())
}

/// Rows whose key has a NULL or lacks a value are not taken.
#[test]
fn rows_without_a_key_are_not_taken(rt: HostRuntime) -> Result<(), Fail> {
    let table = Table::new(rt.alloc(), 2);
    assert!(rt; !table.takes(&null_row(rt.alloc(), 1)?));
    assert!(rt; !table.takes(&Row::new(rt.alloc())));
    Ok(())
}

/// Whether reserved capacity stays, whatever is put in or taken away.
fn keeps_room(alloc: Global, table: &mut Table) -> R<bool> {
    table.reserve(2)?;
    if !remove_gives(alloc, table, 15, Some(9))? || !put_replaces(alloc, table, 1, 1, None)? {
        return Ok(false);
    }
    let has_stayed = table.spare() >= 2;
    table.reserve(1)?;
    Ok(has_stayed && table.spare() >= 2)
}

/// Whether a row put back at an absent key uses up one spare row.
fn uses_room(alloc: Global, table: &mut Table) -> R<bool> {
    let spare = table.spare();
    if spare == 0 || !back_replaces(alloc, table, 15, 9, None)? {
        return Ok(false);
    }
    Ok(table.spare() == spare - 1 && have_ids(table.each(&Span::whole()), &[1, 10, 15, 20]))
}

/// Whether capacity for more rows than there can be is refused, and nothing changes.
fn refuses_room(table: &mut Table) -> bool {
    let spare = table.spare();
    table.reserve(u64::MAX).is_err() && table.spare() == spare && table.len() == 4
}

/// Reserved capacity that is promised stays until rows are put back; a present key needs none.
#[test]
fn room_is_promised(rt: HostRuntime) -> Result<(), Fail> {
    let alloc = rt.alloc();
    let mut table = three(alloc)?;
    assert!(rt; back_replaces(alloc, &mut table, 15, 9, Some(7))? && table.spare() == 0);
    assert!(rt; keeps_room(alloc, &mut table)?);
    assert!(rt; uses_room(alloc, &mut table)?);
    assert!(rt; refuses_room(&mut table));
    Ok(())
}

/// A number below 2,003, another for each number below 2,003.
fn scattered(number: u16) -> i64 {
    (number as u32 * 1237 % 2003) as i64
}

/// Two thousand rows, put in an order that jumps about.
fn many(alloc: Global) -> R<Table> {
    let mut table = Table::new(alloc, 1);
    for number in 0..2000u16 {
        put(&mut table, row(alloc, scattered(number), number as i64)?)?;
    }
    Ok(table)
}

/// How many rows there are, or none where one is not above the one before it.
fn rising(ahead: RowsAhead) -> Option<usize> {
    let mut ahead = ahead;
    let mut last = -1;
    for count in 0..5000 {
        let Some(row) = ahead.next_row() else {
            return Some(count);
        };
        let Some(Value::Int(id)) = row.as_slice().first() else {
            return None;
        };
        if *id <= last {
            return None;
        }
        last = *id;
    }
    None
}

/// A table of copies of a table's rows.
#[tactic(auto, using(row_types::proofs::OrderedRowLemmas::filter_ordered))]
fn copy_of(alloc: Global, table: &Table) -> R<Table> {
    let rows = table.rows(alloc, &Span::whole())?;
    if rows.len() != table.len() {
        return Err(Memory);
    }
    Table::from_rows(alloc, table.key_len(), rows.as_slice())
}

/// Whether a table's two thousand rows come out by rising key.
fn rises(table: &Table) -> bool {
    table.len() == 2000 && rising(table.each(&Span::whole())) == Some(2000)
}

/// Rows put in any order come out by rising key, and a table is made of them again.
#[test]
fn many_rows_rise_by_key(rt: HostRuntime) -> Result<(), Fail> {
    let alloc = rt.alloc();
    let table = many(alloc)?;
    assert!(rt; rises(&table) && is_key(table.prev(&Edge::High), Some(2002)));
    for number in [0, 1, 999, 1999u16] {
        assert!(rt;
            has_at(alloc, &table, scattered(number), Some(number as i64))?,
            "{number}"
        );
    }
    assert!(rt; rises(&copy_of(alloc, &table)?));
    Ok(())
}

/// The keys from 300 down to 1.
fn falling(alloc: Global) -> R<Table> {
    let mut table = Table::new(alloc, 1);
    for number in 0..300u16 {
        put(&mut table, row(alloc, 300 - number as i64, number as i64)?)?;
    }
    Ok(table)
}

/// The same without those that 3 divides.
fn thirds_removed(alloc: Global) -> R<Table> {
    let mut table = falling(alloc)?;
    for number in 1..=100u16 {
        table.remove(&key(alloc, number as i64 * 3)?);
    }
    Ok(table)
}

/// Rows of pages that were split and joined.
#[test]
fn pages_are_split_and_joined(rt: HostRuntime) -> Result<(), Fail> {
    let alloc = rt.alloc();
    let table = thirds_removed(alloc)?;
    assert!(rt; count_of(alloc, &table, &Span::whole())? == 200);
    assert!(rt; is_key(table.nth(&Edge::Low, 200), Some(299)));
    assert!(rt; after_lies(alloc, &table, 2, Some(2), Some(4))?);
    assert!(rt; before_lies(alloc, &table, 4, Some(2), Some(4))?);
    Ok(())
}

/// Whether a page's length is there, and this one.
fn is_length(found: Option<&usize>, want: usize) -> bool {
    match found {
        None => false,
        Some(length) => *length == want,
    }
}

/// Whether a copy of two thousand rows has 31 full pages, and a last one of 16 rows.
fn fills_pages(alloc: Global, table: &Table) -> R<bool> {
    let copy = copy_of(alloc, table)?;
    let lengths = copy.page_lengths(alloc)?;
    Ok(lengths.len() == 32 && is_length(lengths.first(), 64) && is_length(lengths.last(), 16))
}

/// A table that is made of rows in order has full pages, and what is left in a last one.
#[test]
fn rows_in_order_fill_pages(rt: HostRuntime) -> Result<(), Fail> {
    let alloc = rt.alloc();
    assert!(rt; fills_pages(alloc, &many(alloc)?)?);
    Ok(())
}

/// Two hundred rows whose keys, of two numbers, begin with the same one.
fn sharing(alloc: Global) -> R<Table> {
    let mut table = Table::new(alloc, 2);
    for number in 0..200u16 {
        put(&mut table, row(alloc, 7, scattered(number))?)?;
    }
    Ok(table)
}

/// Whether each of these rows is found at its key.
fn finds_all(alloc: Global, table: &Table) -> R<bool> {
    for number in 0..200u16 {
        let want = scattered(number);
        let key = row(alloc, 7, want)?;
        if !is_row(table.get_at(key.as_slice()), 7, want) {
            return Ok(false);
        }
    }
    Ok(true)
}

#[test]
fn keys_share_their_first_value(rt: HostRuntime) -> Result<(), Fail> {
    let alloc = rt.alloc();
    let table = sharing(alloc)?;
    assert!(rt; table.len() == 200 && finds_all(alloc, &table)?);
    Ok(())
}

/// All rows come out in one list, by rising key.
#[test]
fn a_table_is_taken_apart(rt: HostRuntime) -> Result<(), Fail> {
    let alloc = rt.alloc();
    let rows = three(alloc)?.into_rows(alloc)?;
    assert!(rt; rows.len() == 3 && is_row(rows.as_slice().first(), 10, 1));
    Ok(())
}
