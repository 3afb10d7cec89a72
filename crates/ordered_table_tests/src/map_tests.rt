//! Tables beside std's ordered map: what each of many calls answers, and the rows that they leave.
use ordered_table::Table;
use row_types::{Memory, R, Row, Value};
use std::alloc::Global;
use std::collections::BTreeMap;
use std::test::Fail;
use test_builders::{key, row};

/// How many keys are put in.
const KEYS: u16 = 10_000;

/// The order in which keys are put in.
#[derive(Clone, Copy)]
enum KeyOrder {
    Rising,
    Falling,
    Mixed,
}

/// Another key for each number below 10,007.
fn key_of(order: KeyOrder, number: u16) -> i64 {
    match order {
        KeyOrder::Rising => number as i64,
        KeyOrder::Falling => 10_000 - number as i64,
        KeyOrder::Mixed => (number as u32 * 1237 % 10_007) as i64,
    }
}

/// A table of rows of a key and a value, and a map that is to have the same.
#[derive(Drop)]
struct Both {
    table: Table,
    map: BTreeMap<i64, i64>,
}

/// Whether a row and an entry of the map are both absent, or have these values.
fn is_same(found: Option<&Row>, id: i64, value: Option<i64>) -> bool {
    match (found, value) {
        (None, None) => true,
        (Some(row), Some(value)) => match row.as_slice() {
            [Value::Int(first), Value::Int(second)] => *first == id && *second == value,
            _ => false,
        },
        _ => false,
    }
}

/// Whether each page has 1 to 64 rows, two neighbours have more than 64, and all have so many together.
fn are_pages(lengths: &[usize], rows: usize) -> bool {
    let mut before = 64usize;
    let mut count = 0usize;
    for length in lengths {
        if *length == 0 || *length > 64 || before.saturating_add(*length) <= 64 {
            return false;
        }
        before = *length;
        count = count.saturating_add(*length);
    }
    count == rows
}

/// Puts a row that the table takes.
fn put(table: &mut Table, row: Row) -> R<Option<Row>> {
    if !table.takes(&row) {
        return Err(Memory);
    }
    match table.put(row) {
        Ok(replaced) => Ok(replaced),
        Err((_, memory)) => Err(memory),
    }
}

/// Puts a row that the table takes by reserved capacity.
fn put_spare(table: &mut Table, row: Row) -> R<Option<Row>> {
    if !table.takes(&row) || table.spare() == 0 {
        return Err(Memory);
    }
    Ok(table.put_back(row))
}

impl Both {
    fn new(alloc: Global) -> Both {
        Both {
            table: Table::new(alloc, 1),
            map: BTreeMap::new(alloc),
        }
    }

    /// Puts a value at a key of both: whether both answer the same.
    fn put(&mut self, alloc: Global, id: i64, v: i64) -> R<bool> {
        let before = self.map.insert(id, v)?;
        let replaced = put(&mut self.table, row(alloc, id, v)?)?;
        Ok(is_same(replaced.as_ref(), id, before))
    }

    /// Puts a value at a key of both, in the table by reserved capacity: whether both answer the same.
    fn put_back(&mut self, alloc: Global, id: i64, v: i64) -> R<bool> {
        let before = self.map.insert(id, v)?;
        if self.table.spare() == 0 {
            self.table.reserve(3)?;
        }
        let replaced = put_spare(&mut self.table, row(alloc, id, v)?)?;
        Ok(is_same(replaced.as_ref(), id, before))
    }

    /// Takes a key away from both: whether both answer the same.
    fn remove(&mut self, alloc: Global, id: i64) -> R<bool> {
        let gone = self.table.remove(&key(alloc, id)?);
        Ok(is_same(gone.as_ref(), id, self.map.remove(&id)))
    }

    /// Looks a key up in both: whether both answer the same.
    fn get(&self, alloc: Global, id: i64) -> R<bool> {
        let found = self.table.get(&key(alloc, id)?);
        Ok(is_same(found, id, self.map.get(&id).copied()))
    }

    /// Whether the table's rows stand in pages as they should.
    fn has_pages(&self, alloc: Global) -> R<bool> {
        let lengths = self.table.page_lengths(alloc)?;
        Ok(are_pages(lengths.as_slice(), self.map.len()))
    }

    /// Whether both have the same, in the same order.
    fn agree(&self) -> bool {
        let mut ahead = self.table.all();
        for (id, v) in &self.map {
            if !is_same(ahead.next_row(), *id, Some(*v)) {
                return false;
            }
        }
        ahead.is_empty() && self.table.len() == self.map.len()
    }
}

/// Puts all keys in, each with its number: whether each put answers as the map's does.
fn fill(alloc: Global, both: &mut Both, order: KeyOrder) -> R<bool> {
    for number in 0..KEYS {
        if !both.put(alloc, key_of(order, number), number as i64)? {
            return Ok(false);
        }
    }
    Ok(true)
}

/// Takes each third key away, and the key again, which is then absent.
fn thin(alloc: Global, both: &mut Both, order: KeyOrder) -> R<bool> {
    for number in 0..KEYS {
        let id = key_of(order, number);
        if number % 3 == 0 && !(both.remove(alloc, id)? && both.remove(alloc, id)?) {
            return Ok(false);
        }
    }
    Ok(true)
}

/// Whether each key is found or not found as in the map.
fn look_up(alloc: Global, both: &Both, order: KeyOrder) -> R<bool> {
    for number in 0..KEYS {
        if !both.get(alloc, key_of(order, number))? {
            return Ok(false);
        }
    }
    Ok(true)
}

/// Whether a table that is filled, thinned and filled again is as the map is all the way.
fn stay_the_same(alloc: Global, both: &mut Both, order: KeyOrder) -> R<bool> {
    if !fill(alloc, both, order)? || !both.agree() {
        return Ok(false);
    }
    if !thin(alloc, both, order)? || !both.agree() {
        return Ok(false);
    }
    if !look_up(alloc, both, order)? || !fill(alloc, both, order)? {
        return Ok(false);
    }
    Ok(both.agree())
}

fn keeps_to_the_map(alloc: Global, order: KeyOrder) -> R<bool> {
    let mut both = Both::new(alloc);
    stay_the_same(alloc, &mut both, order)
}

#[test]
fn keys_in_rising_order(rt: HostRuntime) -> Result<(), Fail> {
    assert!(rt; keeps_to_the_map(rt.alloc(), KeyOrder::Rising)?);
    Ok(())
}

#[test]
fn keys_in_falling_order(rt: HostRuntime) -> Result<(), Fail> {
    assert!(rt; keeps_to_the_map(rt.alloc(), KeyOrder::Falling)?);
    Ok(())
}

#[test]
fn keys_in_mixed_order(rt: HostRuntime) -> Result<(), Fail> {
    assert!(rt; keeps_to_the_map(rt.alloc(), KeyOrder::Mixed)?);
    Ok(())
}

/// Numbers that look random, by a linear congruence.
#[derive(Drop)]
struct Draws {
    state: u32,
}

impl Draws {
    /// The next of them, of 16 bits.
    fn draw(&mut self) -> u32 {
        self.state = self
            .state
            .wrapping_mul(1_664_525)
            .wrapping_add(1_013_904_223);
        self.state >> 16
    }
}

/// Does one of the calls to both: whether both answer the same.
fn call(alloc: Global, both: &mut Both, which: u32, id: i64, v: i64) -> R<bool> {
    match which {
        0 | 1 | 2 => both.put(alloc, id, v),
        3 => both.put_back(alloc, id, v),
        4 | 5 | 6 => both.remove(alloc, id),
        _ => both.get(alloc, id),
    }
}

/// Does 4,000 calls of the first so many kinds, each on one of 2,003 keys; a put stands in for the others.
/// After each of them the pages are looked at.
fn calls_agree(alloc: Global, both: &mut Both, draws: &mut Draws, kinds: u32) -> R<bool> {
    for number in 0..4_000i64 {
        let which = draws.draw() % 8;
        let id = (draws.draw() % 2_003) as i64;
        let which = if which < kinds { which } else { 0 };
        if !call(alloc, both, which, id, number)? || !both.has_pages(alloc)? {
            return Ok(false);
        }
    }
    Ok(both.agree())
}

/// Whether a table that grows, stays as long as it is, and is emptied, is as the map is all the way.
fn all_calls_agree(alloc: Global, both: &mut Both, draws: &mut Draws) -> R<bool> {
    for kinds in [5, 8, 8, 5, 8u32] {
        if !calls_agree(alloc, both, draws, kinds)? {
            return Ok(false);
        }
    }
    Ok(true)
}

#[test]
fn random_calls(rt: HostRuntime) -> Result<(), Fail> {
    let alloc = rt.alloc();
    let mut both = Both::new(alloc);
    assert!(rt; all_calls_agree(alloc, &mut both, &mut Draws { state: 7 })?);
    Ok(())
}
