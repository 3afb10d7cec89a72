ghost use Rattle.std.specs.Prelude.{ℕ, ◌≡◌, ◌≢◌, ◌<◌, ◌++◌, [], ◌∷◌, None, Some, IsSome, vec_len, vec_capacity, option_copied, OnOk};
ghost use Rattle.row_digest.specs.Digest.{no_rows};
ghost use Rattle.node_reads.specs.Readings.{IsUnread, HasRoom, HasRoomOf, IsSameReading, AreSame, IsGrown, HasGrown, reading_of, place_of, without_reading};
ghost use Rattle.node_reads.specs.declared.gains.Gain.TheVariants.{Row as OneRow, Sum};

use crate::gains::Gain;
use lock_table::Owner;
use row_types::{Digest, R, Row};
use std::alloc::Global;
use std::mem;

/// What an owner's open transaction has read.
#[derive(Drop)]
pub struct Reading {
    pub owner: Owner,
    /// The rows that the last locking read took that is done.
    pub rows: Vec<Row>,
    /// The rows that the locking read in progress has taken so far.
    pub taken: Vec<Row>,
    /// The checksum of the rows that the CHECKSUM in progress has met so far.
    pub sum: Digest,
    /// The checksums of the CHECKSUMs that are done, in order.
    pub sums: Vec<Digest>,
}

/// Nothing is read yet.
pub fn unread(alloc: Global, owner: Owner) -> Reading
    ensures { IsUnread owner result }
{
    Reading {
        owner,
        rows: Vec::new(alloc),
        taken: Vec::new(alloc),
        sum: no_rows(),
        sums: Vec::new(alloc),
    }
}

/// The checksum of no rows.
fn no_rows() -> Digest
    ensures { result ≡ no_rows }
{
    Digest {
        count: 0,
        xor: [0; 20],
    }
}

/// What an owner's transaction has read, if it has one.
pub fn read_in(readings: &[Reading], owner: Owner) -> Option<&Reading>
    ensures { option_copied result ≡ reading_of owner.0 readings.now }
{
    let mut rest = readings;
    while let Some((reading, more)) = rest.split_first() {
        if reading.owner.0 == owner.0 {
            return Some(reading);
        }
        rest = more;
    }
    None
}

/// The number of an owner's reading, or how many there are.
fn place_of(readings: &[Reading], owner: Owner) -> usize
    ensures { result ≡ place_of owner.0 readings.now }
{
    for place in 0..readings.len() {
        if readings[place].owner.0 == owner.0 {
            return place;
        }
    }
    readings.len()
}

/// Puts in the reading of a transaction that begins, in reserved capacity.
pub fn put_unread(readings: &mut Vec<Reading>, reading: Reading)
    requires { vec_len readings.old < vec_capacity readings.old }
    ensures { readings.new.items ≡ readings.old.items ++ reading ∷ [] }
{
    match readings.push(reading) {
        Ok(()) => {}
        Err(_) => unreachable!(),
    }
}

/// What an owner has read goes.
pub fn forget(readings: &mut Vec<Reading>, owner: Owner)
    ensures { readings.new.items ≡ without_reading owner.0 readings.old.items }
{
    readings.retain(|reading| reading.owner.0 != owner.0);
}

/// Reserves capacity for what a visit of an owner adds; what was read stays.
pub fn reserve_of(readings: &mut Vec<Reading>, owner: Owner) -> R<()>
    requires { IsSome (reading_of owner.0 readings.old.items) }
    ensures ok { OnOk result (HasRoomOf owner.0 readings.new.items) }
    ensures same { AreSame readings.old.items readings.new.items }
{
    let place = place_of(readings.as_slice(), owner);
    reserve(&mut readings[place])?;
    Ok(())
}

/// Adds what a visit of an owner read, and keeps the whole where the statement ends with it.
pub fn grow_of(alloc: Global, readings: &mut Vec<Reading>, owner: Owner, gain: Gain, ends: bool)
    requires { HasRoomOf owner.0 readings.old.items }
    ensures own { HasGrown gain ends owner.0 readings.old.items readings.new.items }
    ensures others { (other : ℕ) → other ≢ owner.0 → reading_of other readings.new.items ≡ reading_of other readings.old.items }
{
    let place = place_of(readings.as_slice(), owner);
    grow(alloc, &mut readings[place], gain, ends);
}

/// Reserves capacity for what a visit adds; what was read stays.
fn reserve(reading: &mut Reading) -> R<()>
    ensures ok { OnOk result (HasRoom reading.new) }
    ensures same { IsSameReading reading.old reading.new }
{
    reading.taken.reserve(1)?;
    reading.sums.reserve(1)?;
    Ok(())
}

/// Adds what a visit read, and keeps the whole where the statement ends with it.
fn grow(alloc: Global, reading: &mut Reading, gain: Gain, ends: bool)
    requires { HasRoom reading.old }
    ensures { IsGrown gain ends reading.old reading.new }
{
    match gain {
        Gain::Nothing => {}
        Gain::Row(row) => grow_rows(alloc, reading, row, ends),
        Gain::Sum(sum) => grow_sums(reading, sum, ends),
    }
}

fn grow_rows(alloc: Global, reading: &mut Reading, row: Option<Row>, ends: bool)
    requires { HasRoom reading.old }
    ensures { IsGrown (OneRow row) ends reading.old reading.new }
{
    match row {
        None => {}
        Some(row) => put_row(&mut reading.taken, row),
    }
    if ends {
        reading.rows = mem::replace(&mut reading.taken, Vec::new(alloc));
    }
}

fn grow_sums(reading: &mut Reading, sum: Digest, ends: bool)
    requires { HasRoom reading.old }
    ensures { IsGrown (Sum sum) ends reading.old reading.new }
{
    if ends {
        put_sum(&mut reading.sums, sum);
        reading.sum = no_rows();
    } else {
        reading.sum = sum;
    }
}

fn put_row(rows: &mut Vec<Row>, row: Row)
    requires { vec_len rows.old < vec_capacity rows.old }
    ensures { rows.new.items ≡ rows.old.items ++ row ∷ [] }
{
    match rows.push(row) {
        Ok(()) => {}
        Err(_) => unreachable!(),
    }
}

fn put_sum(sums: &mut Vec<Digest>, sum: Digest)
    requires { vec_len sums.old < vec_capacity sums.old }
    ensures { sums.new.items ≡ sums.old.items ++ sum ∷ [] }
{
    match sums.push(sum) {
        Ok(()) => {}
        Err(_) => unreachable!(),
    }
}
