use crate::tables::is_refused;
use row_types::RowFault;
use statement_grammar::TextFault;
use std::test::Fail;

/// Where no statement goes on so, or the text ends too early, or what is there is no token.
#[test]
fn syntax_is_told_at_its_place(rt: HostRuntime) -> Result<(), Fail> {
    let alloc = rt.alloc();
    for (text, place) in [
        (b"".as_slice(), 1),
        (b"DELETE t".as_slice(), 8),
        (b"UPDATE t SET v = 5 +".as_slice(), 21),
        (b"INSERT INTO t VALUES (1, 2, 'it".as_slice(), 29),
        (
            b"CHECKSUM t CHUNK 0 FROM LOW TO HIGH USING MD5".as_slice(),
            18,
        ),
        (
            b"CHECKSUM t CHUNK 4294967296 FROM LOW TO HIGH USING MD5".as_slice(),
            18,
        ),
        (
            b"SETMASTER t CHUNK 1 CNT 18446744073709551616 CRC ''".as_slice(),
            25,
        ),
        (b"SETMASTER t CHUNK 1 CNT 1 CRC 'A'".as_slice(), 31),
        (b"DELETE FROM t ; ;".as_slice(), 17),
        (b"DELETE FROM t WHERE v = 1 = 2".as_slice(), 27),
        (b"DELETE FROM k WHERE (a, v) = (1, 2)".as_slice(), 25),
        (b"DELETE FROM k WHERE (b, a) = (1, 2)".as_slice(), 23),
        (b"DELETE FROM t WHERE v\t= 1".as_slice(), 22),
        (
            b"UPDATE t SET v = 170141183460469231731687303715884105728".as_slice(),
            18,
        ),
        (
            b"UPDATE t SET v = -170141183460469231731687303715884105729".as_slice(),
            19,
        ),
    ] {
        assert!(rt; is_refused(alloc, text, TextFault::At { place })?);
    }
    Ok(())
}

#[test]
fn names_are_told_at_their_places(rt: HostRuntime) -> Result<(), Fail> {
    let alloc = rt.alloc();
    for (text, fault) in [
        (
            b"DELETE FROM u".as_slice(),
            TextFault::UnknownTable { place: 13 },
        ),
        (
            b"DELETE FROM T".as_slice(),
            TextFault::UnknownTable { place: 13 },
        ),
        (
            b"DELETE FROM t WHERE w = 1".as_slice(),
            TextFault::UnknownColumn { place: 21 },
        ),
        (
            b"UPDATE t SET id = 1".as_slice(),
            TextFault::KeyAssigned { place: 14 },
        ),
        (
            b"UPDATE t SET v = 1, id = 2".as_slice(),
            TextFault::KeyAssigned { place: 21 },
        ),
        (
            b"UPDATE k SET b = 'x'".as_slice(),
            TextFault::KeyAssigned { place: 14 },
        ),
        (
            b"INSERT INTO t VALUES (1, 2, NULL)".as_slice(),
            TextFault::NullIntoNotNull { place: 29 },
        ),
    ] {
        assert!(rt; is_refused(alloc, text, fault)?);
    }
    Ok(())
}

/// Values that do not fit their columns, and sides that do not go together.
#[test]
fn kinds_are_told_at_their_places(rt: HostRuntime) -> Result<(), Fail> {
    let alloc = rt.alloc();
    for (text, place, column) in [
        (b"INSERT INTO t VALUES ('x', 2, 'a')".as_slice(), 23, 0),
        (b"INSERT INTO t VALUES (1, 2, - 5)".as_slice(), 29, 2),
        (b"DELETE FROM t WHERE s = 5".as_slice(), 25, 0),
        (b"DELETE FROM t WHERE s + 1 = 'a'".as_slice(), 21, 0),
        (b"DELETE FROM t WHERE v BETWEEN 1 AND 'a'".as_slice(), 37, 0),
        (b"DELETE FROM t WHERE - s IS NULL".as_slice(), 23, 0),
        (b"UPDATE t SET v = 'a'".as_slice(), 18, 1),
        (b"UPDATE t SET s = 5 +".as_slice(), 18, 2),
        (b"UPDATE t SET s = -".as_slice(), 18, 2),
        (b"DELETE FROM t WHERE 5 = ('a'".as_slice(), 25, 0),
    ] {
        let fault = RowFault::Kind { column };
        assert!(rt; is_refused(alloc, text, TextFault::Literal { place, fault })?);
    }
    Ok(())
}

#[test]
fn counts_are_told_at_their_places(rt: HostRuntime) -> Result<(), Fail> {
    let alloc = rt.alloc();
    for (text, place, got, want) in [
        (b"INSERT INTO t VALUES (1, 2, 'a', 3)".as_slice(), 34, 4, 3),
        (b"INSERT INTO t VALUES (1, 2)".as_slice(), 27, 2, 3),
        (
            b"CHECKSUM t CHUNK 1 FROM BEFORE (1, 2) TO HIGH USING MD5".as_slice(),
            36,
            2,
            1,
        ),
    ] {
        let fault = RowFault::Arity { got, want };
        assert!(rt; is_refused(alloc, text, TextFault::Literal { place, fault })?);
    }
    Ok(())
}

/// The least place counts, and at one place the order of the faults.
#[test]
fn the_first_fault_is_told(rt: HostRuntime) -> Result<(), Fail> {
    let alloc = rt.alloc();
    for (text, fault) in [
        (
            b"DELETE FROM u WHERE w = ".as_slice(),
            TextFault::UnknownTable { place: 13 },
        ),
        (
            b"DELETE FROM t WHERE w = ".as_slice(),
            TextFault::UnknownColumn { place: 21 },
        ),
        (
            b"DELETE FROM t WHERE w w".as_slice(),
            TextFault::UnknownColumn { place: 21 },
        ),
        (
            b"UPDATE t SET v = 1 2, id = 2".as_slice(),
            TextFault::At { place: 20 },
        ),
    ] {
        assert!(rt; is_refused(alloc, text, fault)?);
    }
    Ok(())
}
