//! Lines that say nothing, each with its place.

use crate::answers::is_fault;
use std::test::Fail;

/// Lines that say nothing, each with its session and the place of the fault.
const FAULTS: [(&[u8], u8, u64); 60] = [
    (b"", 0, 0),
    (b"17 BEGIN", 0, 0),
    (b"-0 BEGIN", 0, 0),
    (b"\xff 1 BEGIN", 0, 0),
    (b"\r", 0, 0),
    (b"1", 1, 1),
    (b"1 BEGIN x", 1, 8),
    (b"1 BEGIN\r", 1, 7),
    (b"1 BEGIN AT", 1, 10),
    (b"1 BEGIN AT (VERSION = 5)", 1, 20),
    (b"1 BEGIN AT (VERSION => 4611686018427387905)", 1, 23),
    (b"1 COMMIT;;", 1, 9),
    (b"1 EXPIRE -1", 1, 9),
    (b"16 CREATE TABLE and (a BIGINT)", 16, 16),
    (b"1 CREATE TABLE t (a BIGINT NOT)", 1, 30),
    (b"1 DROP SCHEMA \"\"", 1, 14),
    (b"1 INSERT INTO t VALUES (9223372036854775808)", 1, 24),
    (b"1 INSERT INTO t VALUES (x'0g')", 1, 24),
    (b"1 INSERT INTO t VALUES ('a''b)", 1, 24),
    (b"1 INSERT INTO t VALUES (1-2)", 1, 25),
    (b"1 INSERT INTO t VALUES (DATE '2024-02-30')", 1, 29),
    (b"1 SELECT a FROM t WHERE a => 5", 1, 26),
    (b"1 SELECT a FROM t WHERE a=>5", 1, 25),
    (b"1 SELECT * FROM t WHERE NOT", 1, 27),
    (b"1 UPDATE t SET a = 1,", 1, 21),
    (b"0 BEGIN", 0, 0),
    (b"99999999999999999999 CLEAN", 0, 0),
    (b"1BEGIN;x", 1, 7),
    (b"  2", 2, 3),
    (b"1 # CLEAN", 1, 2),
    (b"3 SELECT", 3, 8),
    (b"3 SELECT a b FROM t", 3, 11),
    (b"3 SELECT *, a FROM t", 3, 10),
    (b"3 SELECT * FROM t WHERE a = b", 3, 28),
    (b"3 SELECT * FROM t WHERE (a = 1", 3, 30),
    (b"3 SELECT * FROM t WHERE a = 1)", 3, 29),
    (b"3 SELECT * FROM t WHERE a IS 5", 3, 29),
    (b"3 SELECT * FROM t WHERE a ! = 1", 3, 26),
    (b"1 CREATE TABLE t ()", 1, 18),
    (b"1 CREATE TABLE t (a TEXT)", 1, 20),
    (b"1 CREATE TABLE a.b.c (d DATE)", 1, 18),
    (b"1 ALTER TABLE t ADD c DATE", 1, 20),
    (b"1 ALTER TABLE t RENAME COLUMN a b", 1, 32),
    (b"1 INSERT INTO t (a) VALUES (1)", 1, 16),
    (b"1 INSERT INTO t VALUES (1) (2)", 1, 27),
    (b"1 INSERT INTO t VALUES ('\xff')", 1, 24),
    (b"1 INSERT INTO t VALUES (1\xff)", 1, 25),
    (b"1 UPDATE t SET a == 1", 1, 18),
    (b"1 DELETE t", 1, 9),
    (b"1 FLUSH values", 1, 8),
    (b"1 BEGIN AT (VERSION => -1)", 1, 23),
    (b"1 INSERT INTO t VALUES (''')", 1, 24),
    (b"1 INSERT INTO t VALUES (x'0')", 1, 24),
    (b"1 INSERT INTO t VALUES ('\xed\xa0\x80')", 1, 24),
    (b"1 INSERT INTO t VALUES ('\xc0\x80')", 1, 24),
    (b"1 INSERT INTO t VALUES ('\xf4\x90\x80\x80')", 1, 24),
    (b"1 DROP SCHEMA Select", 1, 14),
    (b"1 \r BEGIN", 1, 2),
    (b"# BEGIN", 0, 0),
    (b"1 BEGIN AT (VERSION => -0", 1, 25),
];

#[test]
fn each_fault_has_its_place(rt: HostRuntime) -> Result<(), Fail> {
    for (line, session, at) in FAULTS {
        assert!(rt; is_fault(rt.alloc(), line, session, at));
    }
    Ok(())
}
