use crate::trial::{bytes_end, ends};
use lake_io::{Failed, Source, SureSource};
use lake_top::Status;
use std::test::Fail;

/// Scripts for a new lake, and what is written for them.
const SCRIPTS: &[(&str, &str)] = &[
    ("1 BEGIN\n1 COMMIT\n", "1.1 ok 0\n1.2 ok 0\n"),
    ("1 BEGIN\n1 COMMIT", "1.1 ok 0\n1.2 ok 0\n"),
    ("1 BEGIN\r\n1 COMMIT\r\n", "1.1 ok 0\n1.2 ok 0\n"),
    ("", ""),
    ("\n", ""),
    (
        "1 BEGIN\n1 CREATE TABLE t (a BIGINT)\n1 INSERT INTO t VALUES (7), (NULL)\n1 COMMIT\n1 BEGIN\n1 SELECT * FROM t\n1 COMMIT\n",
        "1.1 ok 0\n1.2 ok\n1.3 ok 2\n1.4 ok 1\n1.5 ok 1\n1.6 row 7\n1.6 row NULL\n1.6 ok 2\n1.7 ok 1\n",
    ),
    (
        "1 COMMIT\n1 BEGIN\n1 BEGIN\n1 SELECT * FROM t\n1 INSERT INTO t VALUES (1)\n1 ROLLBACK\n1 DROP TABLE t\n",
        "1.1 no transaction\n1.2 ok 0\n1.3 in transaction\n1.4 no table \"main\".\"t\"\n1.5 no table \"main\".\"t\"\n1.6 ok\n1.7 no transaction\n",
    ),
    // whose line it is, and whether it counts
    (
        "17 BEGIN\n2 BEGIN\n1 HELLO\n \t\n# 1 BEGIN\n01 BEGIN\n-0 BEGIN\nBEGIN\n\x0116 x\n",
        "0.1 syntax at 0\n2.1 ok 0\n1.1 syntax at 2\n1.2 ok 0\n0.2 syntax at 0\n0.3 syntax at 0\n0.4 syntax at 0\n",
    ),
    // the place of a fault
    (
        "1 INSERT INTO t VALUES (9223372036854775808)\n1 INSERT INTO t VALUES (-9223372036854775809)\n1 BEGIN x\n1 CREATE\n1\n1 BEGIN AT (VERSION =>\n1 BEGIN AT (VERSION => 4611686018427387905)\n1 CREATE TABLE select (a BIGINT)\n1 SELECT 'x FROM t\n1 SELECT * FROM t WHERE a = \n",
        "1.1 syntax at 24\n1.2 syntax at 24\n1.3 syntax at 8\n1.4 syntax at 8\n1.5 syntax at 1\n1.6 syntax at 22\n1.7 syntax at 23\n1.8 syntax at 15\n1.9 syntax at 9\n1.10 syntax at 28\n",
    ),
    // statements that no session answers yet, whether it has a transaction or not
    (
        "2 ALTER TABLE t DROP COLUMN a\n2 DELETE FROM t\n2 UPDATE t SET a = 1\n2 COMPACT t\n2 BEGIN\n2 FLUSH t\n2 EXPIRE 0\n2 CLEAN;\n2 DELETE t\n",
        "2.1 not built\n2.2 not built\n2.3 not built\n2.4 not built\n2.5 ok 0\n2.6 not built\n2.7 not built\n2.8 not built\n2.9 syntax at 9\n",
    ),
    // blanks and case
    (
        "\t1\tbegin \n1create  table\tT(a bigint,B BIGINT)\n 1 insert INTO T values(1,null) , (2,3)\n1SELECT*FROM T\n1 SELECT * FROM t\n",
        "1.1 ok 0\n1.2 ok\n1.3 ok 2\n1.4 row 1,NULL\n1.4 row 2,3\n1.4 ok 2\n1.5 no table \"main\".\"t\"\n",
    ),
    // two tables, and one transaction that stays open
    (
        "1 BEGIN\n1 CREATE TABLE t (a BIGINT)\n1 CREATE TABLE u (b BIGINT)\n1 INSERT INTO t VALUES (1)\n1 INSERT INTO u VALUES (2)\n1 INSERT INTO t VALUES (3)\n1 COMMIT\n1 BEGIN\n1 SELECT rowid, a FROM t\n1 SELECT b, rowid FROM u\n1 INSERT INTO t VALUES (4)\n",
        "1.1 ok 0\n1.2 ok\n1.3 ok\n1.4 ok 1\n1.5 ok 1\n1.6 ok 1\n1.7 ok 1\n1.8 ok 1\n1.9 row 0,1\n1.9 row 1,3\n1.9 ok 2\n1.10 row 2,0\n1.10 ok 1\n1.11 ok 1\n",
    ),
    // refusals of tables and rows
    (
        "1 BEGIN\n1 CREATE TABLE t (a BIGINT)\n1 CREATE TABLE t (b BIGINT)\n1 CREATE TABLE u (a BIGINT, a BIGINT)\n1 CREATE TABLE u (a TINYINT DEFAULT 128)\n1 CREATE TABLE u (a DATE NOT NULL DEFAULT NULL)\n1 INSERT INTO t VALUES (1, 2)\n1 INSERT INTO t VALUES (DEFAULT)\n1 INSERT INTO t VALUES ('1')\n1 SELECT b FROM t\n1 SELECT a FROM t WHERE a = '1'\n1 SELECT a FROM t WHERE a = 1 OR c IS NULL\n1 COMMIT;\n",
        "1.1 ok 0\n1.2 ok\n1.3 name used \"t\"\n1.4 name used \"a\"\n1.5 wrong type \"a\"\n1.6 not null \"a\"\n1.7 arity 1 2\n1.8 ok 1\n1.9 wrong type \"a\"\n1.10 no column \"b\"\n1.11 wrong type \"a\"\n1.12 no column \"c\"\n1.13 ok 1\n",
    ),
    // each type
    (
        "1 BEGIN\n1 CREATE TABLE t (a BOOLEAN, b TINYINT, c SMALLINT, d INTEGER, e BIGINT, f VARCHAR, g BLOB, h DATE)\n1 INSERT INTO t VALUES (TRUE, -128, 32767, -2147483648, 9223372036854775807, 'a''b', X'0Aff', DATE '2024-02-29')\n1 INSERT INTO t VALUES (FALSE, 007, -0, 0, -9223372036854775808, '', x'', DATE '0001-01-01')\n1 INSERT INTO t VALUES (NULL, 0, 32768, 0, 0, NULL, NULL, NULL)\n1 COMMIT\n1 BEGIN\n1 SELECT * FROM t\n1 SELECT f FROM t WHERE a = TRUE AND NOT (h IS NULL OR g < x'0a')\n",
        "1.1 ok 0\n1.2 ok\n1.3 ok 1\n1.4 ok 1\n1.5 wrong type \"c\"\n1.6 ok 1\n1.7 ok 1\n1.8 row true,-128,32767,-2147483648,9223372036854775807,'a''b',x'0aff',DATE '2024-02-29'\n1.8 row false,7,0,0,-9223372036854775808,'',x'',DATE '0001-01-01'\n1.8 ok 2\n1.9 row 'a''b'\n1.9 ok 1\n",
    ),
    // schemas, and a list that leaves nothing
    (
        "1 BEGIN\n1 CREATE SCHEMA s\n1 CREATE SCHEMA s\n1 DROP SCHEMA r\n1 CREATE TABLE r.t (a BIGINT)\n1 DROP TABLE s.t\n1 INSERT INTO r.t VALUES (1)\n1 DROP SCHEMA s\n1 COMMIT\n1 SNAPSHOTS\n",
        "1.1 ok 0\n1.2 ok\n1.3 name used \"s\"\n1.4 no schema \"r\"\n1.5 no schema \"r\"\n1.6 no table \"s\".\"t\"\n1.7 no schema \"r\"\n1.8 ok\n1.9 ok 1\n1.10 row 0,created_schema:\"main\"\n1.10 row 1,\n1.10 ok 2\n",
    ),
    // an older version
    (
        "1 BEGIN AT (VERSION => 1)\n1 BEGIN\n1 CREATE TABLE t (a BIGINT)\n1 COMMIT\n1 BEGIN AT (VERSION => 0)\n1 CREATE SCHEMA s\n1 SELECT * FROM t\n1 COMMIT\n",
        "1.1 not kept 0 0\n1.2 ok 0\n1.3 ok\n1.4 ok 1\n1.5 ok 0\n1.6 read only\n1.7 no table \"main\".\"t\"\n1.8 ok 0\n",
    ),
    // two sessions: the second insert is numbered anew
    (
        "1 BEGIN\n1 CREATE TABLE t (a BIGINT)\n1 COMMIT\n1 BEGIN\n2 BEGIN\n1 INSERT INTO t VALUES (10), (11)\n2 INSERT INTO t VALUES (20), (21)\n2 SELECT rowid, a FROM t\n1 COMMIT\n2 COMMIT\n2 BEGIN\n2 SELECT rowid, a FROM t\n",
        "1.1 ok 0\n1.2 ok\n1.3 ok 1\n1.4 ok 1\n2.1 ok 1\n1.5 ok 2\n2.2 ok 2\n2.3 row 0,20\n2.3 row 1,21\n2.3 ok 2\n1.6 ok 2\n2.4 ok 3\n2.5 ok 3\n2.6 row 0,10\n2.6 row 1,11\n2.6 row 2,20\n2.6 row 3,21\n2.6 ok 4\n",
    ),
    // a drop after an insert, and an insert after a drop, of which the lowest snapshot is told
    (
        "1 BEGIN\n1 CREATE TABLE t (a BIGINT)\n1 COMMIT\n1 BEGIN\n2 BEGIN\n1 INSERT INTO t VALUES (1)\n2 DROP TABLE t\n1 COMMIT\n2 COMMIT\n",
        "1.1 ok 0\n1.2 ok\n1.3 ok 1\n1.4 ok 1\n2.1 ok 1\n1.5 ok 1\n2.2 ok\n1.6 ok 2\n2.3 ok 3\n",
    ),
    (
        "1 BEGIN\n1 CREATE TABLE t (a BIGINT)\n1 COMMIT\n1 BEGIN\n2 BEGIN\n1 INSERT INTO t VALUES (1)\n2 DROP TABLE t\n2 COMMIT\n3 BEGIN\n3 CREATE SCHEMA s\n3 COMMIT\n1 COMMIT\n1 COMMIT\n",
        "1.1 ok 0\n1.2 ok\n1.3 ok 1\n1.4 ok 1\n2.1 ok 1\n1.5 ok 1\n2.2 ok\n2.3 ok 2\n3.1 ok 2\n3.2 ok\n3.3 ok 3\n1.6 conflict 2 inserted_into_table:1 with dropped_table:1\n1.7 no transaction\n",
    ),
    (
        "1 BEGIN\n2 BEGIN\n1 CREATE TABLE \"a\"\"b\" (x BIGINT)\n2 CREATE TABLE \"a\"\"b\" (x BIGINT)\n1 COMMIT\n2 COMMIT\n",
        "1.1 ok 0\n2.1 ok 0\n1.2 ok\n2.2 ok\n1.3 ok 1\n2.3 conflict 1 created_table:\"main\".\"a\"\"b\" with created_table:\"main\".\"a\"\"b\"\n",
    ),
    (
        "1 BEGIN\n1 CREATE SCHEMA shop\n1 CREATE TABLE shop.orders (id BIGINT NOT NULL, who VARCHAR, day DATE, paid BOOLEAN DEFAULT FALSE)\n1 INSERT INTO shop.orders VALUES (1, 'O''Hara', DATE '2024-02-29', TRUE), (2, 'Ng', NULL, DEFAULT)\n1 INSERT INTO shop.orders VALUES (NULL, 'x', NULL, TRUE)\n1 INSERT INTO shop.orders VALUES (3)\n1 SELECT who, day FROM shop.orders WHERE paid = TRUE OR day IS NULL\n1 DROP SCHEMA shop;\n1 COMMIT\n1 SNAPSHOTS\n",
        "1.1 ok 0\n1.2 ok\n1.3 ok\n1.4 ok 2\n1.5 not null \"id\"\n1.6 arity 4 1\n1.7 row 'O''Hara',DATE '2024-02-29'\n1.7 row 'Ng',NULL\n1.7 ok 2\n1.8 not empty \"shop\"\n1.9 ok 1\n1.10 row 0,created_schema:\"main\"\n1.10 row 1,created_schema:\"shop\",created_table:\"shop\".\"orders\"\n1.10 ok 2\n",
    ),
    (
        "1 BEGIN\n1 CREATE TABLE t (a BIGINT)\n1 COMMIT\n1 BEGIN\n1 DROP TABLE t\n1 SELECT * FROM t\n1 ROLLBACK\n",
        "1.1 ok 0\n1.2 ok\n1.3 ok 1\n1.4 ok 1\n1.5 ok\n1.6 no table \"main\".\"t\"\n1.7 ok\n",
    ),
    // tests of rows in three files
    (
        "1 BEGIN\n1 CREATE TABLE t (a BIGINT)\n1 COMMIT\n1 BEGIN\n1 INSERT INTO t VALUES (1), (5)\n1 COMMIT\n1 BEGIN\n1 INSERT INTO t VALUES (6), (9)\n1 COMMIT\n1 BEGIN\n1 INSERT INTO t VALUES (NULL), (20)\n1 COMMIT\n1 BEGIN\n1 SELECT rowid, a FROM t WHERE a IS NULL\n1 SELECT rowid, a FROM t WHERE a = 5\n1 SELECT rowid, a FROM t WHERE a = 6\n1 SELECT rowid, a FROM t WHERE NOT (a = 5)\n1 SELECT rowid, a FROM t WHERE a = NULL\n",
        "1.1 ok 0\n1.2 ok\n1.3 ok 1\n1.4 ok 1\n1.5 ok 2\n1.6 ok 2\n1.7 ok 2\n1.8 ok 2\n1.9 ok 3\n1.10 ok 3\n1.11 ok 2\n1.12 ok 4\n1.13 ok 4\n1.14 row 4,NULL\n1.14 ok 1\n1.15 row 1,5\n1.15 ok 1\n1.16 row 2,6\n1.16 ok 1\n1.17 row 0,1\n1.17 row 2,6\n1.17 row 3,9\n1.17 row 5,20\n1.17 ok 4\n1.18 ok 0\n",
    ),
];

/// The scripts as a list of which proofs know nothing: each test's proof is then that of one script.
fn scripts() -> &'static [(&'static str, &'static str)] {
    SCRIPTS
}

/// A source that gives one byte at a time.
#[derive(Drop)]
struct SlowSource {
    source: SureSource,
}

impl Source for SlowSource {
    ghost use Rattle.std.specs.Prelude.{Some};

    ghost left = { λ s. Some s.source.left };

    ghost given = { λ s. s.source.given };

    ghost faults = { λ s. 0 };

    fn read(&mut self, into: &mut [u8]) -> Result<usize, Failed> {
        let mut one = [0u8; 1];
        let count = self.source.read(&mut one)?;
        into[0] = one[0];
        Ok(count)
    }
}

#[test]
fn scripts_are_answered(rt: HostRuntime) -> Result<(), Fail> {
    let alloc = rt.alloc();
    for &(script, written) in scripts() {
        let bytes = script.as_bytes().to_vec(alloc)?;
        assert!(rt; bytes_end(alloc, bytes, Status::Good, written)?, "{script}");
    }
    Ok(())
}

#[test]
fn scripts_come_byte_by_byte(rt: HostRuntime) -> Result<(), Fail> {
    let alloc = rt.alloc();
    for &(script, written) in scripts() {
        let source = SureSource::new(script.as_bytes().to_vec(alloc)?);
        let mut input = SlowSource { source };
        assert!(rt; ends(alloc, &mut input, Status::Good, written)?, "{script}");
    }
    Ok(())
}

#[test]
fn a_line_lies_in_two_pieces(rt: HostRuntime) -> Result<(), Fail> {
    let alloc = rt.alloc();
    let mut script = vec![in alloc; b'#'; 65_532]?;
    script.extend_from_slice(b"\n1 BEGIN\n1 COMMIT\n")?;
    assert!(rt; bytes_end(alloc, script, Status::Good, "1.1 ok 0\n1.2 ok 0\n")?);
    Ok(())
}
