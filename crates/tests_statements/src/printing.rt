//! Lines of each statement, and how their statements are printed.

use crate::answers::is_printed;
use std::test::Fail;

/// Lines with what they say, printed.
const LINES: [(&[u8], &str); 28] = [
    (b"1\tbeGIN ", "1 BEGIN "),
    (
        b"16 BEGIN at(Version=>007);",
        "16 BEGIN AT ( VERSION => 7 ) ",
    ),
    (b"01\tCommit ;", "1 COMMIT "),
    (b"  2  rollback", "2 ROLLBACK "),
    (b"3 create\t schemA  S1", "3 CREATE SCHEMA \"S1\" "),
    (b"3 DROP\tschema  \"a\"\"b\"", "3 DROP SCHEMA \"a\"\"b\" "),
    (
        b"1 CREATE TABLE date(a boolean,b TinyInt,c smallint)",
        "1 CREATE TABLE \"main\" . \"date\" ( \"a\" BOOLEAN , \"b\" TINYINT , \"c\" SMALLINT ) ",
    ),
    (
        b"1 create table s.t (d integer not null,e bigint default -0,f varchar NOT null default 'it''s')",
        "1 CREATE TABLE \"s\" . \"t\" ( \"d\" INTEGER NOT NULL , \"e\" BIGINT DEFAULT 0 , \"f\" VARCHAR NOT NULL DEFAULT 'it''s' ) ",
    ),
    (
        b"1CREATE TABLE t(g blob default X'0Aff',h DATE default date'0001-01-01')",
        "1 CREATE TABLE \"main\" . \"t\" ( \"g\" BLOB DEFAULT x'0aff' , \"h\" DATE DEFAULT DATE '0001-01-01' ) ",
    ),
    (b"1\tDrop  tAbLe t ", "1 DROP TABLE \"main\" . \"t\" "),
    (
        b"1 ALTER TABLE t ADD COLUMN c varchar default null",
        "1 ALTER TABLE \"main\" . \"t\" ADD COLUMN \"c\" VARCHAR DEFAULT NULL ",
    ),
    (
        b"1 Alter  TABLE\tt dRop column  c",
        "1 ALTER TABLE \"main\" . \"t\" DROP COLUMN \"c\" ",
    ),
    (
        b"1 alter Table t  Rename\tCOLUMN c to\"to\"",
        "1 ALTER TABLE \"main\" . \"t\" RENAME COLUMN \"c\" TO \"to\" ",
    ),
    (
        b"1 alter table t\tALTER column c Set  Data type bigInt",
        "1 ALTER TABLE \"main\" . \"t\" ALTER COLUMN \"c\" SET DATA TYPE BIGINT ",
    ),
    (
        b" 1 ALTER table t alter  column c set Default\t9223372036854775807",
        "1 ALTER TABLE \"main\" . \"t\" ALTER COLUMN \"c\" SET DEFAULT 9223372036854775807 ",
    ),
    (
        b"1 INSERT INTO t VALUES(1,NULL),(-9223372036854775808,default)",
        "1 INSERT INTO \"main\" . \"t\" VALUES ( 1 , NULL ) , ( -9223372036854775808 , DEFAULT ) ",
    ),
    (
        b"1 insert into t values (true, FALSE, '', x'', DATE '9999-12-31')",
        "1 INSERT INTO \"main\" . \"t\" VALUES ( TRUE , FALSE , '' , x'' , DATE '9999-12-31' ) ",
    ),
    (b"1 Delete\tFROM  t", "1 DELETE FROM \"main\" . \"t\" "),
    (
        b"1 delete from t where not not(a=1)",
        "1 DELETE FROM \"main\" . \"t\" WHERE NOT NOT \"a\" = 1 ",
    ),
    (
        b"1 Update t  set a=1,b='x'\twhere a Is null",
        "1 UPDATE \"main\" . \"t\" SET \"a\" = 1 , \"b\" = 'x' WHERE \"a\" IS NULL ",
    ),
    (b"1SELECT*FROM t", "1 SELECT * FROM \"main\" . \"t\" "),
    (
        b"2 select a,rowid from t where a<-1or b is not null and not(c<>'' and d!=2)",
        "2 SELECT \"a\" , ROWID FROM \"main\" . \"t\" WHERE \"a\" < -1 OR \"b\" IS NOT NULL AND NOT ( \"c\" <> '' AND \"d\" <> 2 ) ",
    ),
    (
        b"2 select*from t where(a<=1 or b>2)and((c>=3 and d=4)and e=5)or(f=6 or g=7)",
        "2 SELECT * FROM \"main\" . \"t\" WHERE ( \"a\" <= 1 OR \"b\" > 2 ) AND ( ( \"c\" >= 3 AND \"d\" = 4 ) AND \"e\" = 5 ) OR ( \"f\" = 6 OR \"g\" = 7 ) ",
    ),
    (b"4\tCompact  t", "4 COMPACT \"main\" . \"t\" "),
    (b"4  fluSH t ", "4 FLUSH \"main\" . \"t\" "),
    (
        b"5 Expire\t4611686018427387904",
        "5 EXPIRE 4611686018427387904 ",
    ),
    (b"6\t cLean", "6 CLEAN "),
    (b"7 snapShots\t;", "7 SNAPSHOTS "),
];

/// Lines at which readings of the grammar could differ, with what they say, printed.
const READINGS: [(&[u8], &str); 15] = [
    (b"1 DROP SCHEMA\"\"\"\"", "1 DROP SCHEMA \"\"\"\" "),
    (b"1 EXPIRE -0", "1 EXPIRE 0 "),
    (b"1 EXPIRE 00000000000000000000000000007", "1 EXPIRE 7 "),
    (b"01 BEGIN", "1 BEGIN "),
    (
        b"1 INSERT INTO t VALUES('a\rb')",
        "1 INSERT INTO \"main\" . \"t\" VALUES ( 'a\rb' ) ",
    ),
    (
        b"1 INSERT INTO t VALUES('\0\x01')",
        "1 INSERT INTO \"main\" . \"t\" VALUES ( '\0\x01' ) ",
    ),
    (
        b"1INSERT INTO t VALUES(1),(2)",
        "1 INSERT INTO \"main\" . \"t\" VALUES ( 1 ) , ( 2 ) ",
    ),
    (
        b"1 INSERT INTO t VALUES(DATE'2024-01-01')",
        "1 INSERT INTO \"main\" . \"t\" VALUES ( DATE '2024-01-01' ) ",
    ),
    (
        b"1SELECT*FROM t WHERE a<-1",
        "1 SELECT * FROM \"main\" . \"t\" WHERE \"a\" < -1 ",
    ),
    (
        b"1 CREATE TABLE date(date DATE)",
        "1 CREATE TABLE \"main\" . \"date\" ( \"date\" DATE ) ",
    ),
    (b"1 DROP SCHEMA \"select\"", "1 DROP SCHEMA \"select\" "),
    (b"1 DROP SCHEMA Version", "1 DROP SCHEMA \"Version\" "),
    (b"1 DROP SCHEMA x", "1 DROP SCHEMA \"x\" "),
    (
        b"2 SELECT a, ROWID FROM main.t WHERE (a < -1 OR (b IS NOT NULL AND (NOT c != '')))",
        "2 SELECT \"a\" , ROWID FROM \"main\" . \"t\" WHERE \"a\" < -1 OR \"b\" IS NOT NULL AND NOT \"c\" <> '' ",
    ),
    (
        b"1 INSERT INTO t VALUES (001, null), (X'0a', DEFAULT);",
        "1 INSERT INTO \"main\" . \"t\" VALUES ( 1 , NULL ) , ( x'0a' , DEFAULT ) ",
    ),
];

#[test]
fn each_statement_is_printed(rt: HostRuntime) -> Result<(), Fail> {
    for (line, text) in LINES {
        assert!(rt; is_printed(rt.alloc(), line, text));
        assert!(rt; is_printed(rt.alloc(), text.as_bytes(), text));
    }
    Ok(())
}

#[test]
fn readings_are_printed(rt: HostRuntime) -> Result<(), Fail> {
    for (line, text) in READINGS {
        assert!(rt; is_printed(rt.alloc(), line, text));
    }
    Ok(())
}
