//! Changes of the tables that both schemas have, a line each behind its name, after which a load takes a database or refuses
//! it: one for each rule of these tables, and others at the edge of a rule.

/// Databases of another schema.
pub(crate) fn others() -> &'static str {
    "\
-- another schema
UPDATE meta SET n = 9 WHERE name = 'schema'
-- schema 0
UPDATE meta SET n = 0 WHERE name = 'schema'
-- no schema
DELETE FROM meta WHERE name = 'schema'
-- no table meta
DROP TABLE meta
-- a schema that is no number
DROP TABLE meta; CREATE TABLE meta (name TEXT, n TEXT); INSERT INTO meta VALUES ('schema', 'one')
-- a meta of other columns
DROP TABLE meta; CREATE TABLE meta (a INTEGER)
"
}

/// A table more, and numbers, sessions and Wills that break a rule.
pub(crate) fn broken_sessions() -> &'static str {
    "\
-- a further table
CREATE TABLE more (a INTEGER) STRICT
-- a missing counter
DELETE FROM meta WHERE name = 'moment'
-- a further counter
INSERT INTO meta VALUES ('more', 1)
-- a counter above 2^62
UPDATE meta SET n = 4611686018427387905 WHERE name = 'subscribes'
-- a moment above 2^62
UPDATE meta SET n = 4611686018427387905 WHERE name = 'moment'
-- a counter below 0
UPDATE meta SET n = -1 WHERE name = 'autos'
-- a client of no byte
UPDATE session SET client = '' WHERE birth = 1
-- a client of 65 bytes
UPDATE session SET client = '12345678901234567890123456789012345678901234567890123456789012345' WHERE birth = 1
-- a client that is no text
UPDATE session SET client = CAST(x'ff' AS TEXT) WHERE birth = 1
-- a client with the null character
UPDATE session SET client = CAST(x'610062' AS TEXT) WHERE birth = 1
-- a client that was never assigned
UPDATE session SET client = 'auto-1' WHERE birth = 1
-- a client that is never assigned
UPDATE meta SET n = 1 WHERE name = 'autos'; UPDATE session SET client = 'auto-01' WHERE birth = 1
-- an expiry above its range
UPDATE session SET expiry = 4294967296 WHERE birth = 1
-- a close after the last moment
UPDATE session SET closed = 1 WHERE birth = 1
-- a birth above the last
INSERT INTO session VALUES (3, 'x', 60, NULL)
-- births of 1
UPDATE meta SET n = 1 WHERE name = 'births'
-- a birth of 0
INSERT INTO session VALUES (0, 'x', 60, NULL)
-- a delay above its range
UPDATE will SET delay = 4294967296
-- a Will of QoS 3
UPDATE will SET qos = 3
-- a Will retained twice
UPDATE will SET retain = 2
-- a Will to a wildcard
UPDATE will SET topic = 'a/+'
-- a Will to no text
UPDATE will SET topic = CAST(x'ff' AS TEXT)
-- a Will with a foreign property
UPDATE will SET props = x'03230001'
-- a Will with bytes behind its properties
UPDATE will SET props = x'0000'
"
}

/// Subscriptions and open identifiers that break a rule.
pub(crate) fn broken_subscriptions() -> &'static str {
    "\
-- a filter that is none
UPDATE sub SET filter = 'a/#/b'
-- a filter of no byte
UPDATE sub SET filter = ''
-- a filter that is no text
UPDATE sub SET filter = CAST(x'c0' AS TEXT)
-- two equal places
INSERT INTO sub VALUES (1, 'c', 1, 2, 0, 0, 0, 0)
-- two equal places of two sessions
INSERT INTO sub VALUES (2, 'a/b', 1, 2, 0, 0, 0, 0)
-- a place of 0
UPDATE sub SET place = 0
-- a place above the last subscribe
UPDATE sub SET place = 2
-- a maximum QoS of 3
UPDATE sub SET qos = 3
-- No Local twice
UPDATE sub SET nolocal = 2
-- Retain As Published below 0
UPDATE sub SET rap = -1
-- a Retain Handling of 3
UPDATE sub SET handling = 3
-- a Subscription Identifier above its range
UPDATE sub SET ident = 268435456
-- an open identifier 0
UPDATE inbound SET ident = 0
-- an open identifier above its range
UPDATE inbound SET ident = 65536
"
}

/// Lists with one row more than there may be.
pub(crate) fn crowded() -> &'static str {
    "\
-- 1,000 sessions and one
UPDATE meta SET n = 1001 WHERE name = 'births'; INSERT INTO session WITH RECURSIVE n (i) AS (SELECT 3 UNION ALL SELECT i + 1 FROM n WHERE i < 1000) SELECT i, 'c' || i, 60, NULL FROM n; INSERT INTO session VALUES (1001, 'more', 60, NULL)
-- 100 subscriptions and one
UPDATE meta SET n = 101 WHERE name = 'subscribes'; INSERT INTO sub WITH RECURSIVE n (i) AS (SELECT 2 UNION ALL SELECT i + 1 FROM n WHERE i < 100) SELECT 1, 'f/' || i, i, 0, 0, 0, 0, 0 FROM n; INSERT INTO sub VALUES (1, 'more', 101, 0, 0, 0, 0, 0)
-- 20 open identifiers and one
INSERT INTO inbound WITH RECURSIVE n (i) AS (SELECT 11 UNION ALL SELECT i + 1 FROM n WHERE i < 29) SELECT 2, i FROM n; INSERT INTO inbound VALUES (2, 30)
"
}

/// Lists with as many rows as there may be, and rows at the edge of a rule.
pub(crate) fn sound() -> &'static str {
    "\
-- 1,000 sessions
UPDATE meta SET n = 1001 WHERE name = 'births'; INSERT INTO session WITH RECURSIVE n (i) AS (SELECT 3 UNION ALL SELECT i + 1 FROM n WHERE i < 1000) SELECT i, 'c' || i, 60, NULL FROM n
-- 100 subscriptions
UPDATE meta SET n = 101 WHERE name = 'subscribes'; INSERT INTO sub WITH RECURSIVE n (i) AS (SELECT 2 UNION ALL SELECT i + 1 FROM n WHERE i < 100) SELECT 1, 'f/' || i, i, 0, 0, 0, 0, 0 FROM n
-- 20 open identifiers
INSERT INTO inbound WITH RECURSIVE n (i) AS (SELECT 11 UNION ALL SELECT i + 1 FROM n WHERE i < 29) SELECT 2, i FROM n
-- the greatest counter: publications of 2^62
UPDATE meta SET n = 4611686018427387904 WHERE name = 'publications'
-- the greatest moment
UPDATE meta SET n = 4611686018427387904 WHERE name = 'moment'
-- a client of 64 bytes
UPDATE session SET client = '1234567890123456789012345678901234567890123456789012345678901234' WHERE birth = 1
-- the greatest delay
UPDATE will SET delay = 4294967295
-- a Will of QoS 2
UPDATE will SET qos = 2
-- the greatest Subscription Identifier
UPDATE sub SET ident = 268435455
-- the greatest Retain Handling and all flags
UPDATE sub SET handling = 2, nolocal = 1, rap = 1
-- the greatest open identifier
UPDATE inbound SET ident = 65535
-- a close at the last moment
UPDATE session SET closed = 0 WHERE birth = 1
-- an assigned client
UPDATE meta SET n = 1 WHERE name = 'autos'; UPDATE session SET client = 'auto-1' WHERE birth = 1
-- no session
DELETE FROM session
-- an empty payload
UPDATE will SET payload = x''
"
}
