//! Changes of the tables that schema 2 adds, a line each behind its name, after which a load takes a database or refuses it:
//! one for each rule of these tables, and others at the edge of a rule.

/// The database of the course broken in its copy and its numbers.
pub(crate) fn broken_of_the_course() -> &'static str {
    "\
-- a copy that was sent has no identifier
UPDATE queued SET pid = NULL
-- a copy of QoS 3
UPDATE queued SET qos = 3
-- a copy of a publication that there was not
UPDATE meta SET n = 0 WHERE name = 'publications'
"
}

/// Tables and indexes that are not those of schema 2.
pub(crate) fn broken_tables() -> &'static str {
    "\
-- a missing table
DROP TABLE kept
-- a missing column
DROP TABLE kept; CREATE TABLE kept (place INTEGER PRIMARY KEY, topic TEXT NOT NULL UNIQUE) STRICT
-- a missing index
DROP INDEX kept_pub
-- a further index
CREATE INDEX more ON kept (sender)
-- a schema of 1 in the tables of schema 2
UPDATE meta SET n = 1 WHERE name = 'schema'
"
}

/// The same of a database that was taken over, in which the tables of schema 1 stand and have no row.
pub(crate) fn broken_old_tables() -> &'static str {
    "\
-- a missing table of schema 1
DROP TABLE retained
-- a missing table of schema 2
DROP TABLE kept
-- a missing index
DROP INDEX queued_pub
-- a further index
CREATE INDEX more ON copy (pub)
-- a schema of 1 in the tables of schema 2
UPDATE meta SET n = 1 WHERE name = 'schema'
-- a copy that was left
INSERT INTO copy VALUES (1, 2, 1, 2, '', 1, 2, 1, NULL, 'a/b', 2, 0, x'00', x'6869', 0)
-- a retained message that was left
INSERT INTO retained VALUES (1, 'a/b', 'p1', 1, 2, x'00', x'6869', 0)
"
}

/// Retained messages that break a rule.
pub(crate) fn broken_kept() -> &'static str {
    "\
-- a retained message to a wildcard
UPDATE message SET topic = 'a/#'; UPDATE kept SET topic = 'a/#'
-- a retained message of QoS 3
UPDATE kept SET qos = 3
-- a retained message of no publication yet
INSERT INTO message SELECT 2, topic, props, payload FROM message; UPDATE kept SET pub = 2
-- a retained message from the future
UPDATE kept SET arrived = 1
-- a retained message to no text
UPDATE message SET topic = CAST(x'ff' AS TEXT); UPDATE kept SET topic = CAST(x'ff' AS TEXT)
-- a retained message with a foreign property
UPDATE message SET props = x'03230001'
-- a retained message with an identifier
UPDATE message SET props = x'020b01'
-- a sender that is no text
UPDATE kept SET sender = CAST(x'ff' AS TEXT)
-- a retained place of 0
UPDATE kept SET place = 0
-- a retained place above 2^62
UPDATE kept SET place = 4611686018427387905
"
}

/// Copies, and messages to which nothing refers, that break a rule.
pub(crate) fn broken_queued() -> &'static str {
    "\
-- sent without an identifier
UPDATE queued SET pid = NULL
-- waiting with an identifier
UPDATE queued SET phase = 0
-- waiting with an order of release
UPDATE queued SET pid = NULL, phase = 0, rel = 1
-- sent with an order of release
UPDATE queued SET rel = 1
-- released without an identifier
UPDATE queued SET phase = 2, pid = NULL, rel = 1
-- too large without an identifier
UPDATE queued SET phase = 3, pid = NULL, rel = 1
-- released without an order
UPDATE queued SET phase = 2
-- too large without an order
UPDATE queued SET phase = 3
-- released at QoS 1
UPDATE queued SET phase = 2, rel = 1, qos = 1
-- too large at QoS 1
UPDATE queued SET phase = 3, rel = 1, qos = 1
-- a phase of 4
UPDATE queued SET phase = 4
-- an identifier 0
UPDATE queued SET pid = 0
-- an identifier above its range
UPDATE queued SET pid = 65536
-- a QoS of 3
UPDATE queued SET qos = 3
-- a QoS of 0
UPDATE queued SET qos = 0
-- RETAIN twice
UPDATE queued SET retain = 2
-- a publication above the last
INSERT INTO message SELECT 2, topic, props, payload FROM message; UPDATE queued SET pub = 2
-- an unknown cause
UPDATE queued SET cause = 3
-- a shared copy of a subscribe
UPDATE queued SET cause = 1, cause_text = 'g/a/b', cause_n = 1
-- a shared copy of no group
UPDATE queued SET cause = 1
-- a shared copy of a group without a filter
UPDATE queued SET cause = 1, cause_text = 'g'
-- a shared copy of a group without a name
UPDATE queued SET cause = 1, cause_text = '/a/b'
-- a shared copy of a group that has a wildcard for its name
UPDATE queued SET cause = 1, cause_text = 'g+/a/b'
-- a shared copy of a group with a filter that is none
UPDATE queued SET cause = 1, cause_text = 'g/a/#/b'
-- a shared copy of a group that is no text
UPDATE queued SET cause = 1, cause_text = CAST(x'ff' AS TEXT)
-- a direct cause with a group
UPDATE queued SET cause_text = 'g/a'
-- a subscribe above the last
UPDATE queued SET cause = 2, cause_n = 2
-- a topic that is none
DELETE FROM kept; UPDATE message SET topic = '+'
-- a topic that is no text
DELETE FROM kept; UPDATE message SET topic = CAST(x'ff' AS TEXT)
-- no block of properties
UPDATE message SET props = x''
-- a User Property among the Subscription Identifiers
UPDATE queued SET idents = x'26000178000179'
-- a Subscription Identifier 0
UPDATE queued SET idents = x'0b00'
-- a Topic Alias among the Subscription Identifiers
UPDATE queued SET idents = x'230001'
-- from the future
UPDATE queued SET arrived = 1
-- a place of 0
UPDATE queued SET place = 0
-- a place above 2^62
UPDATE queued SET place = 4611686018427387905
-- an order above 2^62
UPDATE queued SET phase = 2, rel = 4611686018427387905
-- two equal identifiers
INSERT INTO queued SELECT birth, 2, pub, 2, '', 1, pid, phase, rel, qos, retain, idents, arrived FROM queued
-- two equal copies
INSERT INTO queued SELECT birth, 2, pub, cause, cause_text, cause_n, 2, phase, rel, qos, retain, idents, arrived FROM queued
-- an order of 0
UPDATE queued SET phase = 2, rel = 0
-- a retained message to another topic than its message
UPDATE kept SET topic = 'a/c'
-- a message to which nothing refers any more
DELETE FROM kept; DELETE FROM queued
-- a message to which nothing refers
UPDATE meta SET n = 2 WHERE name = 'publications'; INSERT INTO message SELECT 2, topic, props, payload FROM message
-- a Subscription Identifier that is cut off
UPDATE queued SET idents = x'0b'
-- two equal orders
UPDATE queued SET phase = 2, rel = 1; INSERT INTO queued SELECT birth, 2, pub, 2, '', 1, 2, phase, rel, qos, retain, idents, arrived FROM queued
"
}

/// Lists with one row more than there may be.
pub(crate) fn crowded_queued() -> &'static str {
    "\
-- 1,000 copies and one
UPDATE meta SET n = 1001 WHERE name = 'publications'; INSERT INTO message WITH RECURSIVE n (i) AS (SELECT 2 UNION ALL SELECT i + 1 FROM n WHERE i < 1000) SELECT i, 'a/b', x'00', x'' FROM n; INSERT INTO queued WITH RECURSIVE n (i) AS (SELECT 2 UNION ALL SELECT i + 1 FROM n WHERE i < 1000) SELECT 1, i, i, 0, '', 0, NULL, 0, NULL, 2, 0, x'', 0 FROM n; INSERT INTO message VALUES (1001, 'a/b', x'00', x''); INSERT INTO queued VALUES (1, 1001, 1001, 0, '', 0, NULL, 0, NULL, 2, 0, x'', 0)
-- 1,000 retained messages and one
UPDATE meta SET n = 1001 WHERE name = 'publications'; INSERT INTO message WITH RECURSIVE n (i) AS (SELECT 2 UNION ALL SELECT i + 1 FROM n WHERE i < 1000) SELECT i, 't/' || i, x'00', x'' FROM n; INSERT INTO kept WITH RECURSIVE n (i) AS (SELECT 2 UNION ALL SELECT i + 1 FROM n WHERE i < 1000) SELECT i, 't/' || i, 'p1', i, 0, 0 FROM n; INSERT INTO message VALUES (1001, 'more', x'00', x''); INSERT INTO kept VALUES (1001, 'more', 'p1', 1001, 0, 0)
"
}

/// Lists with as many rows as there may be, and rows at the edge of a rule.
pub(crate) fn sound_queued() -> &'static str {
    "\
-- 1,000 copies
UPDATE meta SET n = 1001 WHERE name = 'publications'; INSERT INTO message WITH RECURSIVE n (i) AS (SELECT 2 UNION ALL SELECT i + 1 FROM n WHERE i < 1000) SELECT i, 'a/b', x'00', x'' FROM n; INSERT INTO queued WITH RECURSIVE n (i) AS (SELECT 2 UNION ALL SELECT i + 1 FROM n WHERE i < 1000) SELECT 1, i, i, 0, '', 0, NULL, 0, NULL, 2, 0, x'', 0 FROM n
-- 1,000 retained messages
UPDATE meta SET n = 1001 WHERE name = 'publications'; INSERT INTO message WITH RECURSIVE n (i) AS (SELECT 2 UNION ALL SELECT i + 1 FROM n WHERE i < 1000) SELECT i, 't/' || i, x'00', x'' FROM n; INSERT INTO kept WITH RECURSIVE n (i) AS (SELECT 2 UNION ALL SELECT i + 1 FROM n WHERE i < 1000) SELECT i, 't/' || i, 'p1', i, 0, 0 FROM n
-- the greatest place of a retained message
UPDATE kept SET place = 4611686018427387904
-- a waiting copy
UPDATE queued SET pid = NULL, phase = 0
-- a released copy
UPDATE queued SET phase = 2, rel = 4611686018427387904
-- a released copy that was too large
UPDATE queued SET phase = 3, rel = 1
-- a copy of QoS 1
UPDATE queued SET qos = 1
-- the greatest identifier
UPDATE queued SET pid = 65535
-- a shared copy
UPDATE queued SET cause = 1, cause_text = 'g/a/b'
-- a shared copy of another filter
UPDATE queued SET cause = 1, cause_text = 'g/+/#'
-- Subscription Identifiers before a User Property
UPDATE message SET props = x'0726000178000179'; UPDATE queued SET idents = x'0b010b02'
-- Subscription Identifiers of a copy alone
UPDATE queued SET idents = x'0b010b02'
-- another topic, of a publication of its own
UPDATE meta SET n = 2 WHERE name = 'publications'; INSERT INTO message VALUES (2, 'a/c', x'00', x'6869'); UPDATE queued SET pub = 2
-- a retained message that came at another moment
UPDATE meta SET n = 1 WHERE name = 'moment'; UPDATE kept SET arrived = 1
-- a second copy
INSERT INTO queued SELECT birth, 2, pub, 2, '', 1, 2, phase, rel, qos, retain, idents, arrived FROM queued
-- the greatest place
UPDATE queued SET place = 4611686018427387904
"
}
