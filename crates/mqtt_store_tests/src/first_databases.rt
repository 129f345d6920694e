//! A database of schema 1, and changes of it, a line each behind its name, after which a load takes it over or refuses it:
//! one for each rule of the two tables that schema 2 has no more, and others at the edge of a rule.

/// The rows of the long course in the tables of schema 1.
pub(crate) fn rows_of_the_course() -> &'static str {
    "\
UPDATE meta SET n = 2 WHERE name = 'births';
UPDATE meta SET n = 1 WHERE name = 'publications';
UPDATE meta SET n = 1 WHERE name = 'subscribes';
INSERT INTO session VALUES (1, 'r1', 4294967295, NULL), (2, 'p1', 4294967295, NULL);
INSERT INTO will VALUES (2, 5, 'w', 1, 1, x'00', x'676f6e65');
INSERT INTO sub VALUES (1, 'a/b', 1, 2, 0, 0, 0, 0);
INSERT INTO inbound VALUES (2, 10);
INSERT INTO copy VALUES (1, 1, 1, 0, '', 0, 1, 1, NULL, 'a/b', 2, 0, x'00', x'6869', 0);
INSERT INTO retained VALUES (1, 'a/b', 'p1', 1, 2, x'00', x'6869', 0)
"
}

/// Tables that are not those of schema 1.
pub(crate) fn broken_first_tables() -> &'static str {
    "\
-- a missing table
DROP TABLE retained
-- a missing column
DROP TABLE retained; CREATE TABLE retained (place INTEGER PRIMARY KEY, topic TEXT NOT NULL UNIQUE) STRICT
-- a further index
CREATE INDEX more ON retained (sender)
-- a schema of 2 in the tables of schema 1
UPDATE meta SET n = 2 WHERE name = 'schema'
-- a table of schema 2
CREATE TABLE message (pub INTEGER PRIMARY KEY, topic TEXT NOT NULL, props BLOB NOT NULL, payload BLOB NOT NULL) STRICT
"
}

/// Retained messages that break a rule.
pub(crate) fn broken_retained() -> &'static str {
    "\
-- a retained message to a wildcard
UPDATE retained SET topic = 'a/#'
-- a retained message of QoS 3
UPDATE retained SET qos = 3
-- a retained message of no publication yet
UPDATE retained SET pub = 2
-- a retained message from the future
UPDATE retained SET arrived = 1
-- a retained message to no text
UPDATE retained SET topic = CAST(x'ff' AS TEXT)
-- a retained message with a foreign property
UPDATE retained SET props = x'03230001'
-- a retained message with an identifier
UPDATE retained SET props = x'020b01'
-- a sender that is no text
UPDATE retained SET sender = CAST(x'ff' AS TEXT)
-- a retained place of 0
UPDATE retained SET place = 0
-- a retained place above 2^62
UPDATE retained SET place = 4611686018427387905
"
}

/// Copies that break a rule.
pub(crate) fn broken_copies() -> &'static str {
    "\
-- sent without an identifier
UPDATE copy SET pid = NULL
-- waiting with an identifier
UPDATE copy SET phase = 0
-- waiting with an order of release
UPDATE copy SET pid = NULL, phase = 0, rel = 1
-- sent with an order of release
UPDATE copy SET rel = 1
-- released without an identifier
UPDATE copy SET phase = 2, pid = NULL, rel = 1
-- too large without an identifier
UPDATE copy SET phase = 3, pid = NULL, rel = 1
-- released without an order
UPDATE copy SET phase = 2
-- too large without an order
UPDATE copy SET phase = 3
-- released at QoS 1
UPDATE copy SET phase = 2, rel = 1, qos = 1
-- too large at QoS 1
UPDATE copy SET phase = 3, rel = 1, qos = 1
-- a phase of 4
UPDATE copy SET phase = 4
-- an identifier 0
UPDATE copy SET pid = 0
-- an identifier above its range
UPDATE copy SET pid = 65536
-- a QoS of 3
UPDATE copy SET qos = 3
-- a QoS of 0
UPDATE copy SET qos = 0
-- RETAIN twice
UPDATE copy SET retain = 2
-- a publication above the last
UPDATE copy SET pub = 2
-- an unknown cause
UPDATE copy SET cause = 3
-- a shared copy of a subscribe
UPDATE copy SET cause = 1, cause_text = 'g/a/b', cause_n = 1
-- a shared copy of no group
UPDATE copy SET cause = 1
-- a shared copy of a group without a filter
UPDATE copy SET cause = 1, cause_text = 'g'
-- a shared copy of a group without a name
UPDATE copy SET cause = 1, cause_text = '/a/b'
-- a shared copy of a group that has a wildcard for its name
UPDATE copy SET cause = 1, cause_text = 'g+/a/b'
-- a shared copy of a group with a filter that is none
UPDATE copy SET cause = 1, cause_text = 'g/a/#/b'
-- a shared copy of a group that is no text
UPDATE copy SET cause = 1, cause_text = CAST(x'ff' AS TEXT)
-- a direct cause with a group
UPDATE copy SET cause_text = 'g/a'
-- a subscribe above the last
UPDATE copy SET cause = 2, cause_n = 2
-- a topic that is none
UPDATE copy SET topic = '+'
-- a topic that is no text
UPDATE copy SET topic = CAST(x'ff' AS TEXT)
-- no block of properties
UPDATE copy SET props = x''
-- properties in another order
UPDATE copy SET props = x'0b260001780001790b010b02'
-- a Subscription Identifier 0
UPDATE copy SET props = x'020b00'
-- a Topic Alias
UPDATE copy SET props = x'03230001'
-- from the future
UPDATE copy SET arrived = 1
-- a place of 0
UPDATE copy SET place = 0
-- a place above 2^62
UPDATE copy SET place = 4611686018427387905
-- an order above 2^62
UPDATE copy SET phase = 2, rel = 4611686018427387905
-- two equal identifiers
INSERT INTO copy SELECT birth, 2, pub, 2, '', 1, pid, phase, rel, topic, qos, retain, props, payload, arrived FROM copy
-- two equal copies
INSERT INTO copy SELECT birth, 2, pub, cause, cause_text, cause_n, 2, phase, rel, topic, qos, retain, props, payload, arrived FROM copy
-- an order of 0
UPDATE copy SET phase = 2, rel = 0
-- another topic than its retained message
UPDATE copy SET topic = 'a/c'
-- another payload than its retained message
UPDATE copy SET payload = x'6869ff'
-- another property than its retained message
UPDATE copy SET props = x'0726000178000179'
-- another payload than a second copy of its publication
DELETE FROM retained; INSERT INTO copy SELECT birth, 2, pub, 2, '', 1, 2, phase, rel, topic, qos, retain, props, x'ff', arrived FROM copy
-- two equal orders
UPDATE copy SET phase = 2, rel = 1; INSERT INTO copy SELECT birth, 2, pub, 2, '', 1, 2, phase, rel, topic, qos, retain, props, payload, arrived FROM copy
"
}

/// Lists with one row more than there may be.
pub(crate) fn crowded_copies() -> &'static str {
    "\
-- 1,000 copies and one
UPDATE meta SET n = 1001 WHERE name = 'publications'; INSERT INTO copy WITH RECURSIVE n (i) AS (SELECT 2 UNION ALL SELECT i + 1 FROM n WHERE i < 1000) SELECT 1, i, i, 0, '', 0, NULL, 0, NULL, 'a/b', 2, 0, x'00', x'', 0 FROM n; INSERT INTO copy VALUES (1, 1001, 1001, 0, '', 0, NULL, 0, NULL, 'a/b', 2, 0, x'00', x'', 0)
-- 1,000 retained messages and one
UPDATE meta SET n = 1001 WHERE name = 'publications'; INSERT INTO retained WITH RECURSIVE n (i) AS (SELECT 2 UNION ALL SELECT i + 1 FROM n WHERE i < 1000) SELECT i, 't/' || i, 'p1', i, 0, x'00', x'', 0 FROM n; INSERT INTO retained VALUES (1001, 'more', 'p1', 1001, 0, x'00', x'', 0)
"
}

/// Lists with as many rows as there may be, and rows at the edge of a rule.
pub(crate) fn sound_copies() -> &'static str {
    "\
-- the greatest place of a retained message
UPDATE retained SET place = 4611686018427387904
-- a waiting copy
UPDATE copy SET pid = NULL, phase = 0
-- a released copy
UPDATE copy SET phase = 2, rel = 4611686018427387904
-- a released copy that was too large
UPDATE copy SET phase = 3, rel = 1
-- a copy of QoS 1
UPDATE copy SET qos = 1
-- the greatest identifier
UPDATE copy SET pid = 65535
-- a shared copy
UPDATE copy SET cause = 1, cause_text = 'g/a/b'
-- a shared copy of another filter
UPDATE copy SET cause = 1, cause_text = 'g/+/#'
-- Subscription Identifiers before a User Property
DELETE FROM retained; UPDATE copy SET props = x'0b0b010b0226000178000179'
-- Subscription Identifiers of a copy alone
UPDATE copy SET props = x'040b010b02'
-- another topic, of a publication of its own
UPDATE meta SET n = 2 WHERE name = 'publications'; UPDATE copy SET pub = 2, topic = 'a/c'
-- a retained message that came at another moment
UPDATE meta SET n = 1 WHERE name = 'moment'; UPDATE retained SET arrived = 1
-- a second copy
INSERT INTO copy SELECT birth, 2, pub, 2, '', 1, 2, phase, rel, topic, qos, retain, props, payload, arrived FROM copy
-- the greatest place
UPDATE copy SET place = 4611686018427387904
-- 1,000 copies
UPDATE meta SET n = 1001 WHERE name = 'publications'; INSERT INTO copy WITH RECURSIVE n (i) AS (SELECT 2 UNION ALL SELECT i + 1 FROM n WHERE i < 1000) SELECT 1, i, i, 0, '', 0, NULL, 0, NULL, 'a/b', 2, 0, x'00', x'', 0 FROM n
-- 1,000 retained messages
UPDATE meta SET n = 1001 WHERE name = 'publications'; INSERT INTO retained WITH RECURSIVE n (i) AS (SELECT 2 UNION ALL SELECT i + 1 FROM n WHERE i < 1000) SELECT i, 't/' || i, 'p1', i, 0, x'00', x'', 0 FROM n
"
}
