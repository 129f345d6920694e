//! Levels of a filter behind others (MQTT 5.0, 4.7.1.1).
ghost use Rattle.std.specs.Prelude.{◌≡◌, ◌∷◌, [], length, true, Some, IfNone, IfSome};
ghost use Rattle.mqtt_topic.specs.names.Levels.{levels};
ghost use Rattle.mqtt_topic.specs.names.Matching.{matches_levels};
ghost use Rattle.mqtt_routes.specs.tree.Tree.{begins_with, end_of, is_before, levels_behind};

use std::cmp::Ordering;

/// The first level of a text. Takes no memory.
fn first_level(text: &[u8]) -> &[u8]
    ensures { levels text.now ≡ result.now ∷ levels_behind (Some (length result.now)) text.now }
{
    for (i, byte) in text.iter().enumerate() {
        if *byte == b'/' {
            return &text[..i];
        }
    }
    text
}

/// The level of a text behind the one that ends at a byte, or the first; none at the text's end.
/// Takes no memory.
fn level_behind(text: &[u8], end: Option<usize>) -> Option<&[u8]>
    ensures none { IfNone result (levels_behind end text.now ≡ []) }
    ensures some { IfSome result (λ level. levels_behind end text.now
        ≡ level.now ∷ levels_behind (Some (end_of end level.now)) text.now) }
{
    let Some(end) = end else {
        return Some(first_level(text));
    };
    if end >= text.len() {
        return None;
    }
    Some(first_level(&text[end + 1..]))
}

/// Whether the levels of a text behind the one that ends at a byte come before all that begin with
/// a level; with `also`, those that begin with it too. Takes no memory.
pub(crate) fn is_before(text: &str, end: Option<usize>, also: bool, level: &str) -> bool
    ensures { result ≡ is_before also level.now (levels_behind end text.now) }
{
    let Some(first) = level_behind(text.as_bytes(), end) else {
        return true;
    };
    match first.cmp(level.as_bytes()) {
        Ordering::Less => true,
        Ordering::Equal => also,
        Ordering::Greater => false,
    }
}

/// Where a level of bytes ends. Takes no memory.
fn end_in(text: &[u8], end: Option<usize>, level: &[u8]) -> usize
    requires { begins_with level.now (levels_behind end text.now) ≡ true }
    ensures { result ≡ end_of end level.now }
{
    let count = text.len();
    match end {
        None => level.len(),
        Some(end) => end + 1 + level.len(),
    }
}

/// Where a level of a text ends. Takes no memory.
pub(crate) fn end_of(text: &str, end: Option<usize>, level: &str) -> usize
    requires { begins_with level.now (levels_behind end text.now) ≡ true }
    ensures { result ≡ end_of end level.now }
{
    end_in(text.as_bytes(), end, level.as_bytes())
}

/// Whether the levels of a filter behind the one that ends at a byte match those of a name behind
/// one that ends at another. Takes no memory.
pub(crate) fn matches_behind(
    filter: &[u8],
    end: Option<usize>,
    name: &[u8],
    at: Option<usize>,
) -> bool
    ensures { result ≡ matches_levels (levels_behind end filter.now) (levels_behind at name.now) }
{
    let mut reached = end;
    let mut taken = at;
    while let Some(level) = level_behind(filter, reached) {
        if level == b"#".as_slice() {
            return true;
        }
        let Some(own) = level_behind(name, taken) else {
            return false;
        };
        if level != b"+".as_slice() && level != own {
            return false;
        }
        reached = Some(end_in(filter, reached, level));
        taken = Some(end_in(name, taken, own));
    }
    level_behind(name, taken).is_none()
}
