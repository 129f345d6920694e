//! Which filter matches which topic name (MQTT 5.0, 4.7.1, 4.7.2).
ghost use Rattle.std.specs.Prelude.{◌≡◌, ◌↔◌, nat_eq, IsTrue};
ghost use Rattle.mqtt_topic.specs.names.Levels.{levels};
ghost use Rattle.mqtt_topic.specs.names.Matching.{are_apart, is_match, matches_levels, Matches};

use crate::names::filter::Filter;
use crate::names::levels::Levels;
use crate::names::name::TopicName;

/// Whether the levels of a filter take those of a name.
fn matches_levels(filter: &str, name: &str) -> bool
    ensures { result ≡ matches_levels (levels filter.now) (levels name.now) }
{
    let mut filters = Levels::of(filter);
    let mut names = Levels::of(name);
    while let Some(level) = filters.next() {
        if level == "#" {
            return true;
        }
        match names.next() {
            Some(taken) if level == "+" || level == taken => {}
            _ => return false,
        }
    }
    names.is_at_end()
}

/// Whether the filter begins with a wildcard and the name with `$`.
fn are_apart(filter: &str, name: &str) -> bool
    ensures { result ≡ are_apart filter.now name.now }
{
    let begins_wild = matches!(filter.as_bytes().first(), Some(b'+' | b'#'));
    begins_wild && matches!(name.as_bytes().first(), Some(b'$'))
}

/// Whether the text of a filter matches a name. Takes no memory.
pub(crate) fn is_match(filter: &str, name: &str) -> bool
    ensures { result ≡ is_match filter.now name.now }
{
    matches_levels(filter, name) && !are_apart(filter, name)
}

/// Whether a filter matches a topic name (4.7). Takes no memory.
pub fn matches(filter: &Filter, name: &TopicName) -> bool
    ensures answer { result ≡ is_match filter.now name.now }
    ensures exact { IsTrue result ↔ Matches filter.now name.now }
{
    is_match(filter.as_str(), name.as_str())
}
