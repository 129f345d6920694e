//! The levels of a text, one after another (MQTT 5.0, 4.7.1.1).
ghost use Rattle.std.specs.Prelude.{◌≡◌, ◌∷◌, [], length, IfNone, IfSome};
ghost use Rattle.mqtt_topic.specs.names.Levels.{levels, is_none_left};

use std::marker::Model;

/// The levels of a topic name or filter that are left, lent: no text is copied.
#[derive(Drop)]
pub struct Levels<'a> {
    rest: Option<&'a str>,
}

impl<'a> Model for Levels<'a> {
    ghost use Rattle.std.specs.Prelude.{List, ℕ};
    ghost use Rattle.mqtt_topic.specs.names.Levels.{levels_left};

    ghost Value = { List (List ℕ) };

    ghost view = { λ l. levels_left l.rest };
}

impl<'a> Levels<'a> {
    /// The levels of a text, of which there is at least one.
    pub(crate) fn of(text: &'a str) -> Levels<'a>
        ensures { result ≡ levels text.now }
    {
        Levels { rest: Some(text) }
    }

    /// Takes the next level off; none if no level is left. Takes no memory.
    pub fn next(&mut self) -> Option<&'a str>
        ensures none { IfNone result (self.old ≡ []) }
        ensures after { IfNone result (self.new ≡ []) }
        ensures some { IfSome result (λ level. self.old ≡ level.now ∷ self.new) }
    {
        let text = self.rest?;
        match text.split_once('/') {
            Some((level, rest)) => {
                self.rest = Some(rest);
                Some(level)
            }
            None => {
                self.rest = None;
                Some(text)
            }
        }
    }

    /// Whether no level is left. Takes no memory.
    pub fn is_at_end(&self) -> bool
        ensures { result ≡ is_none_left self.now }
    {
        self.rest.is_none()
    }
}
