//! The filters of a tree, by their numbers (MQTT 5.0, 4.7.1).
ghost use Rattle.std.specs.Prelude.{◌≡◌, ◌<◌, [], ℕ, List, length, get_or};

/// Filters in the order of their levels, numbered from 0. No call takes memory.
pub trait Filters {
    ghost texts: { Self → List (List ℕ) };

    /// How many there are.
    fn count(&self) -> usize
        ensures { result ≡ length (texts self.now) };

    /// The text of one, that of a shared one without `$share` and its name.
    fn text(&self, number: usize) -> &str
        requires { number < length (texts self.now) }
        ensures { result.now ≡ get_or (texts self.now) number [] };
}
