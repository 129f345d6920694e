//! Places and contents in a ring: found, put behind, taken out, and all of them replaced.
ghost use Rattle.std.specs.Prelude.{◌≡◌, ◌≤◌, ◌<◌, ◌++◌, ◌∷◌, [], Option, option_copied, length};
ghost use Rattle.circular_buffer.specs.Buffer.{buffer};
ghost use Rattle.mqtt_flow.specs.ring.AtHand.{Ascend, are_below, content_in, without};

use circular_buffer::HeapCircularBuffer;

/// What the copy at a place says, among some in a row.
fn find_among<T>(entries: &[(u64, T)], place: u64) -> Option<&T>
    ensures { option_copied result ≡ content_in place entries.now }
{
    for entry in entries {
        if entry.0 == place {
            return Some(&entry.1);
        }
    }
    None
}

/// What the copy at a place says, if it is in the ring.
pub(crate) fn find<T>(ring: &HeapCircularBuffer<(u64, T)>, place: u64) -> Option<&T>
    ensures { option_copied result ≡ content_in place ring.now.items }
{
    let (front, back) = ring.as_slices();
    match find_among(front, place) {
        Some(content) => Some(content),
        None => find_among(back, place),
    }
}

/// Whether a place is above all in the ring.
pub(crate) fn is_behind<T>(ring: &HeapCircularBuffer<(u64, T)>, place: u64) -> bool
    requires { Ascend ring.now.items }
    ensures { result ≡ are_below place ring.now.items }
{
    match ring.back() {
        Some(last) => last.0 < place,
        None => true,
    }
}

/// Takes out what is at a place, if anything is, by one turn of the ring.
fn turn_without<T: Drop>(ring: &mut HeapCircularBuffer<(u64, T)>, place: u64)
    requires { length ring.old.items ≤ ring.old.capacity }
    ensures { ring.new ≡ buffer (without place ring.old.items) ring.old.capacity }
{
    for _turn in 0..ring.len() {
        if let Some(entry) = ring.pop_front() {
            if entry.0 != place {
                ring.push_back(entry);
            }
        }
    }
}

/// Takes out what is at a place, if anything is. The ring turns only if that place is behind the
/// first one.
pub(crate) fn remove<T: Drop>(ring: &mut HeapCircularBuffer<(u64, T)>, place: u64)
    requires few { length ring.old.items ≤ ring.old.capacity }
    requires order { Ascend ring.old.items }
    ensures { ring.new ≡ buffer (without place ring.old.items) ring.old.capacity }
{
    let first = match ring.front() {
        Some(entry) => entry.0,
        None => return,
    };
    if first == place {
        ring.pop_front();
    } else if first < place {
        turn_without(ring, place);
    }
}

/// Puts entries into the ring, in place of all that were there.
pub(crate) fn refill<T: Drop>(ring: &mut HeapCircularBuffer<(u64, T)>, entries: Vec<(u64, T)>)
    requires { length entries.items ≤ ring.old.capacity }
    ensures { ring.new ≡ buffer entries.items ring.old.capacity }
{
    ring.clear();
    for entry in entries {
        ring.push_back(entry);
    }
}
