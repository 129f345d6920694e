//! Laws of the rounds of a drain, as a receiver's hop sees them (4.3, 4.4).
ghost use Rattle.std.specs.Prelude.{◌*◌, ◌≡◌, ◌≤◌, [], ℕ, List, false, length, slice_get, take, true};
ghost use Rattle.mqtt_flow.specs.outbound.OutboundWorld.{Event, queue_of, run, start};
ghost use Rattle.mqtt_world_laws.specs.receiver.Rounds.{EndsBy, IsFurther, IsUnderWay, after_round, drained, is_over, rounds_taken};

/// In every run of a hop, while the session is connected on the receiver's line: for each copy whose PUBLISH went out
/// there, and for each that is released, its PUBLISH or PUBREL is under way to the receiver, or the answer to it is
/// under way back. So nothing that is due is lost but with the line.
pub fn what_is_due_is_under_way()
    ensures is_under_way { (largest : ℕ) (events : List Event) →
        (run largest events start).linked ≡ true → IsUnderWay (run largest events start) }
{}

/// After any run of a hop, if copies are left and the session is connected on the receiver's line, a round takes
/// them further, whatever the receiver's Receive Maximum (`window`, at least 1) and the moment: a pump, all packets to
/// the receiver, and all of its answers to the session. The session stays connected there.
pub fn a_round_takes_a_copy_further()
    ensures is_further { (largest window now : ℕ) (events : List Event) →
        1 ≤ window → is_over (run largest events start) ≡ false →
        IsFurther (run largest events start) (after_round largest window now (run largest events start)) }
{}

/// So a drain of a hop takes at most two rounds for each copy that stands in the queue, each at a moment of its own; and
/// if the session is connected on the receiver's line, the queue is empty after so many, and it is connected still.
/// Each copy that ends in it was taken, had expired at the moment of one of its rounds, or is too large for the receiver.
pub fn a_drain_of_a_hop_ends()
    ensures is_within { (largest window : ℕ) (moments : List ℕ) (events : List Event) →
        1 ≤ window →
        rounds_taken largest window moments (run largest events start)
        ≤ 2 * length (queue_of (run largest events start).copies) }
    ensures is_empty { (largest window : ℕ) (moments : List ℕ) (events : List Event) →
        1 ≤ window → (run largest events start).linked ≡ true →
        2 * length (queue_of (run largest events start).copies) ≤ length moments →
        queue_of (drained largest window moments (run largest events start)).copies ≡ [] }
    ensures is_linked { (largest window : ℕ) (moments : List ℕ) (events : List Event) →
        1 ≤ window → (run largest events start).linked ≡ true →
        2 * length (queue_of (run largest events start).copies) ≤ length moments →
        (drained largest window moments (run largest events start)).linked ≡ true }
    ensures causes { (largest window : ℕ) (moments : List ℕ) (events : List Event) (n : ℕ) →
        1 ≤ window →
        EndsBy largest (take (rounds_taken largest window moments (run largest events start)) moments)
        (slice_get (run largest events start).copies n)
        (slice_get (drained largest window moments (run largest events start)).copies n) }
{}
