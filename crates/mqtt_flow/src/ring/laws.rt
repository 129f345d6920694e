//! Laws of what is at hand: it is what the store tells, the others stay, and they are consecutive (MQTT 5.0, 4.1, 4.6).
ghost use Rattle.std.specs.Prelude.{◌≡◌, ◌≢◌, ℕ, true, Bool, List, ◌++◌, ◌∷◌, [], Some, None};
ghost use Rattle.mqtt_flow.specs.ring.AtHand.{Ascend, ContentsAtHand, IsStretch, SayWhatIsTold, content_at, entered, has_room, left, places, queue_without};

/// Whatever a store tells of places: what is at hand says just that, after each call too. So what is
/// found is what is told. A copy that enters says what is told of it, and of the place of one that
/// left anything may be told.
pub fn at_hand_is_what_is_told<T>()
    ensures found { (told : ℕ → T) (a : ContentsAtHand T) (place : ℕ) (content : T)
        → SayWhatIsTold told a.entries → content_at place a ≡ Some content → content ≡ told place }
    ensures entered { (told : ℕ → T) (a : ContentsAtHand T) (place : ℕ)
        → SayWhatIsTold told a.entries → SayWhatIsTold told (entered place (told place) a).entries }
    ensures left { (told after : ℕ → T) (a : ContentsAtHand T) (place : ℕ)
        → ((p : ℕ) → p ≢ place → after p ≡ told p)
        → SayWhatIsTold told a.entries → SayWhatIsTold after (left place a).entries }
{}

/// A copy that enters is found where there is room and no copy waits between; one that left isn't;
/// and every other copy is found as before.
pub fn others_stay_at_hand<T>()
    ensures found { (a : ContentsAtHand T) (place : ℕ) (content : T)
        → a.reaches_end ≡ true → has_room place a.entries ≡ true
        → content_at place (entered place content a) ≡ Some content }
    ensures others_of_entered { (a : ContentsAtHand T) (place other : ℕ) (content : T)
        → other ≢ place → content_at other (entered place content a) ≡ content_at other a }
    ensures gone { (a : ContentsAtHand T) (place : ℕ) → content_at place (left place a) ≡ None }
    ensures others_of_left { (a : ContentsAtHand T) (place other : ℕ)
        → other ≢ place → content_at other (left place a) ≡ content_at other a }
{}

/// A stretch of the queue is at hand, to the end if that is reached, and is so when a copy has
/// entered at the end, and when any has left.
pub fn stays_consecutive<T>()
    ensures entered { (queue : List ℕ) (a : ContentsAtHand T) (place : ℕ) (content : T)
        → IsStretch queue a → IsStretch (queue ++ place ∷ []) (entered place content a) }
    ensures left { (queue : List ℕ) (a : ContentsAtHand T) (place : ℕ)
        → IsStretch queue a → IsStretch (queue_without place queue) (left place a) }
{}
