//! The laws of what the broker reads (1.5.4, 2.1.4, 2.2.1).
ghost use Rattle.std.specs.Prelude.{◌≡◌, List, false};
ghost use Rattle.std.specs.List.{AllByRecursion};
ghost use Rattle.mqtt_rules.specs.step.Laws.{AreWithin};
ghost use Rattle.mqtt_rules.specs.declared.step.Capacity.{Capacity};
ghost use Rattle.mqtt_world_model.specs.model.Run.{Turn, read_at, run, setting, turned};
ghost use Rattle.mqtt_world_model.specs.model.World.{World, start};
ghost use Rattle.mqtt_world_laws.specs.acceptance.Fair.{IsFair, IsNew};
ghost use Rattle.mqtt_world_laws.specs.acceptance.Spending.{run_spends, spending};
ghost use Rattle.mqtt_world_laws.specs.causes.Endings.{the_asked};
ghost use Rattle.mqtt_rules.specs.spelling.Sending.{SendsWell};
ghost use Rattle.mqtt_world_laws.specs.reading.Going.{GoesWell};
ghost use Rattle.mqtt_world_laws.specs.reading.Reading.{AllReadLawful, ReadsLawful};
ghost use Rattle.mqtt_world_laws.specs.reading.UnderWay.{IsUninhabited, TakesAllUnderWay};

/// Whatever event comes: where all goes well what the broker reads in it has a spelling, and is no longer than a packet may be,
/// and all goes well behind it, if it spends no number. So it begins where nobody is and the broker sends well; the broker sends
/// well wherever it has come to, and takes all that is under way from the ends (1.5.4, 2.1.4, 2.2.1, 4.3).
pub fn every_event_goes_well()
    ensures begins { (w : World) → IsUninhabited w → SendsWell w.broker → GoesWell w }
    ensures reads { (limits : Capacity) (t : Turn) (w : World) → GoesWell w → read_at spending (setting limits t) t.event w ≡ false
        → AllByRecursion ReadsLawful (read_at the_asked (setting limits t) t.event w) }
    ensures stays { (limits : Capacity) (t : Turn) (w : World) → GoesWell w → read_at spending (setting limits t) t.event w ≡ false
        → GoesWell (turned limits t w) }
    ensures sends { (w : World) → GoesWell w → SendsWell w.broker }
    ensures takes { (w : World) → GoesWell w → TakesAllUnderWay w }
{}

/// Each packet that the broker reads in a fair run has a spelling, and is no longer than a packet may be: of publishers and
/// receivers, since an answer has the identifier of what it answers, which the broker sent, spelled; and of strangers, since it
/// was read off bytes. And the broker sends well still. Asked: it does so at the beginning. Nothing is asked of the events: one
/// that brings no text, or bytes of a stranger that are none, is bad, and does nothing (1.5.4, 2.1.4, 2.2.1).
pub fn each_packet_that_is_read_is_lawful()
    ensures reads { (limits : Capacity) (ts : List Turn) (w : World) → IsNew w → SendsWell w.broker
        → IsFair limits ts w → AllReadLawful limits ts w }
    ensures sends { (limits : Capacity) (ts : List Turn) (w : World) → IsNew w → SendsWell w.broker
        → IsFair limits ts w → SendsWell (run limits ts w).broker }
    ensures from_nothing { (limits : Capacity) (ts : List Turn) → IsFair limits ts start → AllReadLawful limits ts start }
{}

/// Wherever such a run has come to, the broker takes each packet that is under way from an end, on its line and on the one that
/// it gave up last, whichever it is asked to read next: it has a spelling, and is no longer than a packet may be. Of the beginning
/// is asked but that nobody is there and the broker sends well, and not that ends begin clean (1.5.4, 2.1.4, 2.2.1).
pub fn what_is_under_way_is_taken()
    ensures taken { (limits : Capacity) (ts : List Turn) (w : World) → IsUninhabited w → SendsWell w.broker
        → run_spends limits ts w ≡ false → TakesAllUnderWay (run limits ts w) }
    ensures from_nothing { (limits : Capacity) (ts : List Turn) → AreWithin limits → run_spends limits ts start ≡ false
        → TakesAllUnderWay (run limits ts start) }
{}
