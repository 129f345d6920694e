//! Laws of changes that keep contents shared (3.3).
ghost use Rattle.std.specs.Prelude.{List};
ghost use Rattle.mqtt_records.specs.declared.state.change.Change.{Change};
ghost use Rattle.mqtt_records.specs.declared.state.records.Records.{Records};
ghost use Rattle.mqtt_records.specs.state.Records.{nothing, changed, changed_all};
ghost use Rattle.mqtt_records.specs.state.Contents.{SharesContents, FitsContents, FitContents};

/// Before the first session contents are shared.
pub fn nothing_shares_contents()
    ensures { SharesContents nothing }
{}

/// If what a change puts says what is said under its number, contents stay shared, whether the
/// change fits or not.
pub fn change_shares_contents()
    ensures { (change : Change) (r : Records)
        → SharesContents r → FitsContents change r → SharesContents (changed change r) }
{}

/// So they do over changes, one after the other.
pub fn changes_share_contents()
    ensures { (changes : List Change) (r : Records)
        → SharesContents r → FitContents changes r → SharesContents (changed_all changes r) }
{}
