//! Laws of lawful records.
ghost use Rattle.mqtt_records.specs.state.Records.{nothing};
ghost use Rattle.mqtt_keep.specs.lawful.Lawful.{IsLawful};

/// A store may be opened before the first session.
pub fn nothing_is_lawful()
    ensures { IsLawful nothing }
{}
