//! What holds of every view (ours).

ghost use Rattle.std.specs.Prelude.{◌≡◌, ℕ, List, Some, ◌++◌, drop};
ghost use Rattle.json.specs.Text.{content, plain};
ghost use Rattle.mqtt_cli.specs.viewer.JsonValues.{json_text};
ghost use Rattle.mqtt_cli.specs.viewer.Viewing.{Views, WritesFront};
ghost use Rattle.mqtt_cli.specs.declared.viewer.details.Details.{Details};
ghost use Rattle.mqtt_cli.specs.declared.viewer.viewer.Status.{Status};

/// Each input has one view, with one status, and all that a view that stopped early has written is
/// a beginning of it.
pub fn one_view()
    ensures some { (details : Details) (input before : List ℕ) → (after : List ℕ) × (status : Status)
        × Views details input (Some before) (Some after) status }
    ensures only { (details : Details) (input before after other : List ℕ) (status another : Status)
        → Views details input (Some before) (Some after) status
        → Views details input (Some before) (Some other) another
        → (after ≡ other) × (status ≡ another) }
    ensures front { (details : Details) (input before after early : List ℕ) (status : Status)
        → Views details input (Some before) (Some after) status
        → WritesFront details input (Some before) (Some early)
        → (rest : List ℕ) × (after ≡ early ++ rest) }
{}

/// Each text of an object is read back as it was, by JSON's own rules for what stands behind its
/// first quote (RFC 8259, 7).
pub fn texts_read_back()
    ensures { (text : List ℕ) → content plain (drop 1 (json_text text)) ≡ Some text }
{}
