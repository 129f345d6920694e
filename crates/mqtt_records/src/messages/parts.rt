//! A change of a part of a queue's row, and what fills it again (3.3, 4.3).
use crate::lists::{Fillable, Slimmable};
use crate::messages::content::CopyContent;
use crate::messages::queue::CopyRow;
use mqtt_base::Phase;

/// A change of a part of a queue's row.
#[derive(Clone, Copy, Debug, PartialEq, Eq)]
pub enum CopyPart {
    /// The copy comes into the phase.
    SetPhase { phase: Phase },
    /// It says nothing but its topic.
    MakeSlim,
}

impl Fillable for CopyRow {
    type Filling = CopyContent;

    ghost use Rattle.mqtt_records.specs.messages.Filling.{filled_with, HasBytesOf};

    ghost fits = { λ content row. HasBytesOf row.copy content };

    ghost filled = { filled_with };

    fn fill_in(&mut self, content: CopyContent) -> bool {
        self.fill(content)
    }

    ghost use Rattle.std.proofs.Common.{refl};

    ghost filled_key = { λ content row. refl };
}

impl Slimmable for CopyRow {
    ghost use Rattle.mqtt_records.specs.messages.Slim.{slim};

    ghost slimmed = { slim };

    fn leave_out(&mut self) {
        self.make_slim();
    }

    ghost use Rattle.std.proofs.Common.{refl};

    ghost slimmed_key = { λ row. refl };
}
