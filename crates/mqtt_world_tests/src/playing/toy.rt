//! A world that tells what was worked out by hand of one script, whatever happens there.

use mqtt_base::{Cause, CopyId, Ending, Text};
use mqtt_replay::playing::Runs;
use mqtt_rules::Report;
use mqtt_script::Event;
use mqtt_world_ends::peers::{RunFault, Told};
use std::alloc::{AllocError, Global};

/// A world in which a message of QoS 2 is accepted by the event 13, and its copy taken by the event 22.
#[derive(Drop)]
pub(crate) struct Toy {
    alloc: Global,
    client: Text,
    count: u64,
    last: u64,
    fault: RunFault,
}

/// The copy of the first message.
fn copy() -> CopyId {
    CopyId {
        publication: 1,
        birth: 1,
        cause: Cause::Direct,
    }
}

impl Toy {
    /// A world that answers so at the event behind so many.
    pub(crate) fn new(alloc: Global, client: Text, last: u64, fault: RunFault) -> Toy {
        Toy {
            alloc,
            client,
            count: 0,
            last,
            fault,
        }
    }

    /// What the event 13 tells.
    fn accepted(&self) -> Result<Told, AllocError> {
        let mut told = Told::silent(self.alloc);
        told.out = 1;
        told.reports.push(Report::Accepted { publication: 1 })?;
        told.reports.push(Report::Entered {
            copy: copy(),
            client: self.client.clone()?,
        })?;
        Ok(told)
    }

    /// What the event 22 tells.
    fn taken(&self) -> Result<Told, AllocError> {
        let mut told = Told::silent(self.alloc);
        told.reports.push(Report::Ended {
            copy: copy(),
            client: self.client.clone()?,
            ending: Ending::Taken,
        })?;
        Ok(told)
    }

    /// What the event of this number tells.
    fn told(&self, number: u64) -> Result<Told, AllocError> {
        match number {
            13 => self.accepted(),
            22 => self.taken(),
            4 | 7 | 10 | 16 | 18 | 20 => {
                let mut told = Told::silent(self.alloc);
                told.out = 1;
                Ok(told)
            }
            _ => Ok(Told::silent(self.alloc)),
        }
    }
}

impl Runs for Toy {
    ghost use Rattle.std.specs.Prelude.{⊤, [], ◌∷◌};

    ghost play = { record {
      happens = λ w e told after. ⊤;
      is_bad = λ w e. ⊤;
      due = ⊤;
      sent = λ w client. 1;
      done = λ w client. 0;
      handed = λ w client. 1 ∷ [];
      queue = λ w client. 0;
      publications = λ w. 1;
      sessions = λ w. 2;
    } };

    fn happen(&mut self, _event: &Event) -> Result<Told, RunFault> {
        if self.count == self.last {
            return Err(self.fault);
        }
        self.count = self.count.wrapping_add(1);
        Ok(self.told(self.count)?)
    }

    fn sent(&self, _client: &str) -> u64 {
        1
    }

    fn done(&self, _client: &str) -> u64 {
        0
    }

    fn handed(&self, alloc: Global, _client: &str) -> Result<Vec<u64>, AllocError> {
        let mut handed = Vec::new(alloc);
        match handed.push(1) {
            Ok(()) => Ok(handed),
            Err(_) => Err(AllocError),
        }
    }

    fn queue(&self, _client: &str) -> u64 {
        0
    }

    fn publications(&self) -> u64 {
        1
    }

    fn sessions(&self) -> u64 {
        2
    }
}
