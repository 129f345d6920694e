//! Strangers send bytes on lines of their own: they come to the broker packet by packet (MQTT 5.0, 2.1, 4.1, 4.13).

ghost use Rattle.std.specs.Prelude.{◌≡◌, ℕ, false, is_some, List, None, Ok, Some, true, IfOk, OnOk};
ghost use Rattle.mqtt_packet.specs.stream.Front.{first_of};
ghost use Rattle.mqtt_world_model.specs.model.Tellings.{silent};
ghost use Rattle.mqtt_world_model.specs.model.World.{World, are_bytes, ask, is_bad_asking, stop_after, stop_before, stranger};
ghost use Rattle.mqtt_world.specs.clients.Ends.{in_world};
ghost use Rattle.mqtt_world_ends.specs.strangers.Fronts.{is_end_among};
ghost use Rattle.mqtt_world_ends.specs.strangers.Strangers.{held_of, named};
ghost use Rattle.mqtt_world_model.specs.single_steps.Unrolled.{AreAlike};
ghost use Rattle.mqtt_world.specs.scene.Stopping.{stop_at};
ghost use Rattle.mqtt_world.specs.world.Stages.{IsStanding, Plays, world_at};
ghost use Rattle.mqtt_world.specs.world.Visits.{MayStopAt, StopsAt, TellsPiece, Welcomes};

use crate::clients::Clients;
use crate::scene::Halt;
use crate::world::stage::Stage;
use mqtt_base::Text;
use mqtt_keep::Keep;
use mqtt_world_ends::peers::Told;
use mqtt_world_ends::strangers::Piece;
use std::alloc::AllocError;

/// Bytes are bytes: their type gives it, and here it is told. Takes no memory.
#[tactic(auto, using(crate::proofs::world_lemmas::Bytes::all_bytes))]
fn are_bytes(bytes: &[u8])
    ensures { are_bytes bytes.now ≡ true }
{}

/// Whether an end has one of these names. Takes no memory.
fn is_end_among(clients: &Clients, names: &[Text]) -> bool
    ensures { (w : World) → result ≡ is_end_among names.now (in_world clients.now w) }
{
    for name in names {
        if clients.is_end(name.as_str()) {
            return true;
        }
    }
    false
}

impl<K: Keep> Stage<K> {
    /// Whether a CONNECT among the stranger's packets names an end, when these bytes have come (3.1.3.1).
    fn is_bad_visit(&self, name: &str, bytes: &[u8]) -> Result<bool, AllocError>
        ensures { IfOk result (λ bad. bad ≡ is_bad_asking (stranger name.now bytes.now) (world_at self.entry.now)) }
    {
        are_bytes(bytes);
        let names = self.strangers.names_in(name, bytes)?;
        let bad = is_end_among(&self.scene.clients, &names);
        drop(names);
        Ok(bad)
    }

    /// A line is linked for one that comes first.
    fn welcome(&mut self, name: &Text) -> Result<(), Halt<K>>
        requires { IsStanding K.Keep self.old }
        ensures { OnOk result (Welcomes K.Keep name.now self.old self.new) }
    {
        if self.strangers.has(name.as_str()) {
            return Ok(());
        }
        let name = name.clone()?;
        let line = self.scene.link(self.now);
        self.strangers.begin(name, line)?;
        Ok(())
    }

    /// The next piece of what a stranger sends comes: what is whole of it, a packet or a fault, is given to the broker on
    /// its line. Answers how many bytes the piece has.
    fn take_piece(&mut self, name: &str, bytes: &[u8], told: &mut Told) -> Result<usize, Halt<K>>
        requires standing { IsStanding K.Keep self.old }
        requires there { is_some (named name.now self.old.strangers) ≡ true }
        requires alike { AreAlike name.now (world_at self.old) }
        requires waits { first_of (held_of name.now self.old.strangers) ≡ Ok None }
        ensures { IfOk result (λ taken. TellsPiece K.Keep name.now bytes.now self.old taken told.old told.new self.new) }
    {
        let line = self.strangers.number(name);
        let Piece { taken, given } = self.strangers.come(name, bytes)?;
        match given {
            Some(given) => {
                let heard = self.scene.hear(line, &given, self.now, told);
                drop(given);
                heard?;
                Ok(taken)
            }
            None => Ok(taken),
        }
    }

    /// The same of one that may come first.
    fn piece(&mut self, name: &Text, bytes: &[u8], told: &mut Told) -> Result<usize, Halt<K>>
        requires { IsStanding K.Keep self.old }
        ensures { IfOk result (λ taken. TellsPiece K.Keep name.now bytes.now self.old taken told.old told.new self.new) }
    {
        self.welcome(name)?;
        self.take_piece(name.as_str(), bytes, told)
    }

    /// All bytes come, piece by piece.
    fn pieces(&mut self, name: &Text, bytes: &[u8], told: &mut Told) -> Result<(), Halt<K>>
        requires standing { IsStanding K.Keep self.old }
        requires silent { told.old ≡ silent }
        requires good { is_bad_asking (stranger name.now bytes.now) (world_at self.old) ≡ false }
        ensures { OnOk result (Plays K.Keep (ask (stranger name.now bytes.now)) self.old (Some told.new) self.new) }
    {
        let mut rest = bytes;
        'pieces: loop {
            let taken = self.piece(name, rest, told)?;
            let (_, more) = rest.split_at(taken);
            if more.is_empty() {
                return Ok(());
            }
            rest = more;
        }
    }

    /// Bytes come from a stranger, on a line that is linked if it comes first; each packet is answered before the next
    /// is read.
    pub(crate) fn visit(&mut self, name: &Text, bytes: &[u8]) -> Result<Option<Told>, Halt<K>>
        requires { IsStanding K.Keep self.old }
        ensures { IfOk result (λ t. Plays K.Keep (ask (stranger name.now bytes.now)) self.old t self.new) }
    {
        if self.is_bad_visit(name.as_str(), bytes)? {
            return Ok(None);
        }
        let mut told = Told::silent(self.alloc);
        match self.pieces(name, bytes, &mut told) {
            Ok(()) => Ok(Some(told)),
            Err(fault) => {
                drop(told);
                Err(fault)
            }
        }
    }

    /// The first piece comes, and what it tells is lost.
    fn cut_visit(&mut self, name: &Text, bytes: &[u8]) -> Result<(), Halt<K>>
        requires standing { IsStanding K.Keep self.old }
        requires good { is_bad_asking (stranger name.now bytes.now) (world_at self.old) ≡ false }
        ensures { OnOk result (StopsAt K.Keep (stop_after (stranger name.now bytes.now)) self.old self.new) }
    {
        let mut told = Told::silent(self.alloc);
        let taken = self.piece(name, bytes, &mut told);
        drop(told);
        match taken {
            Ok(_) => Ok(()),
            Err(fault) => Err(fault),
        }
    }

    /// One that comes first gets its name, and no line.
    fn name_visitor(&mut self, name: &Text) -> Result<(), Halt<K>>
        requires { IsStanding K.Keep self.old }
        ensures { OnOk result ((bytes : List ℕ) → is_bad_asking (stranger name.now bytes) (world_at self.old) ≡ false
            → StopsAt K.Keep (stop_before (stranger name.now bytes)) self.old self.new) }
    {
        if self.strangers.has(name.as_str()) {
            return Ok(());
        }
        let name = name.clone()?;
        self.strangers.begin(name, None)?;
        Ok(())
    }

    /// What happens at a stop before the broker is opened again, if the bytes may come.
    fn begin_stop(&mut self, name: &Text, bytes: &[u8], after: bool) -> Result<bool, Halt<K>>
        requires { IsStanding K.Keep self.old }
        ensures { IfOk result (λ may. MayStopAt K.Keep (stop_at after (stranger name.now bytes.now)) self.old may self.new) }
    {
        if self.is_bad_visit(name.as_str(), bytes)? {
            return Ok(false);
        }
        if after {
            self.cut_visit(name, bytes)?;
            return Ok(true);
        }
        self.name_visitor(name)?;
        Ok(true)
    }

    /// The broker stops before the commit of the first packet of what a stranger sends, or after it, and is opened again.
    pub(crate) fn stop_visit(
        mut self,
        name: &Text,
        bytes: &[u8],
        after: bool,
    ) -> Result<(Stage<K>, Option<Told>), Halt<K>>
        requires { IsStanding K.Keep self }
        ensures { IfOk result (λ x. Plays K.Keep (stop_at after (stranger name.now bytes.now)) self x.1 x.0) }
    {
        match self.begin_stop(name, bytes, after) {
            Ok(true) => self.restart(),
            Ok(false) => Ok((self, None)),
            Err(fault) => {
                drop(self);
                Err(fault)
            }
        }
    }
}
