//! Strangers by their names (MQTT 5.0, 2.1).

ghost use Rattle.std.specs.Prelude.{◌≡◌, ◌++◌, ◌∷◌, [], bytes_eq, drop, find, is_some, length, map, option_copied, option_map, option_to_list, take, IfOk, MatchOption, None, OnErr, OnOk};
ghost use Rattle.mqtt_world_model.specs.model.World.{World, bytes_held, stranger_named, unlinked};
ghost use Rattle.mqtt_world_model.specs.single_steps.Unrolled.{AreAllAlike, HoldNoPacket, bytes_come};
ghost use Rattle.mqtt_world_ends.specs.strangers.Fronts.{NamesThese};
ghost use Rattle.mqtt_world_ends.specs.strangers.Strangers.{AreDistinct, Comes, IsPlace, held_of, if_named, in_world, line_of, named, newcomer};

use crate::strangers::front::{Front, front_of, name_at};
use mqtt_base::Text;
use std::alloc::{AllocError, Global};
use std::marker::Model;

/// A stranger.
#[derive(Drop)]
struct Stranger {
    name: Text,
    number: Option<u64>,
    held: Vec<u8>,
}

impl Model for Stranger {
    ghost use Rattle.mqtt_world_model.specs.model.World as world;

    ghost Value = { world.Stranger };

    ghost view = { λ s. record { name = s.name; number = s.number; held = s.held.items } };
}

impl Stranger {
    /// Whether it has the name. Takes no memory.
    fn is_named(&self, name: &str) -> bool
        ensures { result ≡ bytes_eq self.now.name name.now }
    {
        self.name.as_str() == name
    }

    /// It holds these bytes from now on.
    fn hold(&mut self, held: Vec<u8>)
        ensures { self.new ≡ record self.old { held = held.items } }
    {
        self.held = held;
    }

    /// Its line is gone, and its bytes with it. Takes no memory.
    fn unlink(&mut self)
        ensures { self.new ≡ unlinked self.old }
    {
        self.number = None;
        self.held.clear();
    }
}

/// The next piece of what a stranger sends.
#[derive(Drop)]
pub struct Piece {
    /// How many of the bytes it has.
    pub taken: usize,
    /// What the broker is given, if a packet or a fault is whole: at most `PACKET_LIMIT` bytes.
    pub given: Option<Vec<u8>>,
}

/// The strangers of a world. Of each nothing whole is held.
#[derive(Drop)]
pub struct Strangers {
    alloc: Global,
    all: Vec<Stranger>,
}

impl Model for Strangers {
    ghost use Rattle.std.specs.Prelude.{List};
    ghost use Rattle.mqtt_world_model.specs.model.World as world;

    ghost Value = { List world.Stranger };

    ghost use Rattle.mqtt_world_ends.specs.strangers.Strangers.{AreKept};

    ghost view = { λ s. s.all.items };

    ghost invariant = { λ s. AreKept s.all.items };
}

/// The stranger of this name. Takes no memory.
fn named<'a>(all: &'a [Stranger], name: &str) -> Option<&'a Stranger>
    ensures { option_copied result ≡ named name.now all.now }
{
    all.iter().find(|stranger| stranger.is_named(name))
}

/// The place of the stranger of this name. Takes no memory.
#[tactic(auto, using(crate::proofs::strangers_lemmas::Places::none_further))]
fn place_of(all: &[Stranger], name: &str) -> Option<usize>
    ensures { MatchOption result (named name.now all.now ≡ None) (IsPlace name.now all.now) }
{
    for (place, stranger) in all.iter().enumerate() {
        if stranger.is_named(name) {
            return Some(place);
        }
    }
    None
}

/// The stranger of this name holds these bytes from now on. Takes no memory.
#[tactic(auto, using(crate::proofs::strangers_lemmas::Places::none_changed))]
fn hold(all: &mut Vec<Stranger>, name: &str, held: Vec<u8>)
    requires { AreDistinct all.old.items }
    ensures { all.new.items ≡ map (if_named name.now (λ _. held.items)) all.old.items }
{
    match place_of(all, name) {
        Some(place) => {
            if let Some(stranger) = all.get_mut(place) {
                stranger.hold(held);
            }
        }
        None => drop(held),
    }
}

impl Strangers {
    /// There are none. Takes no memory.
    pub fn new(alloc: Global) -> Strangers
        ensures { result ≡ [] }
    {
        Strangers {
            alloc,
            all: Vec::new(alloc),
        }
    }

    /// Whether a stranger has the name. Takes no memory.
    pub fn has(&self, name: &str) -> bool
        ensures found { (w : World) → result ≡ is_some (stranger_named name.now (in_world self.now w)) }

        // What always holds: no two have one name, and nothing whole is held of anyone's bytes.
        ensures alike { (w : World) → AreAllAlike (in_world self.now w) }
        ensures waits { (w : World) → HoldNoPacket (in_world self.now w) }
    {
        named(&self.all, name).is_some()
    }

    /// The broker's number of a stranger's line, if it has one. Takes no memory.
    pub fn number(&self, name: &str) -> Option<u64>
        ensures { (w : World) → result ≡ line_of (stranger_named name.now (in_world self.now w)) }
    {
        match named(&self.all, name) {
            Some(stranger) => stranger.number,
            None => None,
        }
    }

    /// What is held of the bytes of a stranger, and then these.
    fn joined(&self, name: &str, bytes: &[u8]) -> Result<Vec<u8>, AllocError>
        ensures { IfOk result (λ all. all.items ≡ held_of name.now self.now ++ bytes.now) }
    {
        let mut all = Vec::new(self.alloc);
        if let Some(stranger) = named(&self.all, name) {
            all.extend_from_slice(&stranger.held)?;
        }
        all.extend_from_slice(bytes)?;
        Ok(all)
    }

    /// The client identifiers of the CONNECTs among a stranger's packets, when these bytes have come (3.1.3.1).
    pub fn names_in(&self, name: &str, bytes: &[u8]) -> Result<Vec<Text>, AllocError>
        ensures { IfOk result (λ names. NamesThese (held_of name.now self.now ++ bytes.now) names.items) }
    {
        let all = self.joined(name, bytes)?;
        let names = names_of(self.alloc, &all);
        drop(all);
        names
    }

    /// A stranger that has sent nothing, with the broker's number of its line, if there is one. Without memory nothing
    /// changes.
    #[tactic(auto, using(crate::proofs::strangers_lemmas::Places::kept_more))]
    pub fn begin(&mut self, name: Text, number: Option<u64>) -> Result<(), AllocError>
        requires { named name self.old ≡ None }
        ensures ok { OnOk result (self.new ≡ self.old ++ newcomer name number ∷ []) }
        ensures err { OnErr result (self.new ≡ self.old) }
    {
        let stranger = Stranger {
            name,
            number,
            held: Vec::new(self.alloc),
        };
        self.all.push(stranger)?;
        Ok(())
    }

    /// Bytes come from a stranger: the next piece of them is taken, which ends with the first packet if one is whole.
    /// What is whole, a packet or a fault, is to be given to the broker, and is held no longer; a part of a packet is
    /// held. Without memory nothing changes. (2.1, 4.13)
    #[tactic(auto, using(crate::proofs::strangers_lemmas::Places::size_past))]
    pub fn come(&mut self, name: &str, bytes: &[u8]) -> Result<Piece, AllocError>
        ensures came { IfOk result (λ p. Comes name.now bytes.now self.old self.new p.taken (option_map (λ given. given.items) p.given)) }
        ensures err { OnErr result (self.new ≡ self.old) }
    {
        let all = self.joined(name, bytes)?;
        match front_of(self.alloc, &all) {
            Err(error) => {
                drop(all);
                Err(error)
            }
            Ok(Front::Partial) => {
                hold(&mut self.all, name, all);
                Ok(Piece {
                    taken: bytes.len(),
                    given: None,
                })
            }
            Ok(Front::Whole(size)) => {
                hold(&mut self.all, name, Vec::new(self.alloc));
                Ok(Piece {
                    taken: size - (all.len() - bytes.len()),
                    given: Some(cut(all, size)),
                })
            }
            Ok(Front::Faulty(size)) => {
                hold(&mut self.all, name, Vec::new(self.alloc));
                Ok(Piece {
                    taken: bytes.len(),
                    given: Some(cut(all, size)),
                })
            }
        }
    }

    /// The broker was restarted: no line is left, and nothing is held. Takes no memory.
    #[tactic(auto, using(crate::proofs::strangers_lemmas::Places::kept_unlinked))]
    pub fn restart(&mut self)
        ensures { self.new ≡ map unlinked self.old }
    {
        unlink_all(&mut self.all);
    }
}

/// The first of the bytes. Takes no memory.
fn cut(mut bytes: Vec<u8>, size: usize) -> Vec<u8>
    ensures { result.items ≡ take size bytes.items }
{
    bytes.truncate(size);
    bytes
}

/// One more name, if there is one.
fn push_name(names: &mut Vec<Text>, name: Option<Text>) -> Result<(), AllocError>
    ensures { OnOk result (names.new.items ≡ names.old.items ++ option_to_list name) }
{
    if let Some(name) = name {
        names.push(name)?;
    }
    Ok(())
}

/// The client identifiers of the CONNECTs in bytes.
#[tactic(auto, using(crate::proofs::strangers_lemmas::Names::no_names_yet, crate::proofs::strangers_lemmas::Names::names_done, crate::proofs::strangers_lemmas::Names::more_named))]
fn names_of(alloc: Global, bytes: &[u8]) -> Result<Vec<Text>, AllocError>
    ensures { IfOk result (λ names. NamesThese bytes.now names.items) }
{
    let mut names = Vec::new(alloc);
    let mut rest = bytes;
    while let Some((size, name)) = name_at(alloc, rest)? {
        push_name(&mut names, name)?;
        rest = &rest[size..];
    }
    Ok(names)
}

/// Of each stranger the line is gone. Takes no memory.
fn unlink_all(all: &mut Vec<Stranger>)
    ensures { all.new.items ≡ map unlinked all.old.items }
{
    unlink(all);
}

fn unlink(all: &mut [Stranger])
    ensures { all.new ≡ map unlinked all.old }
{
    for stranger in all.iter_mut() {
        stranger.unlink();
    }
}
