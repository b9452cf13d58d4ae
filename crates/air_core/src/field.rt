//! The field: light, listeners, fates and the trace.

ghost use Rattle.std.specs.Prelude.{◌≡◌, ◌++◌, ◌∷◌, [], ◌<◌, length, map, slice_index_or, remove, true, false, IfOk};
ghost use Rattle.std.specs.Prelude.{OnOk, OnErr, Err};
ghost use Rattle.std.specs.Borrow.{sem};
ghost use Rattle.nfc_base.specs.declared.event.Event.TheVariants.{Reset};
ghost use Rattle.nfc_base.specs.declared.event.Fate.TheVariants.{Pass};
ghost use Rattle.air_core.specs.World.{reset_by, dark, came_back};
ghost use Rattle.air_core.specs.Turn.{Air, world, after_event, Transmits};
ghost use Rattle.air_core.specs.Lends.{lends_listener};
ghost use Rattle.air_core.specs.private.Settling.{settled};
ghost use Rattle.air_core.specs.declared.fault.AirFault.TheVariants.{FieldLost, Memory};

use crate::answers::{Answers, Joined};
use crate::bits::first_bits;
use crate::fates::{note_answer, note_clash, note_request, push_all};
use crate::fault::AirFault;
use crate::hearing::{dark_all, hear_all, light_all};
use crate::listener::Listener;
use nfc_base::{Answerer, Event, Fate, Frame, Heard};
use std::alloc::Global;
use std::collections::VecDeque;
use std::marker::Model;
use std::mem;

/// Listeners in the field of one reader, the fates of its next transmissions, and the trace of what happened.
/// The simulated air is this project's own.
#[derive(Drop)]
pub struct Field<L> {
    alloc: Global,
    lit: bool,
    listeners: Vec<L>,
    fates: VecDeque<Fate>,
    trace: Vec<Event>,
}

impl<L> Model for Field<L> {
    ghost use Rattle.air_core.specs.Turn.{Air};

    ghost Value = { Air L };

    ghost view = { λ f. record {
      lit = f.lit;
      listeners = f.listeners.items;
      fates = f.fates.items;
      trace = f.trace.items;
    } };
}

impl<L: Listener> Field<L> {
    /// A dark field without listeners.
    pub fn new(alloc: Global) -> Field<L>
        ensures { result ≡ record { lit = false; listeners = []; fates = []; trace = [] } }
    {
        Field {
            alloc,
            lit: false,
            listeners: Vec::new(alloc),
            fates: VecDeque::new(alloc),
            trace: Vec::new(alloc),
        }
    }

    /// Puts a listener in behind the others, and gives its place. It is dark until the next reset.
    pub fn put_in(&mut self, listener: L) -> Result<usize, AirFault>
    where
        L: Drop,
        ensures ok { IfOk result (λ place. (place ≡ length self.old.listeners)
            × (self.new ≡ record self.old { listeners = self.old.listeners ++ L.machine.darkened listener ∷ [] })) }
        ensures err { OnErr result ((self.new ≡ self.old) × (result ≡ Err Memory)) }
    {
        let place = self.listeners.len();
        let mut listener = listener;
        listener.dark();
        if self.listeners.push(listener).is_err() {
            return Err(AirFault::Memory);
        }
        Ok(place)
    }

    /// Takes a listener out. Later places move down by one.
    pub fn take_out(&mut self, place: usize) -> L
        requires { place < length self.old.listeners }
        ensures value { result ≡ slice_index_or self.old.listeners place result }
        ensures left { self.new ≡ record self.old { listeners = remove self.old.listeners place } }
    {
        self.listeners.remove(place)
    }

    /// The listeners, in the order of placing.
    pub fn listeners(&self) -> &[L]
        ensures { result.now ≡ self.now.listeners }
    {
        &self.listeners
    }

    /// The listener at a place.
    pub fn listener(&mut self, place: usize) -> &mut L
        requires { place < length self.old.listeners }
        ensures* lends { sem 𝓛 (lends_listener L.row self.entry place result) }
        ensures value { result.now ≡ slice_index_or self.old.listeners place result.now }
    {
        &mut self.listeners[place]
    }

    /// Appends fates for transmissions to come.
    pub fn add_fates(&mut self, fates: &[Fate]) -> Result<(), AirFault>
        ensures ok { OnOk result (self.new ≡ record self.old { fates = self.old.fates ++ fates.now }) }
        ensures err { OnErr result ((self.new ≡ self.old) × (result ≡ Err Memory)) }
    {
        if self.fates.reserve(fates.len()).is_err() {
            return Err(AirFault::Memory);
        }
        push_all(&mut self.fates, fates);
        Ok(())
    }

    pub fn is_lit(&self) -> bool
        ensures { result ≡ self.now.lit }
    {
        self.lit
    }

    /// What happened since the trace was last taken.
    pub fn trace(&self) -> &[Event]
        ensures { result.now ≡ self.now.trace }
    {
        &self.trace
    }

    /// Gives the trace, and leaves an empty one. It takes no memory.
    pub fn take_trace(&mut self) -> Vec<Event>
        ensures events { result.items ≡ self.old.trace }
        ensures left { self.new ≡ record self.old { trace = [] } }
    {
        let empty = Vec::new(self.alloc);
        mem::replace(&mut self.trace, empty)
    }

    /// Darkens and lights the field. It uses no fate.
    pub fn reset(&mut self) -> Result<(), AirFault>
        ensures ok { OnOk result (self.new
            ≡ after_event self.old Reset self.old.fates (reset_by L.machine (world self.old))) }
        ensures err { OnErr result ((self.new ≡ self.old) × (result ≡ Err Memory)) }
    {
        if self.trace.push(Event::Reset).is_err() {
            return Err(AirFault::Memory);
        }
        light_all(&mut self.listeners);
        self.lit = true;
        Ok(())
    }

    /// What a transmission comes to that doesn't pass, by its fate. At a Break the field goes dark.
    fn miss(&mut self, fate: Fate) -> Result<Heard, AirFault>
        requires { fate ≡ Pass → ⊥ }
        ensures result { (heard : Heard) → result ≡ settled heard fate }
        ensures left { (self.new.trace ≡ self.old.trace) × (self.new.fates ≡ self.old.fates)
            × (world self.new ≡ came_back L.machine (world self.old) fate) }
        ensures places { length self.new.listeners ≡ length self.old.listeners }
    {
        match fate {
            Fate::Damage => Ok(Heard::Damaged),
            Fate::Lose => Ok(Heard::Silent),
            Fate::Break => {
                dark_all(&mut self.listeners);
                self.lit = false;
                Err(AirFault::FieldLost)
            }
            Fate::Pass => unreachable!(),
        }
    }

    /// One turn: a request, and what the listeners and the far end above them make of it. In the dark nothing
    /// happens. `Memory` comes before anything happens, or where the far end has stopped for want of memory.
    pub fn transmit<A: Answerer>(&mut self, request: &Frame, far: &mut A) -> Result<Heard, AirFault>
        ensures turn { Transmits L.machine A.restarts A.steps A.stops A.is_stuck
            self.old request.now far.old result self.new far.new }
        ensures places { length self.new.listeners ≡ length self.old.listeners }
    {
        if !self.lit {
            return Err(AirFault::FieldLost);
        }
        if self.trace.reserve(2).is_err() {
            return Err(AirFault::Memory);
        }
        match note_request(&mut self.fates, &mut self.trace, request) {
            Fate::Damage | Fate::Lose => return Ok(Heard::Silent),
            Fate::Break => return self.miss(Fate::Break),
            Fate::Pass => {}
        }
        let mut answers = Answers::none();
        let Ok(()) = hear_all(self.alloc, &mut self.listeners, request, far, &mut answers) else {
            return Err(AirFault::Memory);
        };
        let Answers { joined, first, .. } = answers;
        match joined {
            Joined::Nothing => Ok(Heard::Silent),
            Joined::Alike => {
                match note_answer(&mut self.fates, &mut self.trace, &first) {
                    Fate::Pass => Ok(Heard::Whole(first)),
                    fate => self.miss(fate),
                }
            }
            Joined::Differing { shared } => {
                let clash = first_bits(&first, shared);
                match note_clash(&mut self.fates, &mut self.trace, &clash) {
                    Fate::Pass => Ok(Heard::Collided(clash)),
                    fate => self.miss(fate),
                }
            }
        }
    }
}
