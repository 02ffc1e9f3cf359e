//! The connections that a listener keeps, and the accept queue.

ghost use Rattle.std.specs.Prelude.{◌≡◌, map};
ghost use Rattle.sock_tcp.specs.listener.Listen.{place_past};

use crate::connection::{Carried, Conn};
use crate::listener::Listener;
use sim_base::NoMemory;

/// A place once the connection at `gone` has left.
fn place_past(gone: usize, place: usize) -> usize
    ensures { result ≡ place_past gone place }
{
    if place > gone { place - 1 } else { place }
}

/// Some places once the connection at `gone` has left.
fn move_up(places: &mut [usize], gone: usize)
    ensures { places.new ≡ map (place_past gone) places.old }
{
    for place in places.iter_mut() {
        *place = place_past(gone, *place);
    }
}

impl Listener {
    ghost use Rattle.std.specs.Prelude.{◌<◌, [], ◌∷◌, length, slice_get, Some, IfSome, OnOk};
    ghost use Rattle.sock_tcp.specs.connection.Tcb.{Tcb};
    ghost use Rattle.sock_tcp.specs.connection.Carried.{with_gone};
    ghost use Rattle.sock_tcp.specs.connection.StandsFor.{StandsFor};
    ghost use Rattle.sock_tcp.specs.listener.Listen.{Listen, places_past, without, requeued, accepts};
    ghost use Rattle.sock_tcp.specs.listener.Dropped.{dropped_after};
    ghost use Rattle.sock_tcp.specs.listener.ListensFor.{ListensFor, Accepts};

    /// The connection at a place leaves the accept queue, and those behind it move up.
    fn leave_queue(&mut self, gone: usize)
        ensures queue { self.new.accept_queue.items ≡ places_past gone self.old.accept_queue.items }
        ensures records { self.new.records ≡ self.old.records }
        ensures local { self.new.local ≡ self.old.local }
        ensures limit { self.new.limit ≡ self.old.limit }
    {
        self.accept_queue.retain(|place| *place != gone);
        move_up(self.accept_queue.as_mut_slice(), gone);
    }

    /// The connection at a place leaves.
    fn take_out(&mut self, place: usize) -> Conn
        requires { place < length self.old.records.items }
        ensures conn { (l : Listen) → ListensFor self.old l
            → (r : Tcb) → slice_get l.records place ≡ Some r → StandsFor result r }
        ensures rest { (l : Listen) → ListensFor self.old l → ListensFor self.new (without place l) }
    {
        let conn = self.records.remove(place);
        self.leave_queue(place);
        conn
    }

    /// The connection at a place is let go, and what it carried is kept.
    fn let_go(&mut self, place: usize, gone: &mut Vec<Carried>) -> Result<(), NoMemory>
        requires { place < length self.old.records.items }
        ensures gone { OnOk result ((l : Listen) → ListensFor self.old l
            → (r : Tcb) → slice_get l.records place ≡ Some r → gone.new.items ≡ with_gone (r ∷ []) gone.old.items) }
        ensures rest { OnOk result ((l : Listen) → ListensFor self.old l → ListensFor self.new (without place l)) }
    {
        gone.push(self.records[place].carried())?;
        let _gone = self.take_out(place);
        Ok(())
    }

    /// After an act of the connection at a place: where it became ESTABLISHED by it, it waits behind
    /// the others, and one of the SYN queue that is over is let go.
    pub(crate) fn requeue(
        &mut self,
        place: usize,
        before: bool,
        gone: &mut Vec<Carried>,
    ) -> Result<(), NoMemory>
        requires { place < length self.old.records.items }
        ensures requeued { OnOk result ((l : Listen) → ListensFor self.old l
            → (r : Tcb) → slice_get l.records place ≡ Some r
            → ListensFor self.new (requeued place before r l)) }
        ensures gone { OnOk result ((l : Listen) → ListensFor self.old l
            → (r : Tcb) → slice_get l.records place ≡ Some r → gone.new.items ≡ with_gone (dropped_after r) gone.old.items) }
    {
        let control = self.records[place].control();
        if control.was_established {
            if !before {
                self.accept_queue.push(place)?;
            }
        } else if control.state.is_over() {
            self.let_go(place, gone)?;
        }
        Ok(())
    }

    /// The place of the oldest connection of the accept queue.
    fn oldest(&self) -> Option<usize>
        ensures within { IfSome result (λ place. place < length self.now.records.items) }
        ensures oldest { (l : Listen) → ListensFor self.now l → result ≡ slice_get l.accept_queue 0 }
    {
        let place = *self.accept_queue.first()?;
        if place < self.records.len() {
            Some(place)
        } else {
            None
        }
    }

    /// Gives the oldest connection of the accept queue, which it no longer keeps.
    pub fn accept(&mut self) -> Option<Conn>
        ensures { Accepts self.old result self.new }
    {
        if let Some(place) = self.oldest() {
            return Some(self.take_out(place));
        }
        None
    }
}
