//! Eventfds.

ghost use Rattle.std.specs.Prelude.{◌≡◌};
ghost use Rattle.host_fds.specs.Eventfd as spec;

use crate::pipe::bit;
use crate::rises::Rises;
use sim_base::{POLLIN, POLLOUT};

/// A counter that is read and written (`eventfd(2)`).
#[derive(Clone, Copy)]
pub struct Eventfd {
    pub count: u64,
    /// Whether a read takes 1 of the count, and not all of it.
    pub semaphore: bool,
    /// How often it became ready.
    pub rises: Rises,
}

impl Eventfd {
    /// The most that it counts to.
    pub const MOST: u64 = u64::MAX - 1;

    pub fn new(count: u64, semaphore: bool) -> Eventfd
        ensures { result ≡ spec.new_eventfd count semaphore }
    {
        Eventfd {
            count,
            semaphore,
            rises: Rises::none(),
        }
    }

    fn taken(self) -> u64
        ensures { result ≡ spec.taken self }
    {
        if self.semaphore {
            self.count.min(1)
        } else {
            self.count
        }
    }

    /// Takes what a read takes, and answers it.
    pub fn read(&mut self) -> u64
        ensures taken { result ≡ spec.taken self.old }
        ensures left { self.new ≡ spec.read self.old }
    {
        let before = self.ready();
        let taken = self.taken();
        self.count -= taken;
        self.rises = self.rises.moved(before, self.ready(), false);
        taken
    }

    /// Whether a number can be added.
    pub fn has_room(self, number: u64) -> bool
        ensures { result ≡ spec.has_room number self }
    {
        number <= Self::MOST && self.count <= Self::MOST - number
    }

    /// Adds a number, where there is room for it.
    pub fn write(&mut self, number: u64)
        ensures { self.new ≡ spec.written number self.old }
    {
        if self.has_room(number) {
            let before = self.ready();
            self.count += number;
            self.rises = self.rises.moved(before, self.ready(), number > 0);
        }
    }

    /// What it is ready for, by the bits of `poll(2)`: `POLLIN` and `POLLOUT`.
    pub fn ready(self) -> u16
        ensures { result ≡ spec.ready self }
    {
        bit(POLLIN, self.count > 0) + bit(POLLOUT, self.count < Self::MOST)
    }
}
