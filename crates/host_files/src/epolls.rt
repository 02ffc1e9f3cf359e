//! The epolls of a process.

ghost use Rattle.std.specs.Prelude.{◌≡◌, ◌≤◌, ◌++◌, [], length, drop, map, IfOk, IfSome, OnOk, option_copied};
ghost use Rattle.host_files.specs.Epolls as spec;
ghost use Rattle.host_files.specs.Slots as act;

use crate::slots::{add, at, free};
use host_fds::{Entry, Epoll, Seen, Watch};
use sim_base::NoMemory;
use std::alloc::Global;
use std::marker::Model;

/// The epolls of a process, each by its number. They are not those of another one, since their entries name
/// descriptors.
///
/// Contracts see a list of them. A number that is not taken names nothing, and acts on nothing.
#[derive(Drop)]
pub struct Epolls {
    slots: Vec<Option<Epoll>>,
}

impl Model for Epolls {
    ghost use Rattle.host_files.specs.Epolls.{EpollsState};

    ghost Value = { EpollsState };

    ghost view = { λ e. e.slots.items };
}

impl Epolls {
    /// No epolls. It takes no memory.
    pub fn new(alloc: Global) -> Epolls
        ensures { result ≡ [] }
    {
        Epolls {
            slots: Vec::new(alloc),
        }
    }

    /// Makes an epoll, and answers its number, the least free one.
    pub fn create(&mut self, alloc: Global) -> Result<usize, NoMemory>
        ensures number { IfOk result (λ place. place ≡ spec.next_epoll self.old) }
        ensures made { IfOk result (λ _. self.new ≡ spec.with_epoll self.old) }
    {
        let epoll = Epoll::new(alloc);
        add(&mut self.slots, epoll)
    }

    /// The epoll with a number.
    pub fn get(&self, place: usize) -> Option<&Epoll>
        ensures { option_copied result ≡ spec.epoll_at place self.now }
    {
        at(self.slots.as_slice(), place)
    }

    /// Adds an entry to an epoll, or puts it in the place of the one that its descriptor has.
    pub fn put(&mut self, place: usize, watch: Watch) -> Result<(), NoMemory>
        ensures { OnOk result (self.new ≡ spec.entry_put watch place self.old) }
    {
        if place < self.slots.len() {
            put_slot(&mut self.slots[place], watch)?;
        }
        Ok(())
    }

    /// Drops the entry of a descriptor from an epoll.
    pub fn remove(&mut self, place: usize, fd: u32)
        ensures { self.new ≡ spec.entry_removed fd place self.old }
    {
        if place < self.slots.len() {
            remove_slot(&mut self.slots[place], fd);
        }
    }

    /// Drops the entry of a descriptor from each epoll.
    pub fn forget(&mut self, fd: u32)
        ensures { self.new ≡ spec.forgotten fd self.old }
    {
        forget_all(self.slots.as_mut_slice(), fd);
    }

    /// Tells the first entries of an epoll that are due, and answers how many it told. `seen` has what is seen of
    /// the entries' descriptors, in their order; the entries behind those are not told.
    pub fn report(&mut self, place: usize, seen: &[Seen], into: &mut [Entry]) -> usize
        requires { IfSome (spec.epoll_at place self.old) (λ entries. length seen.now ≤ length entries) }
        ensures count { result ≡ length (spec.told_by (length into.old) seen.now (spec.epoll_at place self.old)) }
        ensures told { into.new ≡ spec.told_by (length into.old) seen.now (spec.epoll_at place self.old) ++ drop result into.old }
        ensures left { self.new ≡ spec.entries_reported (length into.old) seen.now place self.old }
        ensures at_most { result ≤ length into.old }
    {
        if place >= self.slots.len() {
            return 0;
        }
        report_slot(&mut self.slots[place], seen, into)
    }

    /// Ends an epoll, whose number is then free.
    pub fn end(&mut self, place: usize)
        ensures { self.new ≡ spec.epoll_ended place self.old }
    {
        free(self.slots.as_mut_slice(), place);
    }
}

fn put_slot(slot: &mut Option<Epoll>, watch: Watch) -> Result<(), NoMemory>
    ensures { OnOk result (slot.new ≡ act.after (spec.after_put watch) slot.old) }
{
    match slot {
        Some(epoll) => epoll.put(watch),
        None => Ok(()),
    }
}

fn remove_slot(slot: &mut Option<Epoll>, fd: u32)
    ensures after { slot.new ≡ act.after (spec.after_removal fd) slot.old }
    ensures forgets { slot.new ≡ spec.forgets fd slot.old }
{
    if let Some(epoll) = slot {
        epoll.remove(fd);
    }
}

fn forget_all(slots: &mut [Option<Epoll>], fd: u32)
    ensures { slots.new ≡ map (spec.forgets fd) slots.old }
{
    for place in 0..slots.len() {
        remove_slot(&mut slots[place], fd);
    }
}

fn report_slot(slot: &mut Option<Epoll>, seen: &[Seen], into: &mut [Entry]) -> usize
    requires { IfSome slot.old (λ entries. length seen.now ≤ length entries) }
    ensures count { result ≡ length (spec.told_by (length into.old) seen.now slot.old) }
    ensures told { into.new ≡ spec.told_by (length into.old) seen.now slot.old ++ drop result into.old }
    ensures left { slot.new ≡ act.after (spec.after_report (length into.old) seen.now) slot.old }
    ensures at_most { result ≤ length into.old }
{
    match slot {
        Some(epoll) => epoll.report(seen, into),
        None => 0,
    }
}
