//! Epolls.

ghost use Rattle.std.specs.Prelude.{◌≡◌, ◌++◌, [], length, drop, position, ◌≤◌, OnOk};
ghost use Rattle.std.specs.List.{position_or_len};
ghost use Rattle.host_fds.specs.Rises.{has_bit};
ghost use Rattle.host_fds.specs.Epoll as spec;

use crate::rises::{Rises, has_bit};
use sim_base::{NoMemory, POLLERR, POLLHUP, POLLIN, POLLOUT, POLLRDHUP};
use std::alloc::Global;
use std::marker::Model;

/// What an epoll watches of a descriptor.
#[derive(Clone, Copy)]
pub struct Watch {
    pub fd: u32,
    /// The bits that are asked for, with `EPOLLONESHOT` and `EPOLLET`.
    pub events: u32,
    pub data: u64,
    /// The rises at its last report since it was added or changed.
    pub reported: Option<Rises>,
}

/// What is seen of a descriptor: the bits that hold, and how often each came to hold.
#[derive(Clone, Copy)]
pub struct Seen {
    pub fd: u32,
    pub bits: u32,
    pub rises: Rises,
}

/// What a wait tells of a descriptor.
#[derive(Clone, Copy)]
pub struct Entry {
    pub events: u32,
    pub data: u64,
}

/// An entry is silent after a report until it is changed (`EPOLLONESHOT`).
const ONCE: u32 = 0x40000000;

/// An entry is told only of what came to hold since its last report (`EPOLLET`).
const EDGE: u32 = 0x80000000;

fn has_flag(flag: u32, events: u32) -> bool
    ensures { result ≡ has_bit flag events }
{
    events & flag != 0
}

fn risen(bit: u16, bits: u32, before: u64, now: u64) -> bool
    ensures { result ≡ spec.risen bit bits before now }
{
    has_flag(u32::from(bit), bits) && before < now
}

fn has_risen(bits: u32, before: Rises, now: Rises) -> bool
    ensures { result ≡ spec.has_risen bits before now }
{
    risen(POLLIN, bits, before.input, now.input)
        || risen(POLLOUT, bits, before.output, now.output)
        || risen(POLLERR, bits, before.error, now.error)
        || risen(POLLHUP, bits, before.hangup, now.hangup)
        || risen(POLLRDHUP, bits, before.peer_end, now.peer_end)
}

impl Watch {
    /// Of some bits those that it asks for.
    fn asked_of(self, bits: u32) -> u32
        ensures { result ≡ spec.asked_of self bits }
    {
        bits & (self.events | u32::from(POLLERR + POLLHUP))
    }

    /// Whether it asks for one of some bits; `POLLERR` and `POLLHUP` always count.
    pub fn asks_for(self, bits: u32) -> bool
        ensures { result ≡ spec.asks_for self bits }
    {
        self.asked_of(bits) != 0
    }

    fn told_bits(self, seen: Seen) -> u32
        ensures { result ≡ spec.told_bits self seen }
    {
        self.asked_of(seen.bits)
    }

    fn is_news(self, before: Rises, seen: Seen) -> bool
        ensures { result ≡ spec.is_news self before seen }
    {
        !has_flag(ONCE, self.events)
            && (!has_flag(EDGE, self.events) || has_risen(self.told_bits(seen), before, seen.rises))
    }

    fn is_news_since(self, reported: Option<Rises>, seen: Seen) -> bool
        ensures { result ≡ spec.is_news_since reported self seen }
    {
        match reported {
            Some(before) => self.is_news(before, seen),
            None => true,
        }
    }

    /// Whether a wait would tell of it.
    pub fn is_due(self, seen: Seen) -> bool
        ensures { result ≡ spec.is_due self seen }
    {
        self.told_bits(seen) != 0 && self.is_news_since(self.reported, seen)
    }

    fn entry(self, seen: Seen) -> Entry
        ensures { result ≡ spec.entry_of self seen }
    {
        Entry {
            events: self.told_bits(seen),
            data: self.data,
        }
    }

    fn after_report(self, seen: Seen) -> Watch
        ensures { result ≡ spec.report_of self seen }
    {
        Watch {
            reported: Some(seen.rises),
            ..self
        }
    }
}

/// An epoll (`epoll(7)`).
///
/// Contracts see it as its entries, in the order of their descriptors.
#[derive(Drop)]
pub struct Epoll {
    entries: Vec<Watch>,
}

impl Model for Epoll {
    ghost use Rattle.std.specs.Prelude.{List};
    ghost use Rattle.host_fds.specs.declared.epoll.Watch.{Watch};

    ghost Value = { List Watch };

    ghost view = { λ e. e.entries.items };
}

fn first_behind(entries: &[Watch], fd: u32) -> Option<usize>
    ensures { result ≡ position (spec.is_behind fd) entries.now }
{
    entries.iter().position(|watch| watch.fd > fd)
}

fn place_of(entries: &[Watch], fd: u32) -> usize
    ensures place { result ≡ position_or_len (spec.is_behind fd) entries.now }
    ensures within { result ≤ length entries.now }
{
    first_behind(entries, fd).unwrap_or(entries.len())
}

fn put_in(entries: &mut Vec<Watch>, watch: Watch) -> Result<(), NoMemory>
    ensures { OnOk result (entries.new.items ≡ spec.put_in watch entries.old.items) }
{
    let place = place_of(entries.as_slice(), watch.fd);
    entries.insert(place, watch)?;
    Ok(())
}

fn names(watch: Watch, fd: u32) -> bool
    ensures { result ≡ spec.names fd watch }
{
    watch.fd == fd
}

fn drop_of(entries: &mut Vec<Watch>, fd: u32)
    ensures { entries.new.items ≡ spec.without fd entries.old.items }
{
    entries.retain(|watch| !names(*watch, fd));
}

impl Epoll {
    pub fn new(alloc: Global) -> Epoll
        ensures { result ≡ [] }
    {
        Epoll {
            entries: Vec::new(alloc),
        }
    }

    /// Its entries, in the order of their descriptors.
    pub fn entries(&self) -> &[Watch]
        ensures { result.now ≡ self.now }
    {
        self.entries.as_slice()
    }

    /// Whether it has an entry of a descriptor.
    pub fn watches(&self, fd: u32) -> bool
        ensures { result ≡ spec.watches fd self.now }
    {
        self.entries.iter().any(|watch| watch.fd == fd)
    }

    /// Adds an entry, or puts it in the place of the one that its descriptor has.
    pub fn put(&mut self, watch: Watch) -> Result<(), NoMemory>
        ensures { OnOk result (self.new ≡ spec.with_watch watch self.old) }
    {
        drop_of(&mut self.entries, watch.fd);
        put_in(&mut self.entries, watch)
    }

    /// Drops the entry of a descriptor.
    pub fn remove(&mut self, fd: u32)
        ensures { self.new ≡ spec.without fd self.old }
    {
        drop_of(&mut self.entries, fd);
    }

    /// Tells the first entries that are due, as many as there are and as there is room for, and answers how many it
    /// told. `seen` has what is seen of the entries' descriptors, in their order; the entries behind those are not
    /// told. It takes no memory.
    pub fn report(&mut self, seen: &[Seen], into: &mut [Entry]) -> usize
        requires { length seen.now ≤ length self.old }
        ensures count { result ≡ length (spec.told (length into.old) seen.now self.old) }
        ensures told { into.new ≡ spec.told (length into.old) seen.now self.old ++ drop result into.old }
        ensures left { self.new ≡ spec.reported (length into.old) seen.now self.old }
        ensures at_most { result ≤ length into.old }
    {
        report(self.entries.as_mut_slice(), seen, into)
    }
}

fn report(entries: &mut [Watch], seen: &[Seen], into: &mut [Entry]) -> usize
    requires { length seen.now ≤ length entries.old }
    ensures count { result ≡ length (spec.told (length into.old) seen.now entries.old) }
    ensures told { into.new ≡ spec.told (length into.old) seen.now entries.old ++ drop result into.old }
    ensures left { entries.new ≡ spec.reported (length into.old) seen.now entries.old }
    ensures at_most { result ≤ length into.old }
{
    let mut found = 0;
    for place in 0..seen.len() {
        let watch = entries[place];
        if found < into.len() && watch.is_due(seen[place]) {
            into[found] = watch.entry(seen[place]);
            entries[place] = watch.after_report(seen[place]);
            found += 1;
        }
    }
    found
}
