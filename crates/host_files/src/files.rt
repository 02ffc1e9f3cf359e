//! The open files of a host.

ghost use Rattle.std.specs.Prelude.{◌≡◌, ◌<◌, ◌≤◌, ◌^◌, ◌++◌, [], length, drop, IfOk, IsSome, option_copied};
ghost use Rattle.sim_base.specs.Units.{latest_time, longest_wait};
ghost use Rattle.host_files.specs.Files as spec;
ghost use Rattle.host_files.specs.Slots as act;

use crate::file::File;
use crate::slots::{add, at, free};
use crate::timer::KeptTimer;
use host_fds::{End, Eventfd, FileId, Pipe};
use host_timers::Timer;
use sim_base::{NoMemory, Time};
use std::alloc::Global;
use std::marker::Model;

/// The open files, pipes, timers and eventfds of a host, each by its number.
///
/// Contracts see four lists. A number that is not taken names nothing, and acts on nothing.
pub struct Files {
    files: Vec<Option<File>>,
    pipes: Vec<Option<Pipe>>,
    timers: Vec<Option<KeptTimer>>,
    eventfds: Vec<Option<Eventfd>>,
    alloc: Global,
}

/// By hand: a derived one would be proved anew in each crate that drops such a value.
impl Drop for Files {
    fn drop(self) {
        let Files {
            files,
            pipes,
            timers,
            eventfds,
            alloc: _,
        } = self;
        drop(files);
        drop(pipes);
        drop(timers);
        drop(eventfds);
    }
}

impl Model for Files {
    ghost use Rattle.host_files.specs.Files.{FilesState};

    ghost Value = { FilesState };

    ghost view = { λ f. record { files = f.files.items; pipes = f.pipes.items; timers = f.timers.items; eventfds = f.eventfds.items } };
}

impl Files {
    /// No files.
    pub fn new(alloc: Global) -> Files
        ensures { result ≡ spec.no_files }
    {
        Files {
            files: Vec::new(alloc),
            pipes: Vec::new(alloc),
            timers: Vec::new(alloc),
            eventfds: Vec::new(alloc),
            alloc,
        }
    }

    /// Where its memory comes from.
    pub fn allocator(&self) -> Global {
        self.alloc
    }

    /// The open file with a number.
    pub fn file(&self, id: FileId) -> Option<File>
        ensures { result ≡ spec.file_at id self.now }
    {
        let place = usize::try_from(id.number).ok()?;
        at(self.files.as_slice(), place).copied()
    }

    /// Opens a file, and answers its number, the least free one.
    pub fn open(&mut self, file: File) -> Result<FileId, NoMemory>
        ensures number { IfOk result (λ id. id ≡ spec.next_file self.old) }
        ensures opened { IfOk result (λ _. self.new ≡ spec.opened file self.old) }
    {
        let place = add(&mut self.files, file)?;
        Ok(FileId {
            number: place as u64,
        })
    }

    /// Puts another file in the place of one, as one whose flag is set, or of which more was read.
    pub fn replace(&mut self, id: FileId, file: File)
        ensures { self.new ≡ spec.replaced id file self.old }
    {
        if id.number < self.files.len() as u64 {
            replace_slot(&mut self.files[id.number as usize], file);
        }
    }

    /// Closes a file, whose number is then free.
    pub fn close(&mut self, id: FileId)
        ensures { self.new ≡ spec.closed id self.old }
    {
        if id.number < self.files.len() as u64 {
            free(self.files.as_mut_slice(), id.number as usize);
        }
    }

    /// Makes a pipe, and answers its number, the least free one.
    pub fn new_pipe(&mut self) -> Result<usize, NoMemory>
        ensures number { IfOk result (λ place. place ≡ spec.next_pipe self.old) }
        ensures made { IfOk result (λ _. self.new ≡ spec.with_pipe self.old) }
    {
        let pipe = Pipe::new(self.alloc)?;
        add(&mut self.pipes, pipe)
    }

    /// The pipe with a number.
    pub fn pipe(&self, place: usize) -> Option<&Pipe>
        ensures { option_copied result ≡ spec.pipe_at place self.now }
    {
        at(self.pipes.as_slice(), place)
    }

    /// Reads from a pipe, as many bytes as there are and as the buffer has room for.
    pub fn read_pipe(&mut self, place: usize, into: &mut [u8]) -> usize
        ensures count { result ≡ length (spec.pipe_gives (length into.old) place self.old) }
        ensures moved { into.new ≡ spec.pipe_gives (length into.old) place self.old ++ drop result into.old }
        ensures left { self.new ≡ spec.pipe_read (length into.old) place self.old }
        ensures at_most { result ≤ length into.old }
    {
        if place >= self.pipes.len() {
            return 0;
        }
        read_slot(&mut self.pipes[place], into)
    }

    /// Writes to a pipe the first of some bytes, as many as there is room for.
    pub fn write_pipe(&mut self, place: usize, bytes: &[u8]) -> usize
        ensures count { result ≡ spec.pipe_gets_in bytes.now place self.old }
        ensures written { self.new ≡ spec.pipe_written bytes.now place self.old }
        ensures at_most { result ≤ length bytes.now }
    {
        if place >= self.pipes.len() {
            return 0;
        }
        write_slot(&mut self.pipes[place], bytes)
    }

    /// Lets an end of a pipe go. A pipe without ends is gone.
    pub fn shut_pipe(&mut self, place: usize, end: End)
        ensures { self.new ≡ spec.pipe_shut end place self.old }
    {
        if place < self.pipes.len() {
            shut_slot(&mut self.pipes[place], end);
        }
    }

    /// Makes a timer that is off, and answers its number, the least free one.
    pub fn new_timer(&mut self, clock: u32) -> Result<usize, NoMemory>
        ensures number { IfOk result (λ place. place ≡ spec.next_timer self.old) }
        ensures made { IfOk result (λ _. self.new ≡ spec.with_timer clock self.old) }
    {
        let timer = KeptTimer {
            timer: Timer::new(),
            clock,
            serial: 0,
            earlier: 0,
        };
        add(&mut self.timers, timer)
    }

    /// The timer with a number.
    pub fn timer(&self, place: usize) -> Option<&KeptTimer>
        ensures timer { option_copied result ≡ spec.timer_at place self.now }
        ensures in_range { IsSome result → place < 2 ^ 63 }
    {
        if place >= self.timers.len() {
            return None;
        }
        at(self.timers.as_slice(), place)
    }

    /// Sets a timer. From now on alarms with this serial are its own.
    pub fn set_timer(&mut self, place: usize, now: Time, first: Time, interval: Time, serial: u64)
        requires now { now.nanos ≤ latest_time }
        requires first { first.nanos ≤ longest_wait }
        requires interval { interval.nanos ≤ longest_wait }
        ensures { self.new ≡ spec.timer_set now.nanos first.nanos interval.nanos serial place self.old }
    {
        if place < self.timers.len() {
            set_slot(&mut self.timers[place], now, first, interval, serial);
        }
    }

    /// From now on alarms with this serial are the timer's own.
    pub fn set_serial(&mut self, place: usize, serial: u64)
        ensures { self.new ≡ spec.timer_serial serial place self.old }
    {
        if place < self.timers.len() {
            serial_slot(&mut self.timers[place], serial);
        }
    }

    /// Takes the expiries of a timer that no read has taken, and answers how many they are.
    pub fn read_timer(&mut self, place: usize, now: Time) -> u64
        requires { now.nanos ≤ latest_time }
        ensures count { result ≡ spec.timer_count now.nanos place self.old }
        ensures taken { self.new ≡ spec.timer_read now.nanos place self.old }
    {
        if place >= self.timers.len() {
            return 0;
        }
        read_timer_slot(&mut self.timers[place], now)
    }

    /// Ends a timer, whose number is then free.
    pub fn end_timer(&mut self, place: usize)
        ensures { self.new ≡ spec.timer_ended place self.old }
    {
        free(self.timers.as_mut_slice(), place);
    }

    /// Makes an eventfd, and answers its number, the least free one.
    pub fn new_eventfd(&mut self, eventfd: Eventfd) -> Result<usize, NoMemory>
        ensures number { IfOk result (λ place. place ≡ spec.next_eventfd self.old) }
        ensures made { IfOk result (λ _. self.new ≡ spec.with_eventfd eventfd self.old) }
    {
        add(&mut self.eventfds, eventfd)
    }

    /// The eventfd with a number.
    pub fn eventfd(&self, place: usize) -> Option<Eventfd>
        ensures { result ≡ spec.eventfd_at place self.now }
    {
        at(self.eventfds.as_slice(), place).copied()
    }

    /// Reads from an eventfd, and answers what it takes.
    pub fn read_eventfd(&mut self, place: usize) -> u64
        ensures count { result ≡ spec.eventfd_taken place self.old }
        ensures taken { self.new ≡ spec.eventfd_read place self.old }
    {
        if place >= self.eventfds.len() {
            return 0;
        }
        read_eventfd_slot(&mut self.eventfds[place])
    }

    /// Adds a number to an eventfd, where there is room for it.
    pub fn write_eventfd(&mut self, place: usize, number: u64)
        ensures { self.new ≡ spec.eventfd_written number place self.old }
    {
        if place < self.eventfds.len() {
            write_eventfd_slot(&mut self.eventfds[place], number);
        }
    }

    /// Ends an eventfd, whose number is then free.
    pub fn end_eventfd(&mut self, place: usize)
        ensures { self.new ≡ spec.eventfd_ended place self.old }
    {
        free(self.eventfds.as_mut_slice(), place);
    }
}

fn replace_slot(slot: &mut Option<File>, file: File)
    ensures { slot.new ≡ act.after (λ _. Some file) slot.old }
{
    if slot.is_some() {
        *slot = Some(file);
    }
}

fn read_slot(slot: &mut Option<Pipe>, into: &mut [u8]) -> usize
    ensures count { result ≡ length (spec.gives (length into.old) slot.old) }
    ensures moved { into.new ≡ spec.gives (length into.old) slot.old ++ drop result into.old }
    ensures left { slot.new ≡ act.after (spec.after_read (length into.old)) slot.old }
    ensures at_most { result ≤ length into.old }
{
    match slot {
        Some(pipe) => pipe.read(into),
        None => 0,
    }
}

fn write_slot(slot: &mut Option<Pipe>, bytes: &[u8]) -> usize
    ensures count { result ≡ spec.gets_in bytes.now slot.old }
    ensures written { slot.new ≡ act.after (spec.after_write bytes.now) slot.old }
    ensures at_most { result ≤ length bytes.now }
{
    match slot {
        Some(pipe) => pipe.write(bytes),
        None => 0,
    }
}

fn shut_slot(slot: &mut Option<Pipe>, end: End)
    ensures { slot.new ≡ act.after (spec.after_shut end) slot.old }
{
    if let Some(pipe) = slot {
        pipe.shut(end);
        if !pipe.has_reader() && !pipe.has_writer() {
            *slot = None;
        }
    }
}

fn set_slot(slot: &mut Option<KeptTimer>, now: Time, first: Time, interval: Time, serial: u64)
    requires now { now.nanos ≤ latest_time }
    requires first { first.nanos ≤ longest_wait }
    requires interval { interval.nanos ≤ longest_wait }
    ensures { slot.new ≡ act.after (spec.after_set now.nanos first.nanos interval.nanos serial) slot.old }
{
    if let Some(kept) = slot {
        kept.earlier = kept.expiries(now);
        kept.timer.set(now, first, interval);
        kept.serial = serial;
    }
}

fn serial_slot(slot: &mut Option<KeptTimer>, serial: u64)
    ensures { slot.new ≡ act.after (spec.after_serial serial) slot.old }
{
    if let Some(kept) = slot {
        kept.serial = serial;
    }
}

fn read_timer_slot(slot: &mut Option<KeptTimer>, now: Time) -> u64
    requires { now.nanos ≤ latest_time }
    ensures count { result ≡ spec.count_in now.nanos slot.old }
    ensures taken { slot.new ≡ act.after (spec.after_count now.nanos) slot.old }
{
    match slot {
        Some(kept) => kept.timer.read(now),
        None => 0,
    }
}

fn read_eventfd_slot(slot: &mut Option<Eventfd>) -> u64
    ensures count { result ≡ spec.taken_of slot.old }
    ensures taken { slot.new ≡ act.after spec.after_taken slot.old }
{
    match slot {
        Some(eventfd) => eventfd.read(),
        None => 0,
    }
}

fn write_eventfd_slot(slot: &mut Option<Eventfd>, number: u64)
    ensures { slot.new ≡ act.after (spec.after_added number) slot.old }
{
    if let Some(eventfd) = slot {
        eventfd.write(number);
    }
}
