//! What pipes, timers and eventfds are ready for, and how often they became so.

ghost use Rattle.std.specs.Prelude.{◌≡◌, ◌≤◌};
ghost use Rattle.sim_base.specs.Units.{latest_time};
ghost use Rattle.host_files.specs.Files.{pipe_at, timer_at, eventfd_at};
ghost use Rattle.call_parts.specs.Ready as spec;

use file_calls::reading::timer_count;
use host_fds::{End, Rises};
use host_files::Files;
use sim_base::{POLLIN, Time};

/// What the end of a pipe is ready for.
pub fn pipe_ready(place: usize, end: End, files: &Files) -> u16
    ensures { result ≡ spec.pipe_ready (pipe_at place files.now) end }
{
    match files.pipe(place) {
        Some(pipe) => pipe.ready(end),
        None => 0,
    }
}

/// What a timer is ready for.
pub fn timer_ready(now: Time, place: usize, files: &Files) -> u16
    requires { now.nanos ≤ latest_time }
    ensures { result ≡ spec.timer_ready now place files.now }
{
    if timer_count(now, place, files) > 0 {
        POLLIN
    } else {
        0
    }
}

/// What an eventfd is ready for.
pub fn eventfd_ready(place: usize, files: &Files) -> u16
    ensures { result ≡ spec.eventfd_ready (eventfd_at place files.now) }
{
    match files.eventfd(place) {
        Some(eventfd) => eventfd.ready(),
        None => 0,
    }
}

/// How often each bit came to hold for the end of a pipe.
pub fn pipe_rises(place: usize, end: End, files: &Files) -> Rises
    ensures { result ≡ spec.pipe_rises (pipe_at place files.now) end }
{
    match files.pipe(place) {
        Some(pipe) => pipe.rises(end),
        None => Rises::none(),
    }
}

/// The same for a timer.
pub fn timer_rises(now: Time, place: usize, files: &Files) -> Rises
    requires { now.nanos ≤ latest_time }
    ensures { result ≡ spec.rises_of_timer now (timer_at place files.now) }
{
    match files.timer(place) {
        Some(kept) => kept.rises(now),
        None => Rises::none(),
    }
}

/// The same for an eventfd.
pub fn eventfd_rises(place: usize, files: &Files) -> Rises
    ensures { result ≡ spec.eventfd_rises (eventfd_at place files.now) }
{
    match files.eventfd(place) {
        Some(eventfd) => eventfd.rises,
        None => Rises::none(),
    }
}
