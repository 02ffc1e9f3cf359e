//! clock_gettime, clock_nanosleep, timerfd_create and timerfd_settime.

ghost use Rattle.std.specs.Prelude.{◌≡◌, ◌<◌, ◌≤◌, None, IfOk, OnOk, option_map};
ghost use Rattle.std.specs.FinMap as map;
ghost use Rattle.sim_base.specs.Units.{latest_time, longest_wait};
ghost use Rattle.host_fds.specs.Descriptors.{limit};
ghost use Rattle.host_timers.specs.Clock.{moment_of};
ghost use Rattle.host_files.specs.Files.{timer_at};
ghost use Rattle.file_calls.specs.Times as spec;
ghost use Rattle.file_calls.specs.Scene.{Does, Is};

use crate::descriptors::{look_up, lowest_free, open};
use crate::flags::{O_NONBLOCK, beside_open, has};
use crate::task::{Shared, Task, Why};
use guest_args::{
    deadline_after, deadline_at, fill, sixteen, thirty_two, time_span, timespec, timespec_of,
};
use guest_mem::{Mem, Right};
use host_files::{File, Files, Object};
use host_timers::{Clock, Moment, Timer};
use host_wants::{CallError, Refusal};
use sim_base::{AlarmTarget, Errno, NoMemory, Time};

/// How a timer is set.
#[derive(Clone, Copy)]
pub struct Setting {
    pub interval: Moment,
    pub value: Moment,
}

/// A timer before it is set: its number, its clock, the serial of its alarm, and its interval and
/// the time that is left, as `struct itimerspec` has them.
#[derive(Clone, Copy)]
pub struct OldTimer {
    pub place: usize,
    pub clock: u32,
    pub serial: u64,
    pub setting: [u8; 32],
}

/// `clock_gettime(2)`.
pub fn clock_gettime(
    task: &mut Task,
    shared: &Shared,
    now: Time,
    clock: u32,
    at: u32,
) -> Result<u32, CallError>
    ensures { Does (spec.clock_gettime now clock at (task.old, shared.now)) (task.old, shared.now) (task.new, shared.now) result }
{
    let Some(moment) = Clock::at(clock, now) else {
        return Err(CallError::Refused(Refusal::Errno(Errno::Einval)));
    };
    if !task.memory.is_open(Right::Write, at, 16) {
        return Err(CallError::Refused(Refusal::Errno(Errno::Efault)));
    }
    fill(&mut task.memory, at, &timespec_of(moment));
    Ok(0)
}

/// The moment at which a time has come that is relative, or absolute on a clock.
fn deadline_of(flags: u32, clock: u32, now: Time, time: Moment) -> Time
    requires { now.nanos ≤ latest_time }
    ensures { result ≡ spec.at_nanos (spec.deadline_of flags clock now time) }
{
    if flags == 0 {
        deadline_after(now, time)
    } else {
        deadline_at(clock, time)
    }
}

/// A call that is made again keeps its first deadline.
pub fn kept_or(kept: Option<Why>, computed: Time) -> Time
    ensures { result ≡ spec.kept_or kept computed }
{
    match kept {
        Some(why) => why.deadline.unwrap_or(computed),
        None => computed,
    }
}

fn sleep_time(clock: u32, flags: u32, at: u32, task: &Task) -> Result<Moment, Refusal>
    ensures { result ≡ spec.sleep_time clock flags at task.now }
{
    if clock > 1 || flags > 1 {
        return Err(Refusal::Errno(Errno::Einval));
    }
    let Some(bytes) = sixteen(&task.memory, at) else {
        return Err(Refusal::Errno(Errno::Efault));
    };
    match timespec(&bytes, 0) {
        Some(time) => Ok(time),
        None => Err(Refusal::Errno(Errno::Einval)),
    }
}

/// What refuses a `clock_nanosleep(2)`, and whether it waits.
pub fn sleep_asked(now: Time, clock: u32, flags: u32, at: u32, task: &Task) -> Result<(), Refusal>
    requires { now.nanos ≤ latest_time }
    ensures { result ≡ spec.sleep_asked now clock flags at task.now }
{
    let time = sleep_time(clock, flags, at, task)?;
    let deadline = kept_or(task.kept, deadline_of(flags, clock, now, time));
    if now.nanos < deadline.nanos {
        return Err(Refusal::Wait(Some(deadline)));
    }
    Ok(())
}

fn create_asked(task: &Task, clock: u32, flags: u32) -> Result<u32, Refusal>
    ensures asked { result ≡ spec.create_asked clock flags task.now }
    ensures in_range { IfOk result (λ fd. fd < limit) }
    ensures is_free { IfOk result (λ fd. map.get task.now.table fd ≡ None) }
{
    if clock > 1 {
        return Err(Refusal::Errno(Errno::Einval));
    }
    if beside_open(flags) != 0 {
        return Err(Refusal::Errno(Errno::Einval));
    }
    match lowest_free(&task.table) {
        Some(fd) => Ok(fd),
        None => Err(Refusal::Errno(Errno::Emfile)),
    }
}

/// `timerfd_create(2)`.
pub fn timerfd_create(
    task: &mut Task,
    shared: &mut Shared,
    clock: u32,
    flags: u32,
) -> Result<u32, CallError>
    ensures { Does (spec.timerfd_create clock flags (task.old, shared.old)) (task.old, shared.old) (task.new, shared.new) result }
{
    let fd = create_asked(task, clock, flags)?;
    let place = shared.files.new_timer(clock)?;
    let file = File {
        nonblocking: has(O_NONBLOCK, flags),
        object: Object::Timer(place),
    };
    open(fd, file, task, shared)?;
    Ok(fd)
}

fn is_zero(time: Moment) -> bool
    ensures { result ≡ spec.is_zero time }
{
    time.seconds == 0 && time.nanos == 0
}

/// The first expiry that is asked for, 0 for off.
fn first_expiry(flags: u32, clock: u32, now: Time, value: Moment) -> Time
    requires { now.nanos ≤ latest_time }
    ensures first { result ≡ spec.at_nanos (spec.first_expiry flags clock now value) }
    ensures limit { result.nanos ≤ longest_wait }
{
    if is_zero(value) {
        return Time { nanos: 0 };
    }
    let deadline = deadline_of(flags, clock, now, value);
    Time {
        nanos: deadline.nanos.max(now.nanos + 1),
    }
}

fn set(
    now: Time,
    place: usize,
    old: u64,
    first: Time,
    interval: Time,
    shared: &mut Shared,
) -> Result<(), NoMemory>
    requires now { now.nanos ≤ latest_time }
    requires first { first.nanos ≤ longest_wait }
    requires interval { interval.nanos ≤ longest_wait }
    ensures { OnOk result (shared.new ≡ spec.sets now place old first.nanos interval.nanos shared.old) }
{
    if first.nanos == 0 {
        shared.files.set_timer(place, now, first, interval, old);
        return Ok(());
    }
    let serial = shared.outlet.alarm(AlarmTarget::Timer(place), first)?;
    shared.files.set_timer(place, now, first, interval, serial);
    Ok(())
}

fn as_moment(nanos: u64) -> Moment
    ensures { result ≡ moment_of nanos }
{
    Moment {
        seconds: nanos / 1_000_000_000,
        nanos: (nanos % 1_000_000_000) as u32,
    }
}

fn time_left(now: Time, due: Option<Time>) -> u64
    ensures { result ≡ spec.time_left now (option_map (λ due. due.nanos) due) }
{
    match due {
        Some(due) => due.nanos.saturating_sub(now.nanos),
        None => 0,
    }
}

/// The interval of a timer, and the time that is left.
fn setting_of(now: Time, timer: &Timer) -> [u8; 32]
    requires { now.nanos ≤ latest_time }
    ensures { result ≡ spec.setting_of now timer.now }
{
    let mut setting = [0; 32];
    let left = time_left(now, timer.next_due(now));
    setting[..16].copy_from_slice(&timespec_of(as_moment(timer.interval().nanos)));
    setting[16..].copy_from_slice(&timespec_of(as_moment(left)));
    setting
}

fn timer_number(object: Object) -> Result<usize, Refusal>
    ensures { result ≡ spec.timer_number object }
{
    match object {
        Object::Timer(place) => Ok(place),
        Object::Input => Err(Refusal::Errno(Errno::Einval)),
        Object::Output => Err(Refusal::Errno(Errno::Einval)),
        Object::Errors => Err(Refusal::Errno(Errno::Einval)),
        Object::Hosts(_) => Err(Refusal::Errno(Errno::Einval)),
        Object::ReadEnd(_) => Err(Refusal::Errno(Errno::Einval)),
        Object::WriteEnd(_) => Err(Refusal::Errno(Errno::Einval)),
        Object::Eventfd(_) => Err(Refusal::Errno(Errno::Einval)),
        Object::Epoll(_) => Err(Refusal::Errno(Errno::Einval)),
        Object::Udp(_) => Err(Refusal::Errno(Errno::Einval)),
        Object::Tcp(_) => Err(Refusal::Errno(Errno::Einval)),
    }
}

/// The timer that a descriptor names, as it is.
fn old_timer(now: Time, fd: u32, task: &Task, files: &Files) -> Result<OldTimer, Refusal>
    requires { now.nanos ≤ latest_time }
    ensures { result ≡ spec.old_timer now fd task.now files.now }
{
    let d = look_up(fd, task, files)?;
    let place = timer_number(d.file.object)?;
    match files.timer(place) {
        Some(kept) => Ok(OldTimer {
            place,
            clock: kept.clock,
            serial: kept.serial,
            setting: setting_of(now, &kept.timer),
        }),
        None => Err(Refusal::Errno(Errno::Ebadf)),
    }
}

/// How a timer is to be set.
fn settime_asked(flags: u32, at: u32, old_at: u32, task: &Task) -> Result<Setting, Refusal>
    ensures { result ≡ spec.settime_asked flags at old_at task.now }
{
    if flags > 1 {
        return Err(Refusal::Errno(Errno::Einval));
    }
    let Some(bytes) = thirty_two(&task.memory, at) else {
        return Err(Refusal::Errno(Errno::Efault));
    };
    if old_at != 0 && !task.memory.is_open(Right::Write, old_at, 32) {
        return Err(Refusal::Errno(Errno::Efault));
    }
    let Some(interval) = timespec(&bytes, 0) else {
        return Err(Refusal::Errno(Errno::Einval));
    };
    let Some(value) = timespec(&bytes, 16) else {
        return Err(Refusal::Errno(Errno::Einval));
    };
    Ok(Setting { interval, value })
}

fn set_by(
    now: Time,
    flags: u32,
    old: &OldTimer,
    setting: Setting,
    shared: &mut Shared,
) -> Result<(), NoMemory>
    requires { now.nanos ≤ latest_time }
    ensures { OnOk result (shared.new ≡ spec.set_by now flags old.now setting shared.old) }
{
    let first = first_expiry(flags, old.clock, now, setting.value);
    set(
        now,
        old.place,
        old.serial,
        first,
        time_span(setting.interval),
        shared,
    )
}

/// A null pointer means that the old setting isn't wanted.
fn tell_setting(memory: &mut Mem, at: u32, setting: &[u8])
    ensures { memory.new ≡ spec.with_setting at setting.now memory.old }
{
    if at != 0 {
        fill(memory, at, setting);
    }
}

/// `timerfd_settime(2)`.
pub fn timerfd_settime(
    task: &mut Task,
    shared: &mut Shared,
    now: Time,
    fd: u32,
    flags: u32,
    at: u32,
    old_at: u32,
) -> Result<u32, CallError>
    requires { now.nanos ≤ latest_time }
    ensures { Does (spec.timerfd_settime now fd flags at old_at (task.old, shared.old)) (task.old, shared.old) (task.new, shared.new) result }
{
    let old = old_timer(now, fd, task, &shared.files)?;
    let setting = settime_asked(flags, at, old_at, task)?;
    set_by(now, flags, &old, setting, shared)?;
    tell_setting(&mut task.memory, old_at, &old.setting);
    Ok(0)
}

fn ring_at(place: usize, due: Option<Time>, shared: &mut Shared) -> Result<(), NoMemory>
    ensures { OnOk result (shared.new ≡ spec.rings_at place (option_map (λ due. due.nanos) due) shared.old) }
{
    if let Some(due) = due {
        let serial = shared.outlet.alarm(AlarmTarget::Timer(place), due)?;
        shared.files.set_serial(place, serial);
    }
    Ok(())
}

/// When a timer's next alarm is due after the one with a serial. A stale serial has none.
fn next_ring(now: Time, place: usize, serial: u64, files: &Files) -> Option<Time>
    requires { now.nanos ≤ latest_time }
    ensures { option_map (λ due. due.nanos) result ≡ spec.next_ring now serial (timer_at place files.now) }
{
    match files.timer(place) {
        Some(kept) => {
            if kept.serial == serial {
                kept.timer.next_due(now)
            } else {
                None
            }
        }
        None => None,
    }
}

/// The alarm of a timer: one at its next expiry follows.
pub fn ring(now: Time, place: usize, serial: u64, shared: &mut Shared) -> Result<(), NoMemory>
    requires { now.nanos ≤ latest_time }
    ensures { OnOk result (shared.new ≡ spec.rings now place serial shared.old) }
{
    let due = next_ring(now, place, serial, &shared.files);
    ring_at(place, due, shared)
}
