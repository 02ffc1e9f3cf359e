//! Files, pipes and timers by number, and timers whose expiries are far away.

ghost use Rattle.std.specs.Prelude.{◌≡◌};

use host_fds::{End, FileId};
use host_files::{File, Files, Object};
use sim_base::{POLLERR, POLLHUP, POLLIN, POLLOUT, Time};
use std::test::Fail;

fn file(object: Object) -> File {
    File {
        nonblocking: false,
        object,
    }
}

fn id(number: u64) -> FileId {
    FileId { number }
}

fn at(nanos: u64) -> Time
    ensures { result.nanos ≡ nanos }
{
    Time { nanos }
}

/// The number of a new file; none for want of memory.
fn opens(files: &mut Files, object: Object) -> Option<u64> {
    files.open(file(object)).ok().map(|id| id.number)
}

/// Whether a number stays without a file, when one is put there and when it is closed.
fn has_none(files: &mut Files, number: u64) -> bool {
    files.replace(id(number), file(Object::Input));
    let none = files.file(id(number)) == None;
    files.close(id(number));
    none
}

#[test]
fn a_file_has_the_least_free_number(rt: HostRuntime) {
    let mut files = Files::new(rt.alloc());
    let opened = [
        opens(&mut files, Object::Udp(0)),
        opens(&mut files, Object::Udp(1)),
        opens(&mut files, Object::Udp(2)),
    ];
    assert_eq!(rt; opened, [Some(0), Some(1), Some(2)]);
    files.close(id(1));
    let none = [
        has_none(&mut files, 1),
        has_none(&mut files, 3),
        has_none(&mut files, u64::MAX),
    ];
    assert_eq!(rt; none, [true; 3]);
    let set = File {
        nonblocking: true,
        object: Object::Hosts(7),
    };
    files.replace(id(2), set);
    let opened = [
        opens(&mut files, Object::Errors),
        opens(&mut files, Object::Output),
    ];
    assert_eq!(rt; opened, [Some(1), Some(3)]);
    let found = [files.file(id(0)), files.file(id(1)), files.file(id(2))];
    let wanted = [file(Object::Udp(0)), file(Object::Errors), set];
    assert!(rt; found == wanted.map(Some));
    let mut more = Files::new(files.allocator());
    assert_eq!(rt; opens(&mut more, Object::Input), Some(0));
}

/// What an end of a pipe is ready for, whether the pipe has a reader and a writer, how many bytes it has, and for how many
/// it has room.
fn told(files: &Files, place: usize, end: End) -> Option<(u16, bool, bool, usize, usize)> {
    let pipe = files.pipe(place)?;
    Some((
        pipe.ready(end),
        pipe.has_reader(),
        pipe.has_writer(),
        pipe.len(),
        pipe.room(),
    ))
}

#[test]
fn a_pipe_takes_what_there_is_room_for(rt: HostRuntime) -> Result<(), Fail> {
    let mut files = Files::new(rt.alloc());
    let pipes = (files.new_pipe()?, files.new_pipe()?);
    let bytes = vec![in rt.alloc(); 9; 65_537]?;
    let mut into = [0; 3];
    let mut other = [0; 3];
    let moved = [
        files.write_pipe(0, &bytes),
        files.write_pipe(0, b"x"),
        files.read_pipe(0, &mut into),
        files.write_pipe(0, b"wxyz"),
        files.read_pipe(1, &mut other),
        files.read_pipe(2, &mut other),
        files.write_pipe(2, b"x"),
    ];
    assert_eq!(rt; (pipes, moved), ((0, 1), [65_536, 0, 3, 3, 0, 0, 0]));
    assert_eq!(rt; into, [9; 3]);
    Ok(())
}

#[test]
fn a_pipe_goes_with_its_last_end(rt: HostRuntime) -> Result<(), Fail> {
    let mut files = Files::new(rt.alloc());
    let pipes = (files.new_pipe()?, files.new_pipe()?);
    let mut into = [0; 3];
    let first = files.write_pipe(0, b"wxyz");
    files.shut_pipe(2, End::Writing);
    // a pipe without reader still takes what there is room for, and one without writer takes nothing
    files.shut_pipe(1, End::Reading);
    files.shut_pipe(0, End::Writing);
    let moved = [first, files.write_pipe(1, b"x"), files.write_pipe(0, b"x")];
    assert_eq!(rt; (pipes, moved), ((0, 1), [4, 1, 0]));
    let unread = Some((POLLOUT + POLLERR, false, true, 1, 65_535));
    assert_eq!(rt; told(&files, 1, End::Writing), unread);
    let unwritten = Some((POLLIN + POLLHUP, true, false, 4, 65_532));
    assert_eq!(rt; told(&files, 0, End::Reading), unwritten);
    let read = files.read_pipe(0, &mut into);
    files.shut_pipe(0, End::Reading);
    let there = [0, 1, 2].map(|place| files.pipe(place).is_some());
    assert_eq!(rt; (read, there), (3, [false, true, false]));
    assert_eq!(rt; (files.new_pipe()?, files.read_pipe(0, &mut into)), (0, 0));
    Ok(())
}

/// Settings of a timer, and what it tells then: when it is set, its first expiry and its interval; a later moment, how many
/// expiries there were, and the next one.
const SETTINGS: [(u64, u64, u64, u64, u64, Option<u64>); 12] = [
    (5, 0, 9, 5, 0, None),
    (0, 1_000_000, 1_000_000, 0, 0, Some(1_000_000)),
    (0, 1_000_000, 1_000_000, 999_999, 0, Some(1_000_000)),
    (0, 1_000_000, 1_000_000, 1_000_000, 1, Some(2_000_000)),
    (0, 1_000_000, 1_000_000, 4_000_001, 4, Some(5_000_000)),
    (7, 3, 0, 7, 0, Some(8)),
    (7, 3, 0, 8, 1, None),
    (7, 3, 0, 1_000, 1, None),
    (0, 1 << 62, 1 << 62, 1 << 61, 0, Some(1 << 62)),
    (0, 1, 1 << 62, 1 << 61, 1, Some((1 << 62) + 1)),
    (10, 20, 5, 34, 3, Some(35)),
    (10, 20, 5, 1 << 61, (1 << 61) / 5 - 3, Some((1 << 61) + 3)),
];

/// Moments, in order, and how many expiries a read takes then of a timer of 5 ns from 20 ns on.
const READS: [(u64, u64); 6] = [
    (19, 0),
    (20, 1),
    (20, 0),
    (34, 2),
    (35, 1),
    (1 << 61, (1 << 61) / 5 - 7),
];

/// Sets the timer 1, and its serial number to 9.
fn sets(files: &mut Files, set: u64, first: u64, interval: u64) {
    if set <= 1 << 61 && first <= 1 << 62 && interval <= 1 << 62 {
        files.set_timer(1, at(set), at(first), at(interval), 9);
    }
}

/// How many expiries a read takes of a timer.
fn read_of(files: &mut Files, place: usize, now: u64) -> Option<u64> {
    (now <= 1 << 61).then(|| files.read_timer(place, at(now)))
}

/// What the timer 1 tells at a moment: its expiries in both ways, and its next one.
fn expiries(files: &Files, now: u64) -> Option<(u64, u64, Option<u64>)> {
    if now > 1 << 61 {
        return None;
    }
    let timer = &files.timer(1)?.timer;
    let next = timer.next_due(at(now)).map(|next| next.nanos);
    Some((timer.expired(at(now)), timer.count(at(now)), next))
}

/// The clock, the serial number and the interval of a timer.
fn kept(files: &Files, place: usize) -> Option<(u32, u64, u64)> {
    let kept = files.timer(place)?;
    Some((kept.clock, kept.serial, kept.timer.interval().nanos))
}

#[test]
fn a_timer_tells_its_expiries(rt: HostRuntime) -> Result<(), Fail> {
    let mut files = Files::new(rt.alloc());
    assert_eq!(rt; (files.new_timer(0)?, files.new_timer(1)?), (0, 1));
    for (set, first, interval, now, count, due) in &SETTINGS {
        sets(&mut files, *set, *first, *interval);
        assert_eq!(rt; kept(&files, 1), Some((1, 9, *interval)));
        let told = expiries(&files, *now);
        assert_eq!(rt;
            told,
            Some((*count, *count, *due)),
            "{set} {first} {interval} {now}"
        );
        let reads = (read_of(&mut files, 1, *now), read_of(&mut files, 1, *now));
        assert_eq!(rt;
            reads,
            (Some(*count), Some(0)),
            "{set} {first} {interval} {now}"
        );
    }
    sets(&mut files, 10, 20, 5);
    for (now, count) in &READS {
        assert_eq!(rt; read_of(&mut files, 1, *now), Some(*count), "{now}");
    }
    Ok(())
}

#[test]
fn a_timer_goes_with_its_number(rt: HostRuntime) -> Result<(), Fail> {
    let mut files = Files::new(rt.alloc());
    let timers = (files.new_timer(0)?, files.new_timer(1)?);
    files.set_timer(2, at(10), at(20), at(5), 9);
    files.set_serial(0, 4);
    files.set_serial(2, 4);
    let reads = [
        read_of(&mut files, 0, 1 << 61),
        read_of(&mut files, 2, 1 << 61),
    ];
    assert_eq!(rt; (timers, reads), ((0, 1), [Some(0); 2]));
    assert_eq!(rt; kept(&files, 0), Some((0, 4, 0)));
    files.end_timer(0);
    files.end_timer(2);
    let there = [0, 1, 2].map(|place| files.timer(place).is_some());
    assert_eq!(rt; there, [false, true, false]);
    assert_eq!(rt; files.new_timer(1)?, 0);
    assert_eq!(rt; kept(&files, 0), Some((1, 0, 0)));
    Ok(())
}
