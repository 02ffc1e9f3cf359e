//! Spans of bytes in memory of which a page may not be read, spans that are longer than a call moves, and the longest time.

use crate::memory::{END, READABLE, WRITABLE, memory};
use guest_args::{block, fill, four, timespec, timespec_of, wanted_place};
use host_timers::Moment;
use std::test::Fail;

/// Spans: where they begin, how long they are, and whether each byte may be read.
const SPANS: [(u32, usize, bool); 10] = [
    (END - 1, 1, true),
    (END - 1, 2, false),
    (END - 65_536, 65_536, true),
    (END - 65_536, 65_537, false),
    (END - 65_537, 65_537, true),
    (END, 0, true),
    (0, 0, true),
    (u32::MAX, 2, false),
    (WRITABLE, 1, false),
    (WRITABLE - 1, 2, false),
];

#[test]
fn bytes_that_may_not_be_read_are_none(rt: HostRuntime) -> Result<(), Fail> {
    let mut memory = memory(rt.alloc())?;
    for (at, size, is_there) in SPANS {
        let found = block(rt.alloc(), &memory, at, size)?;
        assert_eq!(rt;
            found.map(|bytes| bytes.len()),
            is_there.then_some(size),
            "{at} {size}"
        );
    }
    fill(&mut memory, END - 4, b"last");
    fill(&mut memory, END - 3, b"over");
    fill(&mut memory, READABLE, b"kept");
    assert_eq!(rt; four(&memory, END - 4), Some(*b"last"));
    assert_eq!(rt; four(&memory, READABLE), Some([0; 4]));
    assert_eq!(rt; four(&memory, WRITABLE), None);
    assert!(rt; wanted_place(&memory, END - 64, WRITABLE) == None);
    Ok(())
}

#[test]
fn the_longest_time_has_its_bytes(rt: HostRuntime) {
    let time = Moment {
        seconds: u64::MAX >> 1,
        nanos: 999_999_999,
    };
    let bytes = [
        7, 7, 0xFF, 0xFF, 0xFF, 0xFF, 0xFF, 0xFF, 0xFF, 0x7F, 0xFF, 0xC9, 0x9A, 0x3B, 0, 0, 0, 0,
    ];
    assert!(rt; timespec(&bytes, 2) == Some(time));
    assert_eq!(rt; timespec_of(time).as_slice(), &bytes[2..]);
}
