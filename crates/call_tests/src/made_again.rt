//! Calls of a process whose memory changes while it waits, and of one whose descriptors are closed: what no guest can bring
//! about.

use crate::memory::{OPEN, memory};
use file_calls::Known;
use guest_args::four;
use guest_mem::Mem;
use host_calls::{Answer, Parts, answers_now, close_all, do_call, start_task};
use host_draws::Draws;
use sim_base::{Book, Bytes, Ip, Time};
use std::alloc::Global;
use std::test::Fail;

/// What happens, and what it gives. `call` has the number of a call and its arguments in hexadecimal, and gives its
/// answer, if it doesn't wait. `put` has bytes, hexadecimal too, that are put into memory from 0x14000 on; `told` gives
/// the second half of the entry of a poll there. `waits` gives whether the call that waits would answer, `-` where none
/// waits, and `closes` closes all descriptors. Memory at 0x12000 may be written and not read.
const ACTS: &str = "
# Calls on memory that may not be read are refused. A datagram socket, and one of TCP.
waits = -
call 56 0 12000 1 0 0 0 = -14
call 64 2 12000 1 0 0 0 = -14
call 414 12000 1 14000 0 0 0 = -14
call 407 1 0 12000 0 0 0 = -14
call 198 2 2 0 0 0 0 = 3
call 207 3 14000 9 0 14000 12000 = -14
call 204 3 14000 12000 0 0 0 = -14
call 198 2 1 0 0 0 0 = 4
waits = -
# A poll that waits writes nothing, and looks at its entries again.
put 1 0 0 0 1 0 9 9 = put
call 414 14000 1 0 0 0 0 = waits
told = 1 0 9 9
put 1 0 0 0 4 0 9 9 = put
waits = true
call 414 14000 1 0 0 0 0 = 1
waits = -
# A sleep until 2^63 - 1 s that is made again when its time is none is refused, and kept no longer.
put ff ff ff ff ff ff ff 7f 0 0 0 0 0 0 0 0 = put
call 407 0 1 14000 0 0 0 = waits
put ff ff ff ff ff ff ff 7f 0 0 0 0 1 0 0 0 = put
waits = true
call 407 0 1 14000 0 0 0 = -22
waits = -
# A connect to 127.0.0.1, port 7000, that is made again doesn't look at its address, which is one of another family by then.
put 2 0 1b 58 7f 0 0 1 0 0 0 0 0 0 0 0 = put
call 203 4 14000 10 0 0 0 = waits
put a = put
waits = false
call 203 4 14000 10 0 0 0 = waits
# All descriptors are closed, and nothing waits.
closes = closed
waits = -
call 25 0 1 0 0 0 0 = -9
put 1 0 0 0 1 0 9 9 = put
call 414 14000 1 0 0 0 0 = 1
told = 1 0 20 0
";

/// A host with one process.
#[derive(Drop)]
struct Stage {
    parts: Parts,
    known: Known,
}

impl Stage {
    fn new(alloc: Global) -> Result<Stage, Fail> {
        let own = Ip { bits: 0x0B00_0001 };
        let mut hosts = Vec::new(alloc);
        hosts.push(own)?;
        let known = Known {
            book: Book::new(alloc, hosts)?,
            hosts: Bytes::from_slice(alloc, b"")?,
        };
        let mut parts = Parts::new(alloc, own, Draws::for_host(1, 0), 1)?;
        if parts.tasks.len() == 1 {
            start_task(&mut parts, 0, memory(alloc)?)?;
        }
        Ok(Stage { parts, known })
    }

    fn memory(&mut self) -> Option<&mut Mem> {
        match self.parts.tasks.first_mut() {
            Some(Some(task)) => Some(&mut task.memory),
            _ => None,
        }
    }

    /// Puts bytes into memory, from OPEN on.
    fn put(&mut self, bytes: &[u8]) -> &'static str {
        let done = self
            .memory()
            .is_some_and(|memory| memory.copy_in(OPEN, bytes).is_ok());
        if done { "put" } else { "nothing" }
    }

    /// The second half of the entry of a poll that stands at OPEN: what is asked for, and what is told.
    fn told(&mut self) -> Option<[u8; 4]> {
        self.memory().and_then(|memory| four(memory, OPEN + 4))
    }

    /// Whether the call that waits would answer.
    fn waits(&self) -> &'static str {
        let Some(Some(task)) = self.parts.tasks.first() else {
            return "no process";
        };
        let Some(why) = task.kept else {
            return "-";
        };
        if answers_now(&self.parts, &self.known, Time { nanos: 0 }, 0, &why) {
            "true"
        } else {
            "false"
        }
    }

    /// The answer to a call, as a signed number; none where it waits.
    fn call(&mut self, number: u32, args: [u32; 6]) -> Result<Option<i32>, Fail> {
        if self.parts.tasks.is_empty() {
            return Ok(None);
        }
        let answer = do_call(
            &mut self.parts,
            &self.known,
            Time { nanos: 0 },
            0,
            number,
            args,
        )?;
        match answer {
            Answer::Value(value) => Ok(Some(value.cast_signed())),
            _ => Ok(None),
        }
    }

    /// Closes all descriptors.
    fn close(&mut self) -> Result<&'static str, Fail> {
        if self.parts.tasks.is_empty() {
            return Ok("no process");
        }
        close_all(&mut self.parts, Time { nanos: 0 }, 0)?;
        Ok("closed")
    }
}

/// The arguments of a call, in hexadecimal.
fn arguments(alloc: Global, words: &str) -> Result<Vec<u32>, Fail> {
    let mut arguments = Vec::new(alloc);
    for word in words.split_whitespace() {
        arguments.push(u32::from_str_radix(word, 16)?)?;
    }
    Ok(arguments)
}

/// Bytes in hexadecimal.
fn bytes_of(alloc: Global, words: &str) -> Result<Vec<u8>, Fail> {
    let mut bytes = Vec::new(alloc);
    for word in words.split_whitespace() {
        bytes.push(u8::from_str_radix(word, 16)?)?;
    }
    Ok(bytes)
}

/// The answer to the call of a row, where none is kept then, or `waits`.
fn called(alloc: Global, stage: &mut Stage, row: &str) -> Result<String, Fail> {
    let Some((number, words)) = row.split_once(' ') else {
        return Err(Fail::new("a call has arguments"));
    };
    let arguments = arguments(alloc, words)?;
    let &[a, b, c, d, e, f] = arguments.as_slice() else {
        return Err(Fail::new("a call has six arguments"));
    };
    let answer = stage.call(number.parse::<u32>()?, [a, b, c, d, e, f])?;
    let kept = stage.waits() != "-";
    let shown = match answer {
        Some(value) if !kept => format!(in alloc; "{value}")?,
        None if kept => String::from_str(alloc, "waits")?,
        _ => String::from_str(alloc, "neither")?,
    };
    Ok(shown)
}

/// What an act gives.
fn given(alloc: Global, stage: &mut Stage, act: &str) -> Result<String, Fail> {
    if let Some(row) = act.strip_prefix("call ") {
        return called(alloc, stage, row);
    }
    if let Some(words) = act.strip_prefix("put ") {
        let bytes = bytes_of(alloc, words)?;
        return Ok(String::from_str(alloc, stage.put(bytes.as_slice()))?);
    }
    if act == "told" {
        let [a, b, c, d] = stage.told().unwrap_or([0; 4]);
        return Ok(format!(in alloc; "{a:x} {b:x} {c:x} {d:x}")?);
    }
    let shown = if act == "waits" {
        stage.waits()
    } else {
        stage.close()?
    };
    Ok(String::from_str(alloc, shown)?)
}

#[test]
fn a_call_that_waits_is_made_again(rt: HostRuntime) -> Result<(), Fail> {
    let mut stage = Stage::new(rt.alloc())?;
    for row in ACTS.lines() {
        if let Some((act, wanted)) = row.split_once(" = ") {
            let shown = given(rt.alloc(), &mut stage, act)?;
            assert_eq!(rt; shown.as_str(), wanted, "{row}");
        }
    }
    Ok(())
}
