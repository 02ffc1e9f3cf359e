//! Connections: what segments, a process and the timer do to them. The own numbers begin at 100 and
//! the peer's at 300, except where a row says otherwise.

mod closing;
mod congestion;
mod opening;
mod receiving;

use crate::segments::{Line, end, name, segment, told};
use sim_base::NoMemory;
use sock_tcp::{Conn, Effects, Opened, Shut};
use std::alloc::Global;
use std::test::Fail;

/// What happens to a connection. A write and a read are followed by `flow`.
#[derive(Clone, Copy)]
pub enum Act {
    /// A new connection sends its SYN, with this number.
    Opens(u32),
    /// A new connection, and the answer to its SYN with this window.
    Connects(u16),
    Comes(Line),
    /// So many ACKs, each of 1,460 bytes more.
    Acks(u32),
    Writes(usize),
    Reads(usize),
    Shuts(Shut),
    Closes,
    Expires,
    /// The error is taken, and its number told.
    TakesError,
    /// How many bytes wait, how many there is room for, and whether a read found the end.
    Asks,
}

/// An act, and what is told of it: its segments, the seconds of the timer that it starts, and then
/// the state, the congestion window and the slow start threshold behind it.
pub struct Row(pub Act, pub &'static str);

fn opened(alloc: Global, first: u32) -> Result<Opened, NoMemory> {
    Conn::open(alloc, end(1, 10_000), end(2, 80), first)
}

/// So many ACKs, each of 1,460 bytes more than the last one; the effects of the last one.
fn acknowledged(alloc: Global, conn: &mut Conn, count: u32) -> Result<Effects, Fail> {
    let mut effects = Effects::none(alloc);
    let mut number: u32 = 101;
    for _i in 0..count {
        number = number.wrapping_add(1_460);
        effects = conn.arrive(&segment(alloc, 80, Line(16, 301, number, 65_535, 0))?)?;
    }
    Ok(effects)
}

fn done(alloc: Global, conn: &mut Conn, act: Act) -> Result<Effects, Fail> {
    let effects = match act {
        Act::Opens(first) => {
            let Opened { conn: new, effects } = opened(alloc, first)?;
            *conn = new;
            effects
        }
        Act::Connects(window) => {
            *conn = opened(alloc, 100)?.conn;
            conn.arrive(&segment(alloc, 80, Line(18, 300, 101, window, 0))?)?
        }
        Act::Comes(line) => conn.arrive(&segment(alloc, 80, line)?)?,
        Act::Acks(count) => acknowledged(alloc, conn, count)?,
        Act::Writes(count) => {
            conn.app_write(vec![in alloc; 0u8; count]?.as_slice());
            conn.flow()?
        }
        Act::Reads(count) => {
            conn.app_read(vec![in alloc; 0u8; count]?.as_mut_slice());
            conn.flow()?
        }
        Act::Shuts(how) => conn.app_shut(how)?,
        Act::Closes => conn.app_close()?,
        Act::Expires => conn.timer()?,
        Act::TakesError | Act::Asks => Effects::none(alloc),
    };
    Ok(effects)
}

/// What is told of an act.
fn shown(alloc: Global, conn: &mut Conn, act: Act) -> Result<String, Fail> {
    match act {
        Act::TakesError => match conn.take_error() {
            Some(error) => Ok(format!(in alloc; "{}", error.number())?),
            None => Ok(format!(in alloc; "0")?),
        },
        Act::Asks => {
            let saw_end = conn.control().saw_end;
            Ok(format!(in alloc; "{} {} {saw_end}", conn.unread(), conn.room())?)
        }
        _ => {
            let effects = done(alloc, conn, act)?;
            let mut out = told(alloc, &effects)?;
            let control = conn.control();
            let (cwnd, ssthresh) = (control.congestion.cwnd, control.congestion.ssthresh);
            let state = name(control.state);
            write!(out, " {state} {cwnd} {ssthresh}")?;
            Ok(out)
        }
    }
}

#[test]
fn acts_on_connections(rt: HostRuntime) -> Result<(), Fail> {
    let alloc = rt.alloc();
    for (table, rows) in [
        ("opening", opening::OPENING.as_slice()),
        ("receiving", receiving::RECEIVING.as_slice()),
        ("closing", closing::CLOSING.as_slice()),
        ("congestion", congestion::CONGESTION.as_slice()),
    ] {
        let mut conn = opened(alloc, 100)?.conn;
        for (number, row) in rows.iter().enumerate() {
            let found = shown(alloc, &mut conn, row.0)?;
            assert_eq!(rt; found.as_str(), row.1, "{table}, row {number}");
        }
    }
    Ok(())
}
