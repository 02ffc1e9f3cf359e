//! Listeners: what segments and calls do to one on port 10000, and what answers a segment of no
//! connection. Its first numbers are those that the host draws.

mod listening;

use crate::segments::{Line, end, name, segment, told};
use host_draws::Draws;
use listening::LISTENING;
use sock_tcp::{Effects, Listener, refusal};
use std::alloc::Global;
use std::test::Fail;

/// What happens to a listener.
#[derive(Clone, Copy)]
pub enum Act {
    /// A new one, whose queue holds so many.
    Begins(i32),
    /// Its queue holds so many from now on.
    Holds(i32),
    /// A segment from a port.
    Comes(u16, Line),
    /// The timer of the connection with a port.
    Expires(u16),
    Closes,
    /// A segment of no connection.
    Meets(Line),
    /// Whether the connection with a port is kept.
    Keeps(u16),
    /// The port and the state of the connection that is accepted.
    Accepts,
}

/// An act, and what is told of it: its segments, the seconds of the timer that it starts, and how
/// many connections wait to be accepted then.
pub struct Row(pub Act, pub &'static str);

/// What answers a segment of no connection.
fn met(alloc: Global, line: Line) -> Result<Effects, Fail> {
    let mut effects = Effects::none(alloc);
    if let Some(answer) = refusal(alloc, &segment(alloc, 80, line)?) {
        effects.segments.push(answer)?;
    }
    Ok(effects)
}

fn done(
    alloc: Global,
    listener: &mut Listener,
    draws: &mut Draws,
    act: Act,
) -> Result<Effects, Fail> {
    let mut gone = Vec::new(alloc);
    let effects = match act {
        Act::Begins(backlog) => {
            *listener = Listener::new(alloc, end(0, 10_000), backlog);
            *draws = Draws::for_host(1, 0);
            Effects::none(alloc)
        }
        Act::Holds(backlog) => {
            listener.set_backlog(backlog);
            Effects::none(alloc)
        }
        Act::Comes(port, line) => {
            listener.arrive(&segment(alloc, port, line)?, draws, &mut gone)?
        },
        Act::Expires(port) => listener.timer(end(1, 10_000), end(2, port), &mut gone)?,
        Act::Closes => listener.close(&mut gone)?,
        Act::Meets(line) => met(alloc, line)?,
        Act::Keeps(_) | Act::Accepts => Effects::none(alloc),
    };
    Ok(effects)
}

/// What is told of an act.
fn shown(
    alloc: Global,
    listener: &mut Listener,
    draws: &mut Draws,
    act: Act,
) -> Result<String, Fail> {
    match act {
        Act::Keeps(port) => {
            let kept = listener.is_kept(end(1, 10_000), end(2, port));
            Ok(format!(in alloc; "{kept}")?)
        }
        Act::Accepts => match listener.accept() {
            Some(conn) => {
                let control = conn.control();
                Ok(format!(in alloc; "{} {}", control.peer.port, name(control.state))?)
            }
            None => Ok(format!(in alloc; "none")?),
        },
        _ => {
            let effects = done(alloc, listener, draws, act)?;
            let mut out = told(alloc, &effects)?;
            write!(out, " {}", listener.waiting())?;
            Ok(out)
        }
    }
}

#[test]
fn acts_on_listeners(rt: HostRuntime) -> Result<(), Fail> {
    let alloc = rt.alloc();
    let mut listener = Listener::new(alloc, end(0, 10_000), 1);
    let mut draws = Draws::for_host(1, 0);
    for (number, row) in LISTENING.iter().enumerate() {
        let found = shown(alloc, &mut listener, &mut draws, row.0)?;
        assert_eq!(rt; found.as_str(), row.1, "row {number}");
    }
    Ok(())
}
