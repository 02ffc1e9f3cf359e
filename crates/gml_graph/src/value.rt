//! Values of attributes.

ghost use Rattle.std.specs.Prelude.{◌≡◌};
ghost use Rattle.gml_graph.specs.Graph.{valued, once, needed, within, number_of, id_of, truth_of, bandwidth_of, time_of, latency_at, loss_of, list_at};

use crate::fault::{GmlFault, GmlKind};
use crate::outline::Value;
use sim_base::Time;

/// The greatest latency: an hour.
const GREATEST_LATENCY: u64 = 3_600_000_000_000;

fn bad_value(line: u64) -> GmlFault
    ensures { result ≡ record { line = line; kind = GmlKind.BadValue } }
{
    GmlFault {
        line,
        kind: GmlKind::BadValue,
    }
}

/// An attribute that was given before is given twice.
pub fn check_once(given: bool, line: u64) -> Result<(), GmlFault>
    ensures { result ≡ once given line }
{
    if given {
        return Err(GmlFault {
            line,
            kind: GmlKind::Duplicate,
        });
    }
    Ok(())
}

/// There is room for one more.
pub fn check_room(most: usize, count: usize, line: u64) -> Result<(), GmlFault>
    ensures { result ≡ within most count line }
{
    if count >= most {
        return Err(GmlFault {
            line,
            kind: GmlKind::TooMany,
        });
    }
    Ok(())
}

fn missing(line: u64) -> GmlFault
    ensures { result ≡ record { line = line; kind = GmlKind.Missing } }
{
    GmlFault {
        line,
        kind: GmlKind::Missing,
    }
}

/// An id that has to be given.
pub fn required(id: Option<u32>, line: u64) -> Result<u32, GmlFault>
    ensures { result ≡ needed id line }
{
    match id {
        Some(id) => Ok(id),
        None => Err(missing(line)),
    }
}

/// A latency that has to be given.
pub fn required_time(time: Option<Time>, line: u64) -> Result<Time, GmlFault>
    ensures { result ≡ needed time line }
{
    match time {
        Some(time) => Ok(time),
        None => Err(missing(line)),
    }
}

/// A block has to be a list.
pub fn check_list(value: Value, line: u64) -> Result<(), GmlFault>
    ensures { result ≡ list_at value line }
{
    match value {
        Value::List => Ok(()),
        Value::Number(_) | Value::Text(_) => Err(bad_value(line)),
    }
}

/// A whole number that isn't below 0.
fn natural_number(value: Value) -> Option<u128>
    ensures { result ≡ number_of value }
{
    match value {
        Value::Number(number) => number.natural(),
        Value::Text(_) | Value::List => None,
    }
}

/// 0 or 1.
pub fn truth(value: Value, line: u64) -> Result<bool, GmlFault>
    ensures { result ≡ valued (truth_of value) line }
{
    match natural_number(value) {
        Some(0) => Ok(false),
        Some(1) => Ok(true),
        _ => Err(bad_value(line)),
    }
}

/// A node's id.
pub fn id(value: Value, line: u64) -> Result<u32, GmlFault>
    ensures { result ≡ valued (id_of value) line }
{
    match natural_number(value) {
        Some(number) if number <= 0xffff_ffff => Ok(number as u32),
        _ => Err(bad_value(line)),
    }
}

/// Bits a second, at least 1.
pub fn bandwidth(value: Value, line: u64) -> Result<u64, GmlFault>
    ensures { result ≡ valued (bandwidth_of value) line }
{
    match value {
        Value::Text(text) => match text.rate {
            Some(rate) if rate > 0 => Ok(rate),
            _ => Err(bad_value(line)),
        },
        Value::Number(_) | Value::List => Err(bad_value(line)),
    }
}

/// A span of time.
pub fn time(value: Value, line: u64) -> Result<Time, GmlFault>
    ensures { result ≡ valued (time_of value) line }
{
    match value {
        Value::Text(text) => match text.time {
            Some(time) => Ok(time),
            None => Err(bad_value(line)),
        },
        Value::Number(_) | Value::List => Err(bad_value(line)),
    }
}

/// From 1 ns to 1 h.
pub fn latency(time: Time, line: u64) -> Result<Time, GmlFault>
    ensures { result ≡ latency_at time line }
{
    if time.nanos == 0 {
        return Err(GmlFault {
            line,
            kind: GmlKind::ZeroLatency,
        });
    }
    if time.nanos > GREATEST_LATENCY {
        return Err(bad_value(line));
    }
    Ok(time)
}

/// Units of 10^-9 that are lost, rounded down.
pub fn loss(value: Value, line: u64) -> Result<u32, GmlFault>
    ensures { result ≡ loss_of value line }
{
    match value {
        Value::Number(number) => match number.units() {
            Some(units) => Ok(units),
            None => Err(GmlFault {
                line,
                kind: GmlKind::Loss,
            }),
        },
        Value::Text(_) | Value::List => Err(bad_value(line)),
    }
}
