//! Workers side by side: one is held while the other takes all hosts but one from it.

use crate::inputs::{source, text, words};
use memory_outside::MemSink;
use shadow_top::{Gate, OpenGate, shadow};
use std::alloc::Global;
use std::sync::atomic::{AtomicU64, Ordering};
use std::test::Fail;
use std::thread;
use std::thread::Threads;

/// Hosts on one node, 10 ms apart, up to the first of them.
const TEXT: &str = r#"general:
  stop_time: 1s
network:
  graph:
    type: gml
    inline: |
      graph [
        node [ id 0 host_bandwidth_up "1 Gbit" host_bandwidth_down "1 Gbit" ]
        edge [ source 0 target 0 latency "10 ms" ]
      ]
hosts:
  h01: &h
    network_node_id: 0
    processes:
    - path: sender
"#;

/// A configuration of so many hosts, each of which sends the first one a packet at 0.
fn config(alloc: Global, hosts: u64) -> Result<String, Fail> {
    let mut text = String::from_str(alloc, TEXT)?;
    for other in 1..hosts {
        let number = other.wrapping_add(1);
        write!(text, "  h{number:02}: *h\n")?;
    }
    Ok(text)
}

/// Holds the host that comes first until all have come, for 100,000,000 turns at most, and counts those that the first
/// worker took.
#[derive(Clone, Copy)]
struct Hold<'a> {
    come: &'a AtomicU64,
    met: &'a AtomicU64,
    took: &'a AtomicU64,
    all: u64,
}

impl Gate for Hold<'_> {
    fn at_host(&self, worker: u32, _host: u32) {
        let before = self.come.fetch_add(1, Ordering::SeqCst);
        if worker == 0 && before < self.all {
            self.took.fetch_add(1, Ordering::SeqCst);
        }
        if before > 0 {
            return;
        }
        for _ in 0..100_000_000u32 {
            if self.come.load(Ordering::SeqCst) == self.all {
                self.met.store(1, Ordering::SeqCst);
                return;
            }
            thread::yield_now();
        }
    }
}

/// The log: all send at 0, the first host's packet to itself comes after 1 ns, and the others' after 10 ms, in the order
/// of the hosts.
fn log(alloc: Global, hosts: u64) -> Result<String, Fail> {
    let mut log = String::new(alloc);
    for other in 0..hosts {
        let number = other.wrapping_add(1);
        write!(
            log,
            "0 h{number:02} send udp 11.0.0.{number}:10000 11.0.0.1:7000 32\n"
        )?;
    }
    log.push_str("1 h01 noport udp 11.0.0.1:10000 11.0.0.1:7000 32\n")?;
    for other in 1..hosts {
        let number = other.wrapping_add(1);
        write!(
            log,
            "10000000 h01 noport udp 11.0.0.{number}:10000 11.0.0.1:7000 32\n"
        )?;
    }
    Ok(log)
}

/// Whether each of so many hosts wrote to its standard output.
fn all_wrote(alloc: Global, sink: &MemSink, hosts: u64) -> Result<bool, Fail> {
    for other in 0..hosts {
        let number = other.wrapping_add(1);
        let file = format!(in alloc; "hosts/h{number:02}/sender.1000.stdout")?;
        if text(sink, file.as_str()) != "\x7fELF" {
            return Ok(false);
        }
    }
    Ok(true)
}

/// Whether that is there which the run of so many hosts shows.
fn is_shown(alloc: Global, sink: &MemSink, hosts: u64) -> Result<bool, Fail> {
    let log = log(alloc, hosts)?;
    let is_log = text(sink, "packets.log") == log.as_str();
    let files = hosts.wrapping_mul(3).wrapping_add(1);
    let is_rest = sink.file_count() as u64 == files && sink.err().is_empty();
    Ok(all_wrote(alloc, sink, hosts)? && is_log && is_rest)
}

/// Whether the run of so many hosts by so many workers shows what it has to.
fn shows<R: Threads + Sync + AllocGlobal, G: Gate + Sync>(
    rt: &R,
    hosts: u64,
    workers: u32,
    gate: &G,
) -> Result<bool, Fail> {
    let alloc = rt.alloc();
    let words = words(alloc)?;
    let config = config(alloc, hosts)?;
    let mut source = source(alloc, config.as_str())?;
    let mut sink = MemSink::new(alloc);
    let status = shadow(rt, &words, workers, &mut source, &mut sink, gate);
    Ok(is_shown(alloc, &sink, hosts)? && status == 0)
}

/// The same by two workers, of which one is held: whether all hosts came meanwhile, and how many the first worker took.
fn shows_held<R: Threads + Sync + AllocGlobal>(
    rt: &R,
    hosts: u64,
) -> Result<(bool, bool, u64), Fail> {
    let come = AtomicU64::new(0);
    let met = AtomicU64::new(0);
    let took = AtomicU64::new(0);
    let gate = Hold {
        come: &come,
        met: &met,
        took: &took,
        all: hosts,
    };
    let shown = shows(rt, hosts, 2, &gate)?;
    let have_met = met.load(Ordering::SeqCst) == 1;
    Ok((shown, have_met, took.load(Ordering::SeqCst)))
}

/// Two hosts: workers overlap. Eight: the held one is stolen from. Eighteen: more packets come to a host in a round
/// than its inbox has places. What is shown is that of one worker.
#[test]
fn two_workers_run_side_by_side_and_steal(rt: HostRuntime) -> Result<(), Fail> {
    for all in [2, 8, 18] {
        assert!(rt; shows(&rt, all, 1, &OpenGate)?, "{all} hosts, one worker");
        let held = shows_held(&rt, all)?;
        let most = all.wrapping_sub(1);
        assert!(rt;
            held == (true, true, 1) || held == (true, true, most),
            "{all} hosts"
        );
    }
    Ok(())
}
