//! The text of the packet log. That of many lines is made by several threads side by side.

ghost use Rattle.std.specs.Prelude.{◌≡◌, ◌<◌, ◌++◌, IfOk, OnOk, map, flat_map, slice_get};
ghost use Rattle.out_text.specs.Log.{log_line};
ghost use Rattle.host_link.specs.Logs.{kept_lines};
ghost use Rattle.run_files.specs.Grown as spec;
ghost use Rattle.run_files.specs.Listed.{said};
ghost use Rattle.run_files.specs.inside.Shares.{AreJoined, lines_in};

use crate::listed::HostListing;
use base_texts::Text;
use host_link::{Line, Logged};
use out_text::log_line;
use sim_base::NoMemory;
use std::alloc::Global;
use std::mem;
use std::thread::{Threads, map_vec};

/// How many lines are worth a thread of their own: their text takes about ten times as long as a start and an end of one.
const THREAD_LINES: usize = 256;

/// The name of the host with a number.
fn host_name(hosts: &[HostListing], number: u32) -> &str
    ensures { result.now ≡ spec.listed_name (slice_get (map said hosts.now) number) }
{
    match hosts.get(number as usize) {
        Some(host) => host.name.as_str(),
        None => "",
    }
}

/// Adds a line with the name of its host.
fn push_line(text: &mut Text, hosts: &[HostListing], line: &Line) -> Result<(), NoMemory>
    ensures { OnOk result (text.new ≡ text.old ++ log_line (spec.told_line (map said hosts.now) line.now)) }
{
    log_line(
        text,
        line.time,
        host_name(hosts, line.host.index),
        line.act,
        &line.packet,
    )
}

/// Room for so many bytes is taken for each line, which few of them need more than.
const LINE_ROOM: usize = 80;

/// The text of lines.
fn lines_text(alloc: Global, hosts: &[HostListing], lines: Vec<Logged>) -> Result<Text, NoMemory>
    ensures { IfOk result (λ text. text ≡ flat_map log_line (map (spec.told_line (map said hosts.now)) (kept_lines lines.items))) }
{
    let mut text = Text::from(String::with_capacity(alloc, lines.len().saturating_mul(LINE_ROOM))?);
    for line in lines {
        push_line(&mut text, hosts, &line.line)?;
    }
    Ok(text)
}

/// Lines in about so many shares, one behind another.
fn shares_of(alloc: Global, lines: Vec<Logged>, count: usize) -> Result<Vec<Vec<Logged>>, NoMemory>
    requires { 0 < count }
    ensures { IfOk result (λ shares. lines_in shares.items ≡ lines.items) }
{
    let size = lines.len().div_ceil(count).max(1);
    let mut shares = Vec::new(alloc);
    let mut rest = lines;
    while size < rest.len() {
        let behind = rest.split_off(size)?;
        shares.push(mem::replace(&mut rest, behind))?;
    }
    shares.push(rest)?;
    Ok(shares)
}

/// Texts one behind another, where there was memory for each.
fn joined(alloc: Global, texts: Vec<Result<Text, NoMemory>>) -> Result<Text, NoMemory>
    ensures { IfOk result (AreJoined texts.items) }
{
    let mut all = Text::new(alloc);
    for text in texts {
        let text = text?;
        all.push_str(text.as_str())?;
    }
    Ok(all)
}

/// The text of lines, in shares, each by a thread.
fn shared_text<R: Threads + Sync>(
    rt: &R,
    alloc: Global,
    hosts: &[HostListing],
    shares: Vec<Vec<Logged>>,
) -> Result<Text, NoMemory>
    ensures { IfOk result (λ text. text ≡ flat_map log_line (map (spec.told_line (map said hosts.now)) (kept_lines (lines_in shares.items)))) }
{
    let texts = map_vec(
        rt,
        shares,
        &|lines: Vec<Logged>| -> Result<Text, NoMemory>
            ensures { IfOk result (λ text. text ≡ flat_map log_line (map (spec.told_line (map said hosts.entry.now)) (kept_lines lines.items))) }
        { lines_text(alloc, hosts, lines) },
    )?;
    joined(alloc, texts)
}

/// The text of lines, by at most so many threads, and by one where they are few.
pub(crate) fn log_text<R: Threads + Sync>(
    rt: &R,
    alloc: Global,
    hosts: &[HostListing],
    lines: Vec<Logged>,
    threads: usize,
) -> Result<Text, NoMemory>
    ensures { IfOk result (λ text. text ≡ flat_map log_line (map (spec.told_line (map said hosts.now)) (kept_lines lines.items))) }
{
    let count = threads.min(lines.len() / THREAD_LINES);
    if count < 2 {
        return lines_text(alloc, hosts, lines);
    }
    let shares = shares_of(alloc, lines, count)?;
    shared_text(rt, alloc, hosts, shares)
}
