//! What a machine and a guest's memory keep where a process would have ended.

ghost use Rattle.std.specs.Prelude.{◌≡◌, ◌<◌};

use crate::rows::parted;
use elf_load::{ProgramHeader, executable, load};
use guest_mem::{FetchHint, Mem};
use rv32_machine::{Cpu, Steps, TurnEnd, turn};
use std::alloc::{AllocError, Global};
use std::marker::Brand;
use std::sync::ledger::{Blank, Ledger};
use std::test::Fail;

/// Rights of two pages at 0x10000 (PF_X 1, PF_W 2, PF_R 4), the budget, register 10 at first, and the first eight words;
/// then how the turn ends, and the program counter, register 10 and the reservation. Register 13 is 9. All numbers but
/// the budget are hexadecimal.
const TURNS: &str = "
# the last instruction of the budget is the call, behind a loop of three turns
7 10 0 000002b7 00300293 fff28293 fe029ee3 00700513 00000073 0 0 = call 10018 7 -
# it would be the next one
7 9 0 000002b7 00300293 fff28293 fe029ee3 00700513 00000073 0 0 = spent 10014 7 -
# no budget
7 0 5 000002b7 00300293 fff28293 fe029ee3 00700513 00000073 0 0 = spent 10000 5 -
# JALR to a multiple of 2
7 100 0 00200067 0 0 0 0 0 0 0 = SIGBUS 10000 0 -
# no instruction
7 100 0 0 0 0 0 0 0 0 0 = SIGILL 10000 0 -
# EBREAK
7 100 0 00100073 0 0 0 0 0 0 0 = SIGTRAP 10000 0 -
# LW at 0
7 100 0 00002503 0 0 0 0 0 0 0 = SIGSEGV 10000 0 -
# JALR to 0, where nothing can be executed
7 100 0 00000067 0 0 0 0 0 0 0 = SIGSEGV 0 0 -
# LR.W a1, (a0), a store to the word by SW a3, 0(a0), and EBREAK: the reservation stands
7 100 1001c 100525af 00d52023 00100073 0 0 0 0 5 = SIGTRAP 10008 1001c 1001c
# LR.W, and SC.W a2, a3, (a0) where nothing may be written: it stands after the trap
5 100 1001c 100525af 18d5262f 0 0 0 0 0 5 = SIGSEGV 10004 1001c 1001c
";

/// An executable of these two segments (address, size in memory, rights), whose entry is 0x10000: the first, which
/// begins there, has the words.
fn file(alloc: Global, segments: [[u32; 3]; 2], words: &[u32]) -> Result<Vec<u8>, AllocError> {
    let mut code = Vec::new(alloc);
    for word in words {
        code.extend_from_slice(&word.to_le_bytes())?;
    }
    let headers = segments.map(|[address, memory_size, flags]| ProgramHeader {
        kind: ProgramHeader::LOAD,
        offset: 116,
        address,
        file_size: if address == 0x10000 { 32 } else { 0 },
        memory_size,
        flags,
    });
    executable(alloc, 0x10000, &headers, &code)
}

fn memory(alloc: Global, bytes: &[u8]) -> Result<Mem, Fail> {
    let image = load(alloc, bytes)?;
    Ok(Mem::from_image(alloc, &image)?)
}

fn counted<L: Ledger>(cpu: &mut Cpu, mem: &mut Mem, budget: u64, blank: Blank) -> TurnEnd
    requires name { blank.name ≡ L.name }
    requires parts { blank.parts ≡ L.parts }
    requires some { 0 < L.parts }
{
    let mut steps: Steps<L> = Steps::new(blank);
    turn(cpu, mem, budget, &mut steps)
}

fn ran(cpu: &mut Cpu, mem: &mut Mem, budget: u64) -> TurnEnd {
    counted::<Brand>(cpu, mem, budget, Blank::new(1))
}

fn start(x10: u32) -> Cpu {
    let mut x = [0; 32];
    x[10] = x10;
    x[13] = 9;
    Cpu {
        pc: 0x10000,
        x,
        reservation: None,
    }
}

fn hexadecimal(word: &str) -> Result<u32, Fail> {
    Ok(u32::from_str_radix(word, 16)?)
}

/// The name of an end; that of its signal, where the turn traps.
fn name(end: TurnEnd) -> &'static str {
    match end {
        TurnEnd::Call => "call",
        TurnEnd::Spent => "spent",
        TurnEnd::Trap(signal) => signal.name(),
    }
}

/// Two pages of these rights, of which the first begins with these words.
fn pages(alloc: Global, rights: &str, words: &str) -> Result<Mem, Fail> {
    let rights = hexadecimal(rights)?;
    let mut code = Vec::new(alloc);
    for word in words.split_whitespace() {
        code.push(hexadecimal(word)?)?;
    }
    let segments = [[0x10000, 0x1000, rights], [0x11000, 0x1000, rights]];
    let bytes = file(alloc, segments, code.as_slice())?;
    memory(alloc, &bytes)
}

/// How a turn ended.
fn shown(alloc: Global, end: TurnEnd, cpu: &Cpu) -> Result<String, AllocError> {
    let (end, pc, x10) = (name(end), cpu.pc, cpu.x[10]);
    match cpu.reservation {
        Some(place) => format!(in alloc; "{end} {pc:x} {x10:x} {place:x}"),
        None => format!(in alloc; "{end} {pc:x} {x10:x} -"),
    }
}

/// How the turn of a row ends.
fn ended(alloc: Global, row: &str) -> Result<String, Fail> {
    let (rights, row) = parted(row, ' ')?;
    let (budget, row) = parted(row, ' ')?;
    let (x10, words) = parted(row, ' ')?;
    let mut cpu = start(hexadecimal(x10)?);
    let budget = budget.parse::<u64>()?;
    let mut mem = pages(alloc, rights, words)?;
    let end = ran(&mut cpu, &mut mem, budget);
    Ok(shown(alloc, end, &cpu)?)
}

#[test]
fn turns_end_as_the_rows_say(rt: HostRuntime) -> Result<(), Fail> {
    for case in TURNS.trim().split('#').skip(1) {
        let (title, row) = parted(case, '\n')?;
        let (given, wanted) = parted(row, '=')?;
        let shown = ended(rt.alloc(), given)?;
        assert_eq!(rt; shown.as_str(), wanted.trim(), "{title}");
    }
    Ok(())
}

/// Two pages, of which the second may not be executed, and none behind them.
#[test]
fn memory_stays_where_a_call_fails(rt: HostRuntime) -> Result<(), Fail> {
    let segments = [[0x10000, 0x1000, 7], [0x11000, 0x234, 6]];
    let bytes = file(rt.alloc(), segments, &[0; 8])?;
    let mut mem = memory(rt.alloc(), &bytes)?;
    let mut hint = FetchHint::new();
    let mut into = *b".....";
    let done = [
        mem.fetch(0x10FFC, &mut hint).is_ok(),
        mem.fetch(0x10FFE, &mut hint).is_ok(),
        mem.store16(0x11FFE, 0x0706).is_ok(),
        mem.store32(0x11FFE, 0x1234_5678).is_ok(),
        mem.store16(0x11FFF, 0x1234).is_ok(),
        mem.copy_out(0x11FFC, &mut into).is_ok(),
    ];
    assert_eq!(rt; done, [true, false, true, false, false, false]);
    assert_eq!(rt; (mem.load16(0x11FFE).ok(), into), (Some(0x0706), *b"....."));
    Ok(())
}
