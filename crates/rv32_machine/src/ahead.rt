//! Instructions that neither call nor trap, run one after another over the bytes of one page of code.

ghost use Rattle.std.specs.Bool.{OnTrue, OnFalse};
ghost use Rattle.std.specs.Prelude.{◌≡◌, ◌+◌, ◌-◌, ◌*◌, ◌^◌, ◌<◌, ◌≤◌, ℕ, List, Some, IfSome, length};
ghost use Rattle.guest_mem.specs.Memory.{Memory, IsCode, load};
ghost use Rattle.guest_mem.specs.declared.right.Right.TheVariants as right;
ghost use Rattle.rv32_machine.specs.Encoding.{decoded};
ghost use Rattle.rv32_machine.specs.Table.{after, executed, state};
ghost use Rattle.rv32_machine.specs.Turn.{turn, ran_before};
ghost use Rattle.rv32_machine.specs.declared.outcome.Outcome.TheVariants as outcome;
ghost use Rattle.elf_load.specs.Room.{page_size, instruction_size};

use crate::cpu::Cpu;
use crate::execution::run_store;
use crate::quiet::run_quiet;
use crate::steps::Steps;
use guest_mem::{FetchHint, Mem, word_in};
use std::sync::ledger::Ledger;

const PAGE_SIZE: u32 = 4096;

/// How many instructions ran, and the word of the next one where it was fetched.
#[derive(Clone, Copy)]
pub(crate) struct Ahead {
    pub ran: u64,
    pub next: Option<u32>,
}

/// Runs at most `most` instructions, as long as they stand in the page of the first, which may not be written, and neither call nor
/// trap.
pub(crate) fn run_ahead<L: Ledger>(
    cpu: &mut Cpu,
    mem: &mut Mem,
    hint: &mut FetchHint,
    most: u64,
    steps: &mut Steps<L>,
) -> Ahead
    ensures within { result.ran ≤ most }
    ensures counted { steps.new ≡ steps.old + result.ran }
    ensures same { turn most (state cpu.old mem.old) ≡ ran_before result.ran (turn (most - result.ran) (state cpu.new mem.new)) }
    ensures next { IfSome result.next (λ word. load right.Execute instruction_size mem.new cpu.new.pc ≡ Some word) }
{
    let number = cpu.pc / PAGE_SIZE;
    match mem.code_page(number, hint) {
        Some(page) => run_page(cpu, mem, page.bytes(), number, most, steps),
        None => Ahead { ran: 0, next: None },
    }
}

/// The same, in a page with these bytes, which may not be written.
// A function of its own, so that the loop has the processor's registers for itself.
#[inline(never)]
fn run_page<L: Ledger>(
    cpu: &mut Cpu,
    mem: &mut Mem,
    page: &[u8],
    number: u32,
    most: u64,
    steps: &mut Steps<L>,
) -> Ahead
    requires in_range { number < 2 ^ 20 }
    requires code { IsCode mem.old.cells number page.now }
    ensures within { result.ran ≤ most }
    ensures counted { steps.new ≡ steps.old + result.ran }
    ensures same { turn most (state cpu.old mem.old) ≡ ran_before result.ran (turn (most - result.ran) (state cpu.new mem.new)) }
    ensures next { IfSome result.next (λ word. load right.Execute instruction_size mem.new cpu.new.pc ≡ Some word) }
{
    for ran in 0..most {
        let Some(word) = word_at(page, number, cpu.pc) else {
            return Ahead { ran, next: None };
        };
        if !run_one(word, cpu, mem) {
            return Ahead {
                ran,
                next: Some(word),
            };
        }
        steps.tick();
    }
    Ahead {
        ran: most,
        next: None,
    }
}

/// Runs the instruction that the word is, where it neither calls nor traps and is none of the few that are seldom met. It answers whether
/// it ran; where it didn't, nothing changes. Pages that may not be written stay.
#[inline(always)]
fn run_one(word: u32, cpu: &mut Cpu, mem: &mut Mem) -> bool
    ensures ran { OnTrue result (executed (decoded word) word (state cpu.old mem.old) ≡ after cpu.new mem.new outcome.Next) }
    ensures unchanged { OnFalse result ((cpu.new ≡ cpu.old) × (mem.new ≡ mem.old)) }
    ensures code { (number : ℕ) (bytes : List ℕ) → IsCode mem.old.cells number bytes → IsCode mem.new.cells number bytes }
{
    run_quiet(word, cpu, mem) || run_store(word, cpu, mem)
}

/// The word at an address, if it lies in the page with this number and these bytes.
#[inline(always)]
fn word_at(page: &[u8], number: u32, at: u32) -> Option<u32>
    requires whole { length page.now ≡ page_size }
    requires in_range { number < 2 ^ 20 }
    ensures { (m : Memory) → IsCode m.cells number page.now → IfSome result (λ word. load right.Execute instruction_size m at ≡ Some word) }
{
    match offset_in(number, at) {
        Some(offset) => Some(word_in(page, offset)),
        None => None,
    }
}

/// Where a word at an address stands in the page with this number, if it lies there.
#[inline(always)]
fn offset_in(number: u32, at: u32) -> Option<usize>
    requires { number < 2 ^ 20 }
    ensures there { IfSome result (λ offset. at ≡ page_size * number + offset) }
    ensures whole { IfSome result (λ offset. offset + instruction_size ≤ page_size) }
{
    let offset = at.wrapping_sub(PAGE_SIZE * number);
    if offset <= PAGE_SIZE - 4 {
        Some(offset as usize)
    } else {
        None
    }
}
