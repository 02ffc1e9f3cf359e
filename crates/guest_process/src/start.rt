//! What a process starts with (System V ABI: the process stack).

ghost use Rattle.std.specs.Prelude.{◌≡◌, ◌+◌, ◌-◌, ◌*◌, ◌<◌, ◌≤◌, ◌^◌, ◌++◌, IfOk, OnOk, MatchOption, length};
ghost use Rattle.sim_base.specs.Limits.{most_text_bytes};
ghost use Rattle.guest_mem.specs.Opening.{stack_base, stack_end};
ghost use Rattle.guest_process.specs.Stack.{IsWritable};
ghost use Rattle.guest_process.specs.Start as spec;

use elf_load::{Image, PAGE_SIZE};
use guest_mem::Mem;
use rv32_machine::Cpu;
use sim_base::{Bytes, NoMemory};
use std::alloc::{AllocError, Global};

/// The registers and the memory of a process at its start.
#[derive(Drop)]
pub struct Started {
    pub cpu: Cpu,
    pub memory: Mem,
}

/// Where the stack ends.
const STACK_END: u32 = 0xC000_0000;

/// How many bytes the texts of a process may take, with a zero byte after each.
const MOST_TEXT: usize = 65_536;

/// The entries of the auxiliary vector (elf.h): the size of a page, and its end.
const AT_PAGESZ: u32 = 6;

const AT_NULL: u32 = 0;

/// How many words stand beside the pointers: argc, a 0 behind the pointers to the arguments and one behind those to the
/// environment, and the auxiliary vector.
const FIXED_WORDS: usize = 7;

fn round_down(address: u32) -> u32
    ensures { result ≡ spec.rounded_down address }
{
    address / 16 * 16
}

/// What is left of a room behind texts, if they have room.
fn room_behind(room: usize, texts: &[Bytes]) -> Option<usize>
    ensures { MatchOption result (room < length (spec.texts_bytes texts.now)) (λ left. left + length (spec.texts_bytes texts.now) ≡ room) }
{
    let mut left = room;
    for text in texts {
        let len = text.len() + 1;
        if left < len {
            return None;
        }
        left -= len;
    }
    Some(left)
}

/// Whether the texts of a process are few enough to have room in a stack.
pub fn texts_fit(arguments: &[Bytes], environment: &[Bytes]) -> bool
    ensures { result ≡ spec.texts_fit arguments.now environment.now }
{
    match room_behind(MOST_TEXT, arguments) {
        Some(room) => room_behind(room, environment).is_some(),
        None => false,
    }
}

/// Adds texts, each with a zero byte.
fn add_texts(bytes: &mut Vec<u8>, texts: &[Bytes]) -> Result<(), AllocError>
    ensures { OnOk result (bytes.new.items ≡ bytes.old.items ++ spec.texts_bytes texts.now) }
{
    for text in texts {
        bytes.extend_from_slice(text.as_slice())?;
        bytes.push(0)?;
    }
    Ok(())
}

/// The texts of arguments and environment, each with a zero byte.
fn all_texts(
    alloc: Global,
    arguments: &[Bytes],
    environment: &[Bytes],
) -> Result<Vec<u8>, AllocError>
    ensures { IfOk result (λ bytes. bytes.items ≡ spec.texts_bytes (arguments.now ++ environment.now)) }
{
    let mut bytes = Vec::new(alloc);
    add_texts(&mut bytes, arguments)?;
    add_texts(&mut bytes, environment)?;
    Ok(bytes)
}

/// Adds where each text begins, the first of them at an address, and answers where the last one
/// ends.
fn add_pointers(words: &mut Vec<u32>, at: u32, texts: &[Bytes]) -> Result<u32, AllocError>
    requires { at + length (spec.texts_bytes texts.now) < 2 ^ 32 }
    ensures pointers { OnOk result (words.new.items ≡ words.old.items ++ spec.pointers at texts.now) }
    ensures end { IfOk result (λ end. end ≡ at + length (spec.texts_bytes texts.now)) }
{
    let mut next = at;
    for text in texts {
        words.push(next)?;
        next += text.len() as u32 + 1;
    }
    Ok(next)
}

/// The words of the stack, where the texts begin at an address.
fn words_at(
    alloc: Global,
    at: u32,
    arguments: &[Bytes],
    environment: &[Bytes],
) -> Result<Vec<u32>, AllocError>
    requires { at + length (spec.texts_bytes (arguments.now ++ environment.now)) < 2 ^ 32 }
    ensures { IfOk result (λ words. words.items ≡ spec.words_at at arguments.now environment.now) }
{
    let count = arguments.len() + environment.len() + FIXED_WORDS;
    let mut words = Vec::with_capacity(alloc, count)?;
    words.push(arguments.len() as u32)?;
    let end = add_pointers(&mut words, at, arguments)?;
    words.push(0)?;
    let _ = add_pointers(&mut words, end, environment)?;
    words.extend_from_slice(&[0, AT_PAGESZ, PAGE_SIZE as u32, AT_NULL, 0])?;
    Ok(words)
}

/// The words one after another, each with its low byte first.
fn bytes_of_words(alloc: Global, words: &[u32]) -> Result<Vec<u8>, AllocError>
    ensures { IfOk result (λ bytes. bytes.items ≡ spec.word_bytes words.now) }
{
    let mut bytes = Vec::new(alloc);
    for word in words {
        bytes.extend_from_slice(&word.to_le_bytes())?;
    }
    Ok(bytes)
}

/// Fills a part of the stack.
fn fill(memory: &mut Mem, at: u32, bytes: &[u8])
    requires stack { IsWritable memory.old stack_base stack_end }
    requires above { stack_base ≤ at }
    requires below { at + length bytes.now ≤ stack_end }
    ensures filled { memory.new ≡ spec.filled memory.old at bytes.now }
    ensures stack { IsWritable memory.new stack_base stack_end }
{
    match memory.copy_in(at, bytes) {
        Ok(()) => {}
        Err(_) => unreachable!(),
    }
}

/// A process at its start: its program's image, and a stack with the texts of its arguments and
/// its environment.
pub fn start_guest(
    alloc: Global,
    image: &Image,
    arguments: &[Bytes],
    environment: &[Bytes],
) -> Result<Started, NoMemory>
    requires { length (spec.texts_bytes (arguments.now ++ environment.now)) ≤ most_text_bytes }
    ensures { IfOk result (λ started. spec.IsStarted image.now arguments.now environment.now started.cpu started.memory) }
{
    let texts = all_texts(alloc, arguments, environment)?;
    let texts_at = round_down(STACK_END - texts.len() as u32);
    let words = words_at(alloc, texts_at, arguments, environment)?;
    let stack_pointer = round_down(texts_at - 4 * words.len() as u32);
    let bytes = bytes_of_words(alloc, &words)?;
    let mut memory = Mem::from_image(alloc, image)?;
    fill(&mut memory, texts_at, &texts);
    fill(&mut memory, stack_pointer, &bytes);
    let mut x = [0; 32];
    x[2] = stack_pointer;
    Ok(Started {
        cpu: Cpu {
            pc: image.entry(),
            x,
            reservation: None,
        },
        memory,
    })
}
