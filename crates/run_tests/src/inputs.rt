//! What runs are made over: sources and sinks in memory.

use elf_load::{ProgramHeader, executable};
use memory_outside::{MemSink, MemSource};
use std::alloc::{AllocError, Global};
use std::test::Fail;

/// A program that sends 4 bytes to 11.0.0.1:7000, writes the first 4 bytes of its file to its standard output and exits
/// with 0: `socket(2, 2, 0)`, `sendto(3, 0x10000, 4, 0, 0x1009c, 16)`, `write(1, 0x10000, 4)`, `exit(0)`. The address
/// stands behind it.
const SENDER: [u32; 22] = [
    0x00200513, 0x00200593, 0x00000613, 0x0c600893, 0x00000073, 0x000105b7, 0x00400613, 0x00000693,
    0x09c58713, 0x01000793, 0x0ce00893, 0x00000073, 0x00100513, 0x04000893, 0x00000073, 0x00000513,
    0x05d00893, 0x00000073, 0x581b0002, 0x0100000b, 0, 0,
];

/// The bytes of a file with the program, which is one segment at 0x10000.
fn sender(alloc: Global) -> Result<Vec<u8>, AllocError> {
    let mut code = Vec::new(alloc);
    for word in &SENDER {
        code.extend_from_slice(&word.to_le_bytes())?;
    }
    let segment = ProgramHeader {
        kind: ProgramHeader::LOAD,
        offset: 0,
        address: 0x10000,
        file_size: 172,
        memory_size: 172,
        flags: 5,
    };
    executable(alloc, 0x10054, &[segment], &code)
}

/// A source with a configuration and the program, under two names.
pub fn source(alloc: Global, text: &str) -> Result<MemSource, Fail> {
    let mut source = MemSource::new(alloc);
    source.add(
        String::from_str(alloc, "t.yaml")?,
        Vec::from_slice(alloc, text.as_bytes())?,
    )?;
    for name in ["sender", "bin/sender"] {
        source.add(String::from_str(alloc, name)?, sender(alloc)?)?;
    }
    Ok(source)
}

/// The words of the command line.
pub fn words(alloc: Global) -> Result<Vec<String>, Fail> {
    let mut words = Vec::new(alloc);
    for word in ["shadow", "t.yaml"] {
        words.push(String::from_str(alloc, word)?)?;
    }
    Ok(words)
}

/// What a file holds, as text; nothing, where it isn't there.
pub fn text<'a>(sink: &'a MemSink, name: &str) -> &'a str {
    match std::str::from_utf8(sink.file(name).unwrap_or(b"")) {
        Ok(text) => text,
        Err(_) => "no text",
    }
}
