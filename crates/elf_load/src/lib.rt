//! The program image of an ELF file: what a loader lays into a guest's memory, or the first fault of the file.
//!
//! Executables are static 32-bit RISC-V files (System V gABI, ELF32, little-endian).
#![tactic(auto)]

mod build;
mod elf_header;
mod fault;
mod fields;
mod file;
mod image;
mod index;
pub mod laws;
mod layout;
mod loader;
mod page;
mod program_header;
mod rights;
mod segments;
mod shared;

pub use fault::{ElfFault, LoadError};
pub use file::executable;
pub use image::Image;
pub use loader::load;
pub use page::{PAGE_SIZE, Page};
pub use program_header::ProgramHeader;
pub use rights::Rights;
pub use shared::SharedPages;
