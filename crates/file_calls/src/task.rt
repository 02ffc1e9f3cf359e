//! A host's processes and what they share.

use crate::outputs::Outputs;
use guest_mem::Mem;
use host_fds::Table;
use host_files::{Epolls, Files};
use host_wants::Outlet;
use sim_base::{Bytes, Time};

/// A call that waits: its number, its arguments, and its deadline where it has one.
#[derive(Clone, Copy)]
pub struct Why {
    pub number: u32,
    pub args: [u32; 6],
    pub deadline: Option<Time>,
}

/// A process: its descriptors, its epolls, its memory, and the call that it waits in.
pub struct Task {
    pub table: Table,
    pub epolls: Epolls,
    pub memory: Mem,
    pub kept: Option<Why>,
}

/// By hand: a derived one would be proved anew in each crate that drops such a value.
impl Drop for Task {
    fn drop(self) {
        let Task {
            table,
            epolls,
            memory,
            kept: _,
        } = self;
        drop(table);
        drop(epolls);
        drop(memory);
    }
}

/// What a process wrote: descriptor 1 is its standard output, 2 its standard error.
#[derive(Drop)]
pub struct Output {
    pub process: u32,
    pub descriptor: u32,
    pub bytes: Bytes,
}

/// What the processes of a host share beside their sockets: open files, what they want to be done
/// with the host's generator, and what they wrote.
pub struct Shared {
    pub files: Files,
    pub outlet: Outlet,
    pub outputs: Outputs,
}

/// By hand: a derived one would be proved anew in each crate that drops such a value.
impl Drop for Shared {
    fn drop(self) {
        let Shared {
            files,
            outlet,
            outputs,
        } = self;
        drop(files);
        drop(outlet);
        drop(outputs);
    }
}
