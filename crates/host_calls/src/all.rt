//! All that a host's calls act on.

use file_calls::{Shared, Task};
use host_sockets::Sockets;

/// All that a host's calls act on: its processes by their numbers (None: it hasn't started, or the
/// host has let it go), what they share, and its sockets, which know its address.
pub struct Parts {
    pub tasks: Vec<Option<Task>>,
    pub shared: Shared,
    pub sockets: Sockets,
}

/// By hand: a derived one would be proved anew in each crate that drops such a value.
impl Drop for Parts {
    fn drop(self) {
        let Parts {
            tasks,
            shared,
            sockets,
        } = self;
        drop(tasks);
        drop(shared);
        drop(sockets);
    }
}
