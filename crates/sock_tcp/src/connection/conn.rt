//! A connection.

ghost use Rattle.std.specs.Prelude.{◌≡◌, ◌+◌, ◌≤◌, length};
ghost use Rattle.sock_tcp.specs.connection.Tcb.{buffer_size};

use crate::connection::carried::Counts;
use crate::segment::Control;
use circular_buffer::HeapCircularBuffer;

/// How many bytes the send buffer holds, and how many the receive buffer does.
pub(crate) const BUFFER_SIZE: usize = 65_535;

/// A connection. It keeps the number of the first byte that isn't acknowledged (SND.UNA), how far
/// the next one to send (SND.NXT) and the highest one sent are from it, how many duplicate
/// acknowledgements came since more was acknowledged, at most 255, and what was the highest when a loss
/// was last noticed, how much it carried, what it sends and wasn't acknowledged yet, and what it received
/// and wasn't read yet. After a call that answers want of memory nothing is known of it.
pub struct Conn {
    pub(crate) control: Control,
    pub(crate) una: u32,
    pub(crate) sent: usize,
    pub(crate) highest: usize,
    pub(crate) duplicates: u8,
    pub(crate) recover: usize,
    pub(crate) rcv: u32,
    pub(crate) counts: Counts,
    pub(crate) send: HeapCircularBuffer<u8>,
    pub(crate) receive: HeapCircularBuffer<u8>,
    ghost send_room: { send.capacity ≡ buffer_size },
    ghost receive_room: { receive.capacity ≡ buffer_size },
    ghost send_fits: { length send.items ≤ buffer_size },
    ghost receive_fits: { length receive.items ≤ buffer_size },
    ghost next_in: { sent ≤ length send.items + 2 },
    ghost highest_in: { highest ≤ length send.items + 2 },
}

/// By hand: a derived one would be proved anew in each crate that drops such a value.
impl Drop for Conn {
    fn drop(self) {
        let Conn {
            control: _,
            una: _,
            sent: _,
            highest: _,
            duplicates: _,
            recover: _,
            rcv: _,
            counts: _,
            send,
            receive,
        } = self;
        drop(send);
        drop(receive);
    }
}
