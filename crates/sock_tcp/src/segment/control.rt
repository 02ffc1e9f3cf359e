//! What a record keeps beside its numbers and lists.

ghost use Rattle.std.specs.Prelude.{◌≡◌};
ghost use Rattle.sock_tcp.specs.segment.Control.{fresh_control};

use crate::segment::congestion::Congestion;
use crate::segment::state::TcpState;
use sim_base::{Addr, Bytes, Errno, Load, Packet};
use std::alloc::Global;

/// State, flags and timer of a record (RFC 9293, section 3.3.1), which the code and the definition
/// share.
#[derive(Clone, Copy)]
pub struct Control {
    /// The own end, and the other one.
    pub local: Addr,
    pub peer: Addr,
    pub state: TcpState,
    /// The peer's window (SND.WND), 0 until a segment sets it.
    pub window: u16,
    /// What congestion control allows to be in flight.
    pub congestion: Congestion,
    /// The process has ended its writing.
    pub fin_wanted: bool,
    /// The peer's FIN was taken.
    pub fin_taken: bool,
    /// The process has ended its reading.
    pub reading_ended: bool,
    /// The process has closed its socket.
    pub closed: bool,
    /// The record was ESTABLISHED at some time.
    pub was_established: bool,
    /// The error that the record ended by, until a call takes it.
    pub error: Option<Errno>,
    /// The record ended by an error, taken or not.
    pub had_error: bool,
    /// A read found the end of what the peer sent, while reading hadn't ended.
    pub saw_end: bool,
    /// How often the timer has expired since it was last started anew.
    pub retries: u8,
    /// The timer runs.
    pub timer: bool,
    /// A read has made room that the peer doesn't know of yet.
    pub owes_ack: bool,
}

impl Control {
    ghost use Rattle.std.specs.Prelude.{◌≤◌};
    ghost use Rattle.sock_tcp.specs.segment.Control.{segment, without_ack, timer_seconds, send_window, takes_bytes, control_read, finds_end, writing_ended};

    /// The control of a record that has just sent its SYN.
    #[tactic(auto, unfolding(crate::specs::segment::Control::fresh_control))]
    pub fn new(local: Addr, peer: Addr, state: TcpState) -> Control
        ensures { result ≡ fresh_control local peer state }
    {
        Control {
            local,
            peer,
            state,
            window: 0,
            congestion: Congestion::new(),
            fin_wanted: false,
            fin_taken: false,
            reading_ended: false,
            closed: false,
            was_established: false,
            error: None,
            had_error: false,
            saw_end: false,
            retries: 0,
            timer: true,
            owes_ack: false,
        }
    }

    /// A segment from the own end to the other one.
    pub fn segment(&self, flags: u8, seq: u32, ack: u32, window: u16, text: Bytes) -> Packet
        ensures { result ≡ segment self.now flags seq ack window text }
    {
        Packet {
            from: self.local,
            to: self.peer,
            load: Load::Tcp {
                flags,
                seq,
                ack,
                window,
                text,
            },
        }
    }

    /// A segment without ACK and text.
    #[tactic(auto, unfolding(crate::specs::segment::Control::without_ack))]
    pub(crate) fn without_ack(&self, alloc: Global, flags: u8, seq: u32) -> Packet
        ensures { result ≡ without_ack self.now flags seq }
    {
        self.segment(flags, seq, 0, u16::MAX, Bytes::new(alloc))
    }

    /// How long the timer runs from its start on, in seconds.
    #[tactic(auto, using(crate::proofs::Segments::Numbers::seconds_within))]
    pub(crate) fn timer_seconds(&self) -> u64
        ensures value { result ≡ timer_seconds self.now }
        ensures within { result ≤ 60 }
    {
        if self.state.is_time_wait() {
            60
        } else if self.retries < 6 {
            1 << self.retries
        } else {
            60
        }
    }

    /// How many bytes may be in flight: as many as the peer and the congestion window allow.
    pub(crate) fn send_window(&self) -> u16
        ensures { result ≡ send_window self.now }
    {
        self.window.min(self.congestion.cwnd)
    }

    /// Whether bytes are taken from the process.
    pub fn takes_bytes(&self) -> bool
        ensures { result ≡ takes_bytes self.now }
    {
        !(self.fin_wanted || self.state.is_over())
    }

    /// What a read leaves.
    pub fn after_read(self, owes: bool, found: bool) -> Control
        ensures { result ≡ control_read owes found self }
    {
        Control {
            owes_ack: self.owes_ack || owes,
            saw_end: self.saw_end || found,
            ..self
        }
    }

    /// Whether a read of `count` bytes finds the end of what the peer sent.
    pub(crate) fn finds_end(&self, count: usize, waiting: usize) -> bool
        ensures { result ≡ finds_end count waiting self.now }
    {
        count > 0 && waiting == 0 && self.fin_taken && !(self.reading_ended || self.had_error)
    }

    /// What the end of writing leaves.
    #[tactic(auto, unfolding(crate::specs::segment::Control::writing_ended))]
    pub(crate) fn after_writing(self) -> Control
        ensures { result ≡ writing_ended self }
    {
        Control {
            fin_wanted: true,
            state: self.state.after_writing(),
            ..self
        }
    }
}
