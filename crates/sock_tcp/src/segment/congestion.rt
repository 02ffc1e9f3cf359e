//! The congestion window (RFC 5681).

ghost use Rattle.std.specs.Prelude.{◌≡◌, ◌<◌, ◌*◌, ◌/◌};
ghost use Rattle.sim_base.specs.Packet.{max_segment};
ghost use Rattle.sock_tcp.specs.segment.Congestion.{threshold_after};

use sim_base::MAX_SEGMENT;

/// The text of one segment at most, in the width of the sums below.
const SEGMENT: u32 = MAX_SEGMENT as u32;

const INITIAL_WINDOW: u16 = 4_380;

const LOSS_WINDOW: u16 = 1_460;

/// The congestion control of a connection, in bytes (RFC 5681).
#[derive(Clone, Copy)]
pub struct Congestion {
    /// The congestion window: how many bytes may be in flight.
    pub cwnd: u16,
    /// The slow start threshold.
    pub ssthresh: u16,
}

/// What congestion avoidance adds for one acknowledgement.
fn per_window(cwnd: u16) -> u32
    ensures { result ≡ max_segment * max_segment / cwnd }
{
    if cwnd == 0 {
        0
    } else {
        SEGMENT * SEGMENT / u32::from(cwnd)
    }
}

/// Half of what was in flight, at least two segments.
fn threshold_after(in_flight: usize) -> u16
    requires { in_flight < 131072 }
    ensures { result ≡ threshold_after in_flight }
{
    (in_flight / 2).max(2 * MAX_SEGMENT) as u16
}

impl Congestion {
    ghost use Rattle.sock_tcp.specs.segment.Congestion.{fresh_congestion, opened_window, growth, acknowledged, halved, timed_out};

    /// That of a connection whose SYN was just sent.
    pub fn new() -> Congestion
        ensures { result ≡ fresh_congestion }
    {
        Congestion {
            cwnd: INITIAL_WINDOW,
            ssthresh: u16::MAX,
        }
    }

    /// The handshake is done, after an expiry of the timer or without.
    pub fn opened(self, expired: bool) -> Congestion
        ensures { result ≡ opened_window expired self }
    {
        Congestion {
            cwnd: if expired { LOSS_WINDOW } else { INITIAL_WINDOW },
            ..self
        }
    }

    /// How much an acknowledgement of `by` bytes adds to the window.
    fn growth(self, by: u32) -> u32
        ensures { result ≡ growth by self }
    {
        if self.cwnd < self.ssthresh {
            by.min(SEGMENT)
        } else {
            per_window(self.cwnd).max(1)
        }
    }

    /// As many more as `by` are acknowledged, perhaps none.
    pub(crate) fn acknowledged(self, by: u32) -> Congestion
        ensures { result ≡ acknowledged by self }
    {
        if by == 0 {
            return self;
        }
        let cwnd = u32::from(self.cwnd) + self.growth(by);
        Congestion {
            cwnd: cwnd.min(u32::from(u16::MAX)) as u16,
            ..self
        }
    }

    /// A segment was lost, as duplicate acknowledgements tell.
    pub(crate) fn halved(in_flight: usize) -> Congestion
        requires { in_flight < 131072 }
        ensures { result ≡ halved in_flight }
    {
        let ssthresh = threshold_after(in_flight);
        Congestion {
            cwnd: ssthresh,
            ssthresh,
        }
    }

    /// The timer expired, for the first time since it was started anew or again.
    pub(crate) fn timed_out(self, first: bool, in_flight: usize) -> Congestion
        requires { in_flight < 131072 }
        ensures { result ≡ timed_out first in_flight self }
    {
        Congestion {
            cwnd: LOSS_WINDOW,
            ssthresh: if first {
                threshold_after(in_flight)
            } else {
                self.ssthresh
            },
        }
    }
}
