//! What is done with an arriving segment (RFC 9293, section 3.10.7).

ghost use Rattle.std.specs.Prelude.{◌≡◌, false};
ghost use Rattle.sock_tcp.specs.segment.State.{is_over, is_syn_sent};
ghost use Rattle.sock_tcp.specs.segment.Verdict.{syn_sent_verdict, reset_verdict, syn_verdict, ack_verdict, synchronized_verdict, verdict_of, ComesIn};

use crate::segment::header::Header;
use crate::segment::number::{Distance, distance_to, number_at};
use crate::segment::state::TcpState;

/// What a segment's header brings about.
#[derive(Clone, Copy)]
pub enum Verdict {
    /// It is dropped.
    Dropped,
    /// It is dropped, and an ACK is sent.
    Acknowledged,
    /// It is dropped, and the SYN and ACK is sent again.
    SynAcknowledged,
    /// It is dropped, and a RST with its acknowledgement's number is sent.
    Refused,
    /// The peer refuses the connection.
    ConnectRefused,
    /// The peer resets the connection.
    Reset,
    /// The record vanishes.
    Gone,
    /// The peer answers the own SYN with its own.
    Connects,
    /// The peer acknowledges the own SYN and ACK.
    Establishes,
    /// So much more is acknowledged, perhaps nothing.
    Advances(u32),
    /// What it acknowledges was acknowledged before.
    Continues,
}

#[tactic(auto, unfolding(crate::specs::segment::Verdict::syn_sent_verdict))]
fn syn_sent_verdict(first: u32, header: Header) -> Verdict
    ensures value { result ≡ syn_sent_verdict first header }
    ensures comes { ComesIn TcpState.SynSent 0 result }
{
    if header.has_ack && header.ack != first {
        if header.rst {
            Verdict::Dropped
        } else {
            Verdict::Refused
        }
    } else if header.rst {
        if header.has_ack {
            Verdict::ConnectRefused
        } else {
            Verdict::Dropped
        }
    } else if header.syn && header.has_ack {
        Verdict::Connects
    } else {
        Verdict::Dropped
    }
}

fn reset_verdict(state: TcpState) -> Verdict
    ensures { result ≡ reset_verdict state }
{
    if state.is_syn_received() || state.is_time_wait() {
        Verdict::Gone
    } else {
        Verdict::Reset
    }
}

#[tactic(auto, unfolding(crate::specs::segment::Number::wire))]
fn syn_verdict(state: TcpState, rcv: u32, seq: u32) -> Verdict
    ensures { result ≡ syn_verdict state rcv seq }
{
    if state.is_syn_received() && number_at(seq, 1) == rcv {
        Verdict::SynAcknowledged
    } else {
        Verdict::Acknowledged
    }
}

#[tactic(auto, using(crate::proofs::Segments::States::is_synchronized_else))]
fn ack_verdict(state: TcpState, una: u32, in_flight: usize, ack: u32) -> Verdict
    requires live { is_over state ≡ false }
    requires sent { is_syn_sent state ≡ false }
    ensures value { result ≡ ack_verdict state una in_flight ack }
    ensures comes { ComesIn state in_flight result }
{
    if state.is_syn_received() {
        return if ack == number_at(una, 1) {
            Verdict::Establishes
        } else {
            Verdict::Refused
        };
    }
    match distance_to(una, ack) {
        Distance::Ahead(by) if by as usize <= in_flight => Verdict::Advances(by),
        Distance::Ahead(_) => Verdict::Acknowledged,
        Distance::Behind(_) => Verdict::Continues,
    }
}

#[tactic(auto, unfolding(crate::specs::segment::Verdict::synchronized_verdict))]
fn synchronized_verdict(
    state: TcpState,
    rcv: u32,
    una: u32,
    in_flight: usize,
    header: Header,
) -> Verdict
    requires live { is_over state ≡ false }
    requires sent { is_syn_sent state ≡ false }
    ensures value { result ≡ synchronized_verdict state rcv una in_flight header }
    ensures comes { ComesIn state in_flight result }
{
    if header.rst {
        if header.seq == rcv {
            reset_verdict(state)
        } else {
            Verdict::Dropped
        }
    } else if header.syn {
        syn_verdict(state, rcv, header.seq)
    } else if header.has_ack {
        ack_verdict(state, una, in_flight, header.ack)
    } else {
        Verdict::Dropped
    }
}

#[tactic(auto, unfolding(crate::specs::segment::Verdict::verdict_of), using(crate::proofs::Segments::States::comes_in_syn_sent))]
pub fn verdict_on(state: TcpState, rcv: u32, una: u32, in_flight: usize, header: Header) -> Verdict
    ensures value { result ≡ verdict_of state rcv una in_flight header }
    ensures comes { ComesIn state in_flight result }
{
    if state.is_over() {
        Verdict::Dropped
    } else if state.is_syn_sent() {
        syn_sent_verdict(number_at(una, 1), header)
    } else {
        synchronized_verdict(state, rcv, una, in_flight, header)
    }
}
