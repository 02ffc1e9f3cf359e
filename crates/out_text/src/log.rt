//! The packet log.

ghost use Rattle.std.specs.Prelude.{◌≡◌, ◌++◌, OnOk, codes};
ghost use Rattle.std.specs.Fmt.{decimal};
ghost use Rattle.std.specs.List.{join_with_byte};
ghost use Rattle.sim_base.specs.Ascii.{space};
ghost use Rattle.sim_base.specs.Packet.{packet_size};
ghost use Rattle.out_text.specs.Address.{addr_text};
ghost use Rattle.out_text.specs.Log.{act_word, protocol_word, is_set, letter, flags_word, packet_words, log_line};

use crate::pushed::{push_addr, push_number};
use base_texts::Text;
use sim_base::{ACK, Act, FIN, Load, NoMemory, Packet, RST, SYN, Time};

/// The word of an act, with a space on either side.
fn word(act: Act) -> &'static str
    ensures { result.now ≡ codes " " ++ act_word act ++ codes " " }
{
    match act {
        Act::Send => " send ",
        Act::Lost => " lost ",
        Act::FullUp => " fullup ",
        Act::FullDown => " fulldown ",
        Act::Recv => " recv ",
        Act::SockFull => " sockfull ",
        Act::NoPort => " noport ",
        Act::Codel => " codel ",
    }
}

/// The word of a protocol, with a space behind it.
fn protocol(load: &Load) -> &'static str
    ensures { result.now ≡ protocol_word load.now ++ codes " " }
{
    match load {
        Load::Udp(_) => "udp ",
        Load::Tcp { .. } => "tcp ",
    }
}

fn is_set(flags: u8, flag: u8) -> bool
    ensures { result ≡ is_set flags flag }
{
    flags & flag != 0
}

/// The letter of a flag, where it is set.
fn letter(flags: u8, flag: u8, name: &'static str) -> &'static str
    ensures { result.now ≡ letter flags flag name.entry.now }
{
    if is_set(flags, flag) { name } else { "" }
}

/// Adds the flags of a segment: the letters of those that are set, or a dash.
fn push_flags(into: &mut Text, flags: u8) -> Result<(), NoMemory>
    ensures { OnOk result (into.new ≡ into.old ++ flags_word flags) }
{
    if !is_set(flags, SYN + ACK + FIN + RST) {
        return into.push_str("-");
    }
    into.push_str(letter(flags, SYN, "S"))?;
    into.push_str(letter(flags, ACK, "A"))?;
    into.push_str(letter(flags, FIN, "F"))?;
    into.push_str(letter(flags, RST, "R"))
}

/// Adds what the words of a segment have behind those of a datagram.
fn push_segment(into: &mut Text, flags: u8, seq: u32, ack: u32) -> Result<(), NoMemory>
    ensures { OnOk result (into.new ≡ into.old ++ (codes " " ++ (flags_word flags ++ (codes " " ++ (decimal seq ++ (codes " " ++ decimal ack)))))) }
{
    into.push_str(" ")?;
    push_flags(into, flags)?;
    into.push_str(" ")?;
    push_number(into, u64::from(seq))?;
    into.push_str(" ")?;
    push_number(into, u64::from(ack))
}

/// Adds the words that each packet has: PROTO SRC DST SIZE.
fn push_ends(into: &mut Text, packet: &Packet) -> Result<(), NoMemory>
    ensures { OnOk result (into.new ≡ into.old ++ (protocol_word packet.now.load ++ (codes " " ++ (addr_text packet.now.from
        ++ (codes " " ++ (addr_text packet.now.to ++ (codes " " ++ decimal (packet_size packet.now)))))))) }
{
    into.push_str(protocol(&packet.load))?;
    push_addr(into, packet.from)?;
    into.push_str(" ")?;
    push_addr(into, packet.to)?;
    into.push_str(" ")?;
    push_number(into, packet.size())
}

/// Adds the words of a packet.
pub(crate) fn push_packet(into: &mut Text, packet: &Packet) -> Result<(), NoMemory>
    ensures { OnOk result (into.new ≡ into.old ++ join_with_byte space (packet_words packet.now)) }
{
    push_ends(into, packet)?;
    match &packet.load {
        Load::Udp(_) => Ok(()),
        Load::Tcp {
            flags,
            seq,
            ack,
            ..
        } => {
            push_segment(into, *flags, *seq, *ack)?;
            Ok(())
        }
    }
}

/// Adds the line of what happened to a packet, when and at the host of this name. Where memory is wanting, a part of it may stand.
pub fn log_line(
    into: &mut Text,
    time: Time,
    host: &str,
    act: Act,
    packet: &Packet,
) -> Result<(), NoMemory>
    ensures { OnOk result (into.new ≡ into.old ++ log_line (record { time = time; host = host.now; act = act; packet = packet.now })) }
{
    push_number(into, time.nanos)?;
    into.push_str(" ")?;
    into.push_str(host)?;
    into.push_str(word(act))?;
    push_packet(into, packet)?;
    into.push_str("\n")
}
