//! The numbers of packets fit their types. What is read of a value is known to be of its type, so each
//! number is read, and nothing is done.

ghost use Rattle.run_files.specs.LinesFit.{AllFit};
ghost use Rattle.host_link.specs.Logs.{kept_lines};
ghost use Rattle.pcap_text.specs.Packets as spec;

use host_link::Logged;
use sim_base::{Addr, Load, Packet};

fn end_fits(end: Addr)
    ensures { spec.FitsAddr end }
{
    let _numbers = (end.ip.bits, end.port);
}

fn load_fits(load: &Load)
    ensures { spec.FitsLoad load.now }
{
    match load {
        Load::Udp(_) => {}
        Load::Tcp {
            flags,
            seq,
            ack,
            window,
            ..
        } => {
            let _numbers = (*flags, *seq, *ack, *window);
        }
    }
}

fn packet_fits(packet: &Packet)
    ensures { spec.Fits packet.now }
{
    end_fits(packet.from);
    end_fits(packet.to);
    load_fits(&packet.load);
}

/// The numbers of the packets of all lines fit their types.
pub(crate) fn lines_fit(lines: &[Logged])
    ensures { AllFit (kept_lines lines.now) }
{
    for line in lines {
        packet_fits(&line.line.packet);
    }
}
