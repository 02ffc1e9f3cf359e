//! Laws of the definitions: what is written is read again, checksums verify, and no two packets
//! have one datagram.

ghost use Rattle.std.specs.Prelude.{◌≡◌, ℕ, ◌<◌, ◌≤◌, ◌^◌, List};
ghost use Rattle.std.specs.List.{AllByRecursion};
ghost use Rattle.sim_base.specs.Packet.{packet_size, max_packet};
ghost use Rattle.sim_base.specs.declared.packet.Packet.{Packet};
ghost use Rattle.pcap_text.specs.Datagram.{datagram, longest};
ghost use Rattle.pcap_text.specs.Laws.{Taken, MayBeRecorded, IsReadBack, IsWhole, ChecksumsVerify};
ghost use Rattle.pcap_text.specs.Packets.{Fits};

/// Reading the head and the records of some packets gives them back, each with its time, where the
/// capture size is at least 1,500.
pub fn reads_back()
    ensures { (size : ℕ) (ts : List Taken) → max_packet ≤ size → size < 2 ^ 32 → AllByRecursion MayBeRecorded ts → IsReadBack size ts }
{}

/// The checksums of a datagram verify.
pub fn checksums_verify()
    ensures { (p : Packet) → IsWhole p → packet_size p ≤ longest → ChecksumsVerify p }
{}

/// No two packets have one datagram.
pub fn one_datagram()
    ensures { (a b : Packet) → Fits a → Fits b → packet_size a ≤ longest → packet_size b ≤ longest → datagram a ≡ datagram b → a ≡ b }
{}
