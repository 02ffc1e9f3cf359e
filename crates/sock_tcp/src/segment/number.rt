//! Sequence numbers (RFC 9293, section 3.4).

ghost use Rattle.std.specs.Prelude.{◌≡◌};
ghost use Rattle.sock_tcp.specs.segment.Number.{wire, distance};

/// How far an arriving number is from the expected one.
#[derive(Clone, Copy)]
pub enum Distance {
    /// The expected number or one after it.
    Ahead(u32),
    /// One before it.
    Behind(u32),
}

/// The number `offset` after `start`, modulo 2^32.
#[tactic(auto, unfolding(crate::specs::segment::Number::wire))]
pub fn number_at(start: u32, offset: u32) -> u32
    ensures { result ≡ wire start offset }
{
    start.wrapping_add(offset)
}

/// The number behind as many as `count`, modulo 2^32.
#[tactic(auto, unfolding(crate::specs::segment::Number::wire), using(crate::proofs::Segments::Numbers::sums))]
pub fn number_past(start: u32, count: usize) -> u32
    ensures { result ≡ wire start count }
{
    start.wrapping_add((count % (1 << 32)) as u32)
}

/// Where `number` stands, by the signed difference of 32 bits.
#[tactic(auto, unfolding(crate::specs::segment::Number::distance))]
pub fn distance_to(expected: u32, number: u32) -> Distance
    ensures { result ≡ distance expected number }
{
    let ahead = number.wrapping_sub(expected);
    if ahead < 1 << 31 {
        Distance::Ahead(ahead)
    } else {
        Distance::Behind(u32::MAX - ahead + 1)
    }
}
