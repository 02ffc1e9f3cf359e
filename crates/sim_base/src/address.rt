//! Addresses of the internet protocol, version 4 (RFC 791).

ghost use Rattle.std.specs.Prelude.{◌≡◌};
ghost use Rattle.sim_base.specs.Addresses as spec;

/// An address a.b.c.d, kept as a * 2^24 + b * 2^16 + c * 2^8 + d.
#[derive(Clone, Copy, PartialEq, Eq, PartialOrd, Ord, Hash)]
pub struct Ip {
    pub bits: u32,
}

impl Ip {
    /// 0.0.0.0, which stands for each address of a host (RFC 1122, section 3.2.1.3).
    pub const ANY: Ip = Ip { bits: 0 };

    /// 127.0.0.1, the host itself (RFC 1122, section 3.2.1.3).
    pub const LOOPBACK: Ip = Ip { bits: 0x7f00_0001 };

    /// Whether a socket of the host that has the address `own` may be bound to this one: it is
    /// 0.0.0.0, 127.0.0.1 or the host's own.
    pub fn is_local(self, own: Ip) -> bool
        ensures { result ≡ spec.is_local own self }
    {
        self == Ip::ANY || self == Ip::LOOPBACK || self == own
    }
}

/// An end of a datagram or of a connection: an address and a port.
#[derive(Clone, Copy, PartialEq, Eq, PartialOrd, Ord, Hash)]
pub struct Addr {
    pub ip: Ip,
    pub port: u16,
}

impl Addr {
    /// Whether two sockets that are bound so meet: they have one port, and one address or either
    /// of them 0.0.0.0.
    pub fn meets(self, other: Addr) -> bool
        ensures { result ≡ spec.meets self other }
    {
        self.port == other.port
            && (self.ip == other.ip || self.ip == Ip::ANY || other.ip == Ip::ANY)
    }
}
