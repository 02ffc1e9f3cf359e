//! How addresses are written.

ghost use Rattle.std.specs.Prelude.{Some};
ghost use Rattle.out_text.specs.Address.{ip_text, addr_text};

use sim_base::{Addr, Ip};
use std::fmt;

/// An address, which is written as `a.b.c.d`.
#[derive(Clone, Copy)]
pub struct ShownIp(pub Ip);

impl fmt::Display for ShownIp {
    ghost output = { λ shown. Some (ip_text shown.0) };

    fn fmt<W: fmt::Write>(&self, f: &mut fmt::Formatter<W>) -> fmt::Result {
        let bits = self.0.bits;
        let (a, b) = (bits >> 24, (bits >> 16) % 256);
        let (c, d) = ((bits >> 8) % 256, bits % 256);
        write!(f, "{a}.{b}.{c}.{d}")
    }
}

/// An end, which is written as `a.b.c.d:port`.
#[derive(Clone, Copy)]
pub struct ShownAddr(pub Addr);

impl fmt::Display for ShownAddr {
    ghost output = { λ shown. Some (addr_text shown.0) };

    fn fmt<W: fmt::Write>(&self, f: &mut fmt::Formatter<W>) -> fmt::Result {
        let ip = ShownIp(self.0.ip);
        let port = self.0.port;
        write!(f, "{ip}:{port}")
    }
}
