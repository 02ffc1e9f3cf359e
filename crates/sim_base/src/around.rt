//! What a socket has around it.

use crate::address::{Addr, Ip};
use crate::book::Book;
use std::marker::Model;

/// What a socket of a host has around it: the host's address, the addresses of all hosts, and what
/// the host's sockets of the same protocol are bound to.
#[derive(Drop)]
pub struct Around<'a> {
    pub own: Ip,
    pub hosts: &'a Book,
    pub bound: &'a [Addr],
}

impl<'a> Model for Around<'a> {
    ghost use Rattle.sim_base.specs.Addresses.{Surroundings};

    ghost Value = { Surroundings };

    ghost view = { λ a. record { own = a.own; hosts = a.hosts.now; bound = a.bound.now } };
}
