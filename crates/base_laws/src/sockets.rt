//! Laws of datagram sockets.

ghost use Rattle.std.specs.Prelude.{◌≡◌, ℕ, List, Option, Some, None, Ok, Err, true, false};
ghost use Rattle.sim_base.specs.Addresses.{Surroundings, is_taken, meets};
ghost use Rattle.sim_base.specs.declared.address.Addr.{Addr};
ghost use Rattle.sim_base.specs.declared.errno.Errno.TheVariants.{Einval};
ghost use Rattle.sock_udp.specs.Socket.{UdpState, address_to_bind, address_to_use, connect, send, takes};

/// An address is given to one socket alone: by bind(2), and by sending or connecting without it.
pub fn addresses_are_apart()
    ensures bound { (around : Surroundings) (at given : Addr) (socket : UdpState) → address_to_bind around at socket ≡ Ok given → is_taken around.bound given ≡ false }
    ensures used { (around : Surroundings) (given : Addr) (socket : UdpState) → socket.local ≡ None → address_to_use around socket ≡ Ok given → is_taken around.bound given ≡ false }
{}

/// Two sockets that take one datagram meet, so of sockets that are apart at most one takes it.
pub fn one_taker()
    ensures { (from to a b : Addr) (s t : UdpState) → s.local ≡ Some a → t.local ≡ Some b → takes from to s ≡ true → takes from to t ≡ true → meets a b ≡ true }
{}

/// A bound socket sends and is connected whatever the others are bound to, and isn't bound again.
pub fn others_are_no_matter()
    ensures sent { (around : Surroundings) (others : List Addr) (bytes : List ℕ) (to : Option Addr) (socket : UdpState) (at : Addr) → socket.local ≡ Some at
        → send (record around { bound = others }) bytes to socket ≡ send around bytes to socket }
    ensures connected { (around : Surroundings) (others : List Addr) (to : Addr) (socket : UdpState) (at : Addr) → socket.local ≡ Some at
        → connect (record around { bound = others }) to socket ≡ connect around to socket }
    ensures bound { (around : Surroundings) (to at : Addr) (socket : UdpState) → socket.local ≡ Some at → address_to_bind around to socket ≡ Err Einval }
{}
