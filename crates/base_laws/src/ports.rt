//! Laws of ports.

ghost use Rattle.std.specs.Prelude.{◌≡◌, ℕ, List, false, Some, None};
ghost use Rattle.std.specs.List.{list_any};
ghost use Rattle.sim_base.specs.AddressLaws.{AllAreHad, IsLeastFree};
ghost use Rattle.sim_base.specs.Addresses.{at_port, first_free_port, has_port, meets};
ghost use Rattle.sim_base.specs.declared.address.Addr.{Addr};
ghost use Rattle.sim_base.specs.declared.address.Ip.{Ip};

/// A port that is given is the least of the range that no other socket has; where none is given, all of the range are had.
pub fn least_free_port()
    ensures given { (bound : List Addr) (first count port : ℕ) → first_free_port bound first count ≡ Some port → IsLeastFree bound first count port }
    ensures none { (bound : List Addr) (first count : ℕ) → first_free_port bound first count ≡ None → AllAreHad bound first count }
{}

/// A socket at a port that no other has meets none of them.
pub fn free_ports_are_apart()
    ensures { (ip : Ip) (port : ℕ) (bound : List Addr) → has_port bound port ≡ false → list_any (meets (at_port ip port)) bound ≡ false }
{}
