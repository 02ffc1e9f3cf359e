//! The sockets of a host: numbers that no socket has, and ports that are all had.

use host_draws::Draws;
use host_sockets::Sockets;
use host_wants::{CallError, Outlet, Refusal};
use sim_base::{Addr, Around, Book, Errno, Ip, Time};
use sock_udp::{UdpError, UdpSock};
use std::alloc::Global;
use std::test::Fail;

const OWN: Ip = Ip { bits: 0x0b00_0001 };

const OTHER: Addr = Addr {
    ip: Ip { bits: 0x0b00_0002 },
    port: 80,
};

/// Any free port of the host.
const FREE: Addr = Addr { ip: OWN, port: 0 };

const NOW: Time = Time { nanos: 1000 };

fn hosts(alloc: Global) -> Result<Book, Fail> {
    Ok(Book::new(alloc, [OWN, OTHER.ip].to_vec(alloc)?)?)
}

/// What refuses a call.
fn refusal<T: Drop>(answer: Result<T, CallError>) -> Option<Errno> {
    match answer {
        Err(CallError::Refused(Refusal::Errno(errno))) => Some(errno),
        _ => None,
    }
}

/// Sockets are numbered from 0 up, a number that a socket gave up is the next one's, and calls on a
/// number that none has are refused.
#[test]
fn numbers_without_a_socket(rt: HostRuntime) -> Result<(), Fail> {
    let alloc = rt.alloc();
    let hosts = hosts(alloc)?;
    let mut sockets = Sockets::new(alloc, OWN);
    let mut outlet = Outlet::new(alloc, Draws::for_host(1, 0));
    assert_eq!(rt; (sockets.new_udp()?, sockets.new_udp()?), (0, 1));
    sockets.close_udp(0);
    assert_eq!(rt; sockets.udp_ready(0), 0);
    for k in [0, 9] {
        let refusals = [
            refusal(sockets.bind_udp(&hosts, k, FREE)),
            refusal(sockets.connect_udp(&hosts, k, OTHER)),
            refusal(sockets.send_udp(&hosts, k, b"x", Some(OTHER))),
            refusal(sockets.recv_udp(k, 9)),
            refusal(sockets.bind_tcp(k, FREE)),
            refusal(sockets.listen_tcp(k, 1)),
            refusal(sockets.accept_tcp(k)),
            refusal(sockets.connect_tcp(&hosts, &mut outlet, NOW, k, OTHER)),
            refusal(sockets.take_error(&mut outlet, NOW, k)),
        ];
        assert_eq!(rt; refusals, [Some(Errno::Ebadf); 9], "{k}");
    }
    assert_eq!(rt; sockets.new_udp()?, 0);
    assert_eq!(rt; (sockets.new_tcp()?, sockets.new_tcp()?), (0, 1));
    sockets.close_tcp(&mut outlet, NOW, 0)?;
    assert_eq!(rt; sockets.new_tcp()?, 0);
    Ok(())
}

/// The last port is found, and then none is.
#[test]
fn a_host_has_so_many_ports(rt: HostRuntime) -> Result<(), Fail> {
    let alloc = rt.alloc();
    let hosts = hosts(alloc)?;
    let mut bound = Vec::new(alloc);
    for port in 10_000..65_535u16 {
        bound.push(Addr { ip: OWN, port })?;
    }
    let mut last = UdpSock::new(alloc);
    let around = Around {
        own: OWN,
        hosts: &hosts,
        bound: bound.as_slice(),
    };
    assert_eq!(rt; last.bind(&around, FREE), Ok(()));
    assert_eq!(rt; last.local().map(|at| at.port), Some(65_535));
    bound.push(Addr {
        ip: OWN,
        port: 65_535,
    })?;
    let full = Around {
        own: OWN,
        hosts: &hosts,
        bound: bound.as_slice(),
    };
    let mut none = UdpSock::new(alloc);
    let wanted = Errno::Eaddrnotavail;
    assert_eq!(rt; none.bind(&full, FREE), Err(wanted));
    assert_eq!(rt; none.connect(&full, OTHER), Err(wanted));
    let sent = none.send(&full, b"x", Some(OTHER));
    assert_eq!(rt; sent.err(), Some(UdpError::Errno(wanted)));
    assert!(rt; none.local().is_none());
    Ok(())
}
