//! The file of hosts' addresses that guests read.

ghost use Rattle.std.specs.Prelude.{◌≡◌, ◌++◌, IfOk, OnOk, OnErr, string_bytes, Some};
ghost use Rattle.out_text.specs.Hosts.{host_line, hosts_text};

use crate::address::ShownIp;
use base_texts::{Name, Text};
use sim_base::{Ip, NoMemory};
use std::alloc::{AllocError, Global};
use std::fmt;

/// A host as the file tells it.
#[derive(Clone, Drop)]
pub struct HostLine {
    pub address: Ip,
    pub name: Name,
}

impl fmt::Display for HostLine {
    ghost output = { λ host. Some (host_line host) };

    fn fmt<W: fmt::Write>(&self, f: &mut fmt::Formatter<W>) -> fmt::Result {
        let address = ShownIp(self.address);
        let name = self.name.as_str();
        write!(f, "{address} {name}\n")
    }
}

fn hosts_string(alloc: Global, hosts: &[HostLine]) -> Result<String, AllocError>
    ensures { IfOk result (λ text. string_bytes text ≡ hosts_text hosts.now) }
{
    let mut text = String::from_str(alloc, "127.0.0.1 localhost\n")?;
    for host in hosts {
        write!(text, "{host}")?;
    }
    Ok(text)
}

/// Adds the text of `/etc/hosts`, or leaves the text as it was.
pub fn hosts_text(alloc: Global, into: &mut Text, hosts: &[HostLine]) -> Result<(), NoMemory>
    ensures ok { OnOk result (into.new ≡ into.old ++ hosts_text hosts.now) }
    ensures err { OnErr result (into.new ≡ into.old) }
{
    let text = hosts_string(alloc, hosts)?;
    into.push_str(text.as_str())
}
