//! The sockets of the nodes.

use crate::failure::Failure;
use crate::files::failed;
use nodes::Host;
use sockets::UdpPort;
use std::alloc::Global;
use std::io::{self, Write};
use std::net::{Net, SocketAddr};

/// The addresses of a node: its own, that of its primary if it is a replica, and those of its replicas.
#[derive(Drop)]
pub struct Addresses {
    pub listen: SocketAddr,
    pub primary: Option<SocketAddr>,
    pub replicas: Vec<SocketAddr>,
}

/// A socket on a node's address; it says on which address it listens.
pub fn listening<T: Net, E: Write>(
    host: Host<'_, T>,
    addresses: Addresses,
    says: bool,
    errors: &mut E,
) -> Result<UdpPort, Failure> {
    let Addresses {
        listen,
        primary,
        replicas,
    } = addresses;
    match UdpPort::bind(host.rt, host.alloc, listen, primary, replicas) {
        Ok(port) => {
            if says {
                if let Ok(address) = port.local_addr() {
                    let _ = writeln!(errors, "listening on {address}");
                }
            }
            Ok(port)
        }
        Err(error) => Err(bind_failure(host.alloc, listen, error)),
    }
}

/// What a socket that failed at a receive says: no node ends where a send fails, so the receive is what
/// failed last.
pub fn socket_failure(alloc: Global, port: &UdpPort) -> Failure {
    let address = match port.local_addr() {
        Ok(address) => address,
        Err(error) => return failed(alloc, "the socket", format!(in alloc; "{error}").ok()),
    };
    match port.last_fault() {
        Some(error) => at_address(alloc, address, format!(in alloc; "receive: {error}").ok()),
        None => at_address(alloc, address, format!(in alloc; "receive").ok()),
    }
}

/// What is said of an address that the system does not bind.
pub fn bind_failure(alloc: Global, address: SocketAddr, error: io::Error) -> Failure {
    at_address(alloc, address, format!(in alloc; "bind: {error}").ok())
}

/// What failed at an address, and why.
fn at_address(alloc: Global, address: SocketAddr, why: Option<String>) -> Failure {
    match format!(in alloc; "{address}") {
        Ok(address) => failed(alloc, address.as_str(), why),
        Err(_) => Failure::Memory,
    }
}
