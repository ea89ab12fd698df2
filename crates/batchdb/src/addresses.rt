//! Addresses and numbers, as the words of the programs give them.

use std::net::{Ipv4Addr, SocketAddr};

/// The address that a word is: a dotted IPv4 address or `localhost`, a colon, and a decimal port. No
/// name is looked up.
pub fn read_address(word: &str) -> Option<SocketAddr> {
    let (host, port) = word.rsplit_once(':')?;
    let host = if host == "localhost" {
        Ipv4Addr::LOCALHOST
    } else {
        host.parse::<Ipv4Addr>().ok()?
    };
    let port = u16::try_from(read_number(port)?).ok()?;
    Some(SocketAddr::from((host, port)))
}

/// The number that decimal digits are.
pub fn read_number(word: &str) -> Option<u64> {
    // `parse` alone would take a sign.
    if word.starts_with('+') {
        return None;
    }
    word.parse::<u64>().ok()
}
