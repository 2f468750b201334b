ghost use Rattle.std.specs.Prelude.{◌≡◌};
ghost use Rattle.gathering.specs.Addresses.{IsAddressOfIp, number_of_ip};

use std::net::IpAddr;

/// From whom a connection comes: an IPv4 address, or the first 64 bits of an IPv6 address, which is what one house has
/// (RFC 4291, section 2.5.4). An IPv4 address counts as it is mapped to IPv6 (section 2.5.5.2), so that the two are one.
#[derive(Clone, Copy, Debug, PartialEq, Eq, PartialOrd, Ord, Hash)]
pub struct Address {
    /// The 128 bits of the IPv6 address, the last 64 of which are 0 for one that is no mapped one.
    pub bits: u128,
}

/// What stands before an IPv4 address that is mapped.
const MAPPED: u128 = 0xffff_0000_0000;

/// How many numbers 64 bits have.
const REST: u128 = 0x1_0000_0000_0000_0000;

/// The number of an address that is no mapped one.
fn number_of(ip: IpAddr) -> u128
    ensures { result ≡ number_of_ip ip }
{
    match ip {
        IpAddr::V4(four) => MAPPED + u128::from(four.to_bits()),
        IpAddr::V6(six) => six.to_bits() / REST * REST,
    }
}

/// From whom a connection of this address comes.
pub fn address_of(ip: IpAddr) -> Address
    ensures { IsAddressOfIp ip result }
{
    Address {
        bits: number_of(ip.to_canonical()),
    }
}
