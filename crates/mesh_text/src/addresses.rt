ghost use Rattle.std.specs.Prelude.{◌≡◌, IfOk};
ghost use Rattle.mesh_text.specs.declared.ip.Ip.TheVariants.{V4, V6};
ghost use Rattle.mesh_text.specs.Addresses.{ipv4_of, ipv6_of, address_of, address_text};

use crate::ip::Ip;
use mesh_base::Memory;
use std::alloc::Global;
use std::fmt::Write;
use std::net::{Ipv4Addr, Ipv6Addr};

/// The bytes of the longest IPv4 text: four numbers of three digits and three dots.
const LONGEST_IPV4: usize = 15;

/// The bytes of the longest canonical IPv6 text: eight fields of four digits and seven colons.
const LONGEST_IPV6: usize = 39;

#[tactic(auto, using(crate::proofs::AddressTexts::ipv4_read))]
fn read_ipv4(text: &[u8]) -> Option<u32>
    ensures { result ≡ ipv4_of text.now }
{
    match Ipv4Addr::parse_ascii(text) {
        Ok(address) => Some(address.to_bits()),
        Err(_) => None,
    }
}

/// `parse_ascii` also takes a text whose last two fields are written as an IPv4 address, so a text
/// with a `.` is refused here.
#[tactic(auto, using(crate::proofs::AddressTexts::ipv6_read, crate::proofs::AddressTexts::ipv6_dotted))]
fn read_ipv6(text: &[u8]) -> Option<u128>
    ensures { result ≡ ipv6_of text.now }
{
    if text.contains(&b'.') {
        return None;
    }
    match Ipv6Addr::parse_ascii(text) {
        Ok(address) => Some(address.to_bits()),
        Err(_) => None,
    }
}

/// The address that a text writes.
///
/// An IPv4 text has four decimal numbers from 0 to 255 without leading zeros, joined by `.`. An
/// IPv6 text is of form 1 or 2 of RFC 4291, section 2.2, so it has no dotted tail, and it has no
/// zone. `None` exactly where the text is neither; it takes no memory.
#[tactic(auto, unfolding(crate::specs::Addresses::address_of))]
pub fn read_ip(text: &[u8]) -> Option<Ip>
    ensures { result ≡ address_of text.now }
{
    match read_ipv4(text) {
        Some(number) => Some(Ip::V4(number)),
        None => match read_ipv6(text) {
            Some(number) => Some(Ip::V6(number)),
            None => None,
        },
    }
}

#[tactic(auto, using(crate::proofs::AddressTexts::ipv4_written))]
fn write_ipv4(alloc: Global, number: u32) -> Result<Vec<u8>, Memory>
    ensures { IfOk result (λ v. v.items ≡ address_text (V4 number)) }
{
    let mut text = String::with_capacity(alloc, LONGEST_IPV4)?;
    write!(text, "{}", Ipv4Addr::from_bits(number))?;
    Ok(text.into_bytes())
}

#[tactic(auto, using(crate::proofs::AddressTexts::ipv6_written))]
fn write_ipv6(alloc: Global, number: u128) -> Result<Vec<u8>, Memory>
    ensures { IfOk result (λ v. v.items ≡ address_text (V6 number)) }
{
    let mut text = String::with_capacity(alloc, LONGEST_IPV6)?;
    write!(text, "{}", Ipv6Addr::from_bits(number).hex_groups())?;
    Ok(text.into_bytes())
}

/// The canonical text of an address, for IPv6 that of RFC 5952, section 4.
pub fn write_ip(alloc: Global, ip: Ip) -> Result<Vec<u8>, Memory>
    ensures { IfOk result (λ v. v.items ≡ address_text ip) }
{
    match ip {
        Ip::V4(number) => write_ipv4(alloc, number),
        Ip::V6(number) => write_ipv6(alloc, number),
    }
}
