/// An IP address as a number, the first byte of the address as its highest byte.
///
/// Every IPv4 address comes before every IPv6 address; within a family the smaller number comes
/// first.
#[derive(Clone, Copy, Debug, PartialEq, Eq, PartialOrd, Ord, Hash)]
pub enum Ip {
    V4(u32),
    V6(u128),
}
