use mesh_base::Memory;
use mesh_text::{
    ClusterName, Ip, Kind, NameFault, PartName, Text, escape, read_ip, read_number, unescape,
    write_ip,
};
use std::alloc::Global;
use std::test::Fail;
use test_cases::{Answers, Wrong, each_line_holds};

// From RFC 4291, section 2.2, and RFC 5952, sections 2 and 4; and last a run at the end, a single zero
// field, and an IPv4-mapped address.
const ADDRESSES: &str = "\
ABCD:EF01:2345:6789:ABCD:EF01:2345:6789 => abcd:ef01:2345:6789:abcd:ef01:2345:6789
2001:DB8:0:0:8:800:200C:417A => 2001:db8::8:800:200c:417a
FF01:0:0:0:0:0:0:101 => ff01::101
0:0:0:0:0:0:0:1 => ::1
0:0:0:0:0:0:0:0 => ::
FF01::101 => ff01::101
2001:db8:aaaa:bbbb:cccc:dddd:eeee:0001 => 2001:db8:aaaa:bbbb:cccc:dddd:eeee:1
2001:db8:aaaa:bbbb:cccc:dddd::1 => 2001:db8:aaaa:bbbb:cccc:dddd:0:1
2001:db8:0::1 => 2001:db8::1
2001:db8::aaaa:0:0:1 => 2001:db8::aaaa:0:0:1
2001:db8:0:0:aaaa::1 => 2001:db8::aaaa:0:0:1
2001:0db8::0001 => 2001:db8::1
2001:db8:0:0:0:0:2:1 => 2001:db8::2:1
2001:db8::0:1 => 2001:db8::1
2001:db8::1:1:1:1:1 => 2001:db8:0:1:1:1:1:1
2001:0:0:1:0:0:0:1 => 2001:0:0:1::1
2001:db8:0:0:1:0:0:1 => 2001:db8::1:0:0:1
0:0:1:0:0:0:0:0 => 0:0:1::
1:0:2:3:4:5:6:7 => 1:0:2:3:4:5:6:7
::ffff:102:304 => ::ffff:102:304
";

const NO_ADDRESSES: &str = "\
'' => none
01.2.3.4 => none
256.1.1.1 => none
1.2.3 => none
1.2.3.4.5 => none
1..2.3 => none
: => none
::: => none
1::2::3 => none
1:2:3:4:5:6:7 => none
1:2:3:4:5:6:7:8:9 => none
1:2:3:4:5:6:7:8:: => none
1:2:3:4::5:6:7:8 => none
:1:2:3:4:5:6:7 => none
12345:: => none
::g => none
::ffff:1.2.3.4 => none
::13.1.68.3 => none
fe80::1%eth0 => none
2001:db8::/32 => none
";

/// The text that a line asks of, where `''` is the empty one.
pub(crate) fn unquoted(asked: &str) -> &str {
    if asked == "''" { "" } else { asked }
}

fn text_of(alloc: Global, bytes: &[u8]) -> Result<String, Memory> {
    Ok(String::from_utf8_lossy(alloc, bytes)?)
}

/// The canonical text of the address that a text writes.
#[derive(Drop)]
struct Canonical;

impl Answers for Canonical {
    fn answer(&mut self, alloc: Global, asked: &str) -> Result<String, Memory> {
        let Some(ip) = read_ip(unquoted(asked).as_bytes()) else {
            return Ok("none".to_string(alloc)?);
        };
        let written = write_ip(alloc, ip)?;
        if read_ip(written.as_slice()) != Some(ip) {
            return Ok("another address when it is read again".to_string(alloc)?);
        }
        text_of(alloc, written.as_slice())
    }
}

#[test]
fn an_ipv6_text_is_printed_in_its_canonical_form(rt: HostRuntime) -> Result<(), Wrong> {
    each_line_holds(&mut Canonical, rt.alloc(), ADDRESSES)
}

#[test]
fn a_text_outside_the_grammar_is_no_address(rt: HostRuntime) -> Result<(), Wrong> {
    each_line_holds(&mut Canonical, rt.alloc(), NO_ADDRESSES)
}

const ADDRESS_NUMBERS: &str = "\
read 10.0.0.1 => V4 0A000001
read 255.255.255.255 => V4 FFFFFFFF
read :: => V6 00000000000000000000000000000000
read 2001:db8:0:0:0:0:0:1 => V6 20010DB8000000000000000000000001
write V4 AC120002 => 172.18.0.2
";

/// Addresses and their numbers in hexadecimal digits: `read` gives the number, `write` the text.
#[derive(Drop)]
struct AddressNumbers;

/// The family and the number of an address in hexadecimal digits.
pub(crate) fn number_of(alloc: Global, ip: Ip) -> Result<String, Memory> {
    Ok(match ip {
        Ip::V4(number) => format!(in alloc; "V4 {number:08X}")?,
        Ip::V6(number) => format!(in alloc; "V6 {number:032X}")?,
    })
}

fn address_of(number: &str) -> Option<Ip> {
    let (family, digits) = number.split_once(" ")?;
    match family {
        "V4" => Some(Ip::V4(u32::from_str_radix(digits, 16).ok()?)),
        "V6" => Some(Ip::V6(u128::from_str_radix(digits, 16).ok()?)),
        _ => None,
    }
}

fn read_number_of(alloc: Global, text: &str) -> Result<String, Memory> {
    match read_ip(text.as_bytes()) {
        Some(ip) => number_of(alloc, ip),
        None => Ok("none".to_string(alloc)?),
    }
}

fn write_address_of(alloc: Global, number: &str) -> Result<String, Memory> {
    match address_of(number) {
        Some(ip) => text_of(alloc, write_ip(alloc, ip)?.as_slice()),
        None => Ok("no number".to_string(alloc)?),
    }
}

impl Answers for AddressNumbers {
    fn answer(&mut self, alloc: Global, asked: &str) -> Result<String, Memory> {
        match asked.split_once(" ") {
            Some(("read", text)) => read_number_of(alloc, text),
            Some(("write", number)) => write_address_of(alloc, number),
            _ => Ok("neither read nor write".to_string(alloc)?),
        }
    }
}

#[test]
fn an_address_is_its_bytes_as_one_number(rt: HostRuntime) -> Result<(), Wrong> {
    each_line_holds(&mut AddressNumbers, rt.alloc(), ADDRESS_NUMBERS)
}

const NUMBERS: &str = "\
0 => 0
7 => 7
902 => 902
18446744073709551615 => 18446744073709551615
'' => none
18446744073709551616 => none
007 => none
00 => none
+1 => none
-1 => none
 1 => none
1a => none
";

#[derive(Drop)]
struct Numbers;

impl Answers for Numbers {
    fn answer(&mut self, alloc: Global, asked: &str) -> Result<String, Memory> {
        Ok(match read_number(unquoted(asked).as_bytes()) {
            Some(number) => number.to_string(alloc)?,
            None => "none".to_string(alloc)?,
        })
    }
}

#[test]
fn a_number_is_canonical_decimal_of_64_bits(rt: HostRuntime) -> Result<(), Wrong> {
    each_line_holds(&mut Numbers, rt.alloc(), NUMBERS)
}

const CLUSTER_NAMES: &str = "\
'' => Empty
abcdefghijklmnopqrstuvwxyz0123456 => TooLong { len: 33 }
East => BadByte { at: 0 }
-ea.st- => BadByte { at: 3 }
- => BadEnd { at: 0 }
-east- => BadEnd { at: 0 }
east- => BadEnd { at: 4 }
abcdefghijklmnopqrstuvwxyz-01234 => abcdefghijklmnopqrstuvwxyz-01234
east => east
";

const PART_NAMES: &str = "\
-web.0 => -web.0
'' => Empty
a/b => BadByte { at: 1 }
253 a => a name
254 a => TooLong { len: 254 }
";

fn name_told(alloc: Global, read: Result<String, NameFault>) -> Result<String, Memory> {
    match read {
        Ok(name) => Ok(name),
        Err(NameFault::Memory) => Err(Memory),
        Err(fault) => Ok(format!(in alloc; "{fault:?}")?),
    }
}

/// The bytes of a cluster name that is copied as it was read, or why there is none.
#[derive(Drop)]
struct ClusterNames;

fn is_copied_so(name: &ClusterName) -> Result<bool, NameFault> {
    let copy = name.clone()?;
    Ok(copy == *name)
}

fn cluster_name(alloc: Global, text: &str) -> Result<String, NameFault> {
    let name = ClusterName::read(alloc, text.as_bytes())?;
    if is_copied_so(&name)? {
        return Ok(String::from_utf8_lossy(alloc, name.as_bytes())?);
    }
    Ok("copied otherwise".to_string(alloc)?)
}

impl Answers for ClusterNames {
    fn answer(&mut self, alloc: Global, asked: &str) -> Result<String, Memory> {
        name_told(alloc, cluster_name(alloc, unquoted(asked)))
    }
}

#[test]
fn the_first_fault_of_a_cluster_name_is_answered(rt: HostRuntime) -> Result<(), Wrong> {
    each_line_holds(&mut ClusterNames, rt.alloc(), CLUSTER_NAMES)
}

/// The bytes of a part name, or why there is none; `253 a` asks of a name of so many bytes.
#[derive(Drop)]
struct PartNames;

fn part_name(alloc: Global, text: &str) -> Result<String, NameFault> {
    let name = PartName::read(alloc, text.as_bytes())?;
    Ok(String::from_utf8_lossy(alloc, name.as_bytes())?)
}

fn long_part_name(alloc: Global, length: &str, byte: &str) -> Result<String, NameFault> {
    let text = byte.repeat(alloc, length.parse().unwrap_or(0))?;
    let _name = PartName::read(alloc, text.as_bytes())?;
    Ok("a name".to_string(alloc)?)
}

impl Answers for PartNames {
    fn answer(&mut self, alloc: Global, asked: &str) -> Result<String, Memory> {
        let read = match asked.split_once(" ") {
            Some((length, byte)) => long_part_name(alloc, length, byte),
            None => part_name(alloc, unquoted(asked)),
        };
        name_told(alloc, read)
    }
}

#[test]
fn a_part_name_may_have_dots_and_begin_with_a_dash(rt: HostRuntime) -> Result<(), Wrong> {
    each_line_holds(&mut PartNames, rt.alloc(), PART_NAMES)
}

const WORDS: &str = "\
- => [], both ways
%2D => [45], both ways
-- => [45, 45], both ways
a%20b => [97, 32, 98], both ways
100%25 => [49, 48, 48, 37], both ways
!~%7F => [33, 126, 127], both ways
%00%0A%FF => [0, 10, 255], both ways
%2d%fF => [45, 255]
'' => none
% => none
%2 => none
a%2 => none
%G1 => none
%1g => none
";

/// The bytes that a word stands for and whether escaping them gives it again.
#[derive(Drop)]
struct Words;

fn is_escaped_so(alloc: Global, bytes: &[u8], word: &str) -> Result<bool, Memory> {
    let escaped = escape(alloc, bytes)?;
    Ok(escaped.as_slice() == word.as_bytes())
}

fn bytes_told(alloc: Global, bytes: &[u8], word: &str) -> Result<String, Memory> {
    if is_escaped_so(alloc, bytes, word)? {
        return Ok(format!(in alloc; "{bytes:?}, both ways")?);
    }
    Ok(format!(in alloc; "{bytes:?}")?)
}

impl Answers for Words {
    fn answer(&mut self, alloc: Global, asked: &str) -> Result<String, Memory> {
        let Some(bytes) = unescape(alloc, unquoted(asked).as_bytes())? else {
            return Ok("none".to_string(alloc)?);
        };
        bytes_told(alloc, bytes.as_slice(), asked)
    }
}

#[test]
fn escaped_bytes_are_one_word(rt: HostRuntime) -> Result<(), Wrong> {
    each_line_holds(&mut Words, rt.alloc(), WORDS)
}

const TEXTS: &str = "\
grüße => grüße
";

/// The copy of a text.
#[derive(Drop)]
struct Texts;

impl Answers for Texts {
    fn answer(&mut self, alloc: Global, asked: &str) -> Result<String, Memory> {
        let text = Text::from_str(alloc, asked)?;
        let copy = text.clone()?;
        if copy != text || text.as_str() != asked || text.as_bytes() != asked.as_bytes() {
            return Ok("another text".to_string(alloc)?);
        }
        Ok(copy.into_string())
    }
}

const ORDERS: &str = "\
addresses 255.255.255.255 :: => before
addresses 0.0.0.1 0.0.0.2 => before
clusters abcdefghijklmnopqrstuvwxyz-01234 east => before
texts grus grüße => before
";

/// Whether the first of two values comes before the second, by what they are.
#[derive(Drop)]
struct Orders;

fn order<T: PartialOrd>(first: &T, second: &T) -> &'static str {
    if first < second {
        "before"
    } else {
        "not before"
    }
}

fn address_order(first: &str, second: &str) -> &'static str {
    match (read_ip(first.as_bytes()), read_ip(second.as_bytes())) {
        (Some(first), Some(second)) => order(&first, &second),
        _ => "no address",
    }
}

fn cluster_order(alloc: Global, first: &str, second: &str) -> Result<String, NameFault> {
    let first = ClusterName::read(alloc, first.as_bytes())?;
    let second = ClusterName::read(alloc, second.as_bytes())?;
    Ok(order(&first, &second).to_string(alloc)?)
}

fn text_order(alloc: Global, first: &str, second: &str) -> Result<String, Memory> {
    let first = Text::from_str(alloc, first)?;
    let second = Text::from_str(alloc, second)?;
    Ok(order(&first, &second).to_string(alloc)?)
}

impl Answers for Orders {
    fn answer(&mut self, alloc: Global, asked: &str) -> Result<String, Memory> {
        let (what, both) = asked.split_once(" ").unwrap_or((asked, ""));
        let (first, second) = both.split_once(" ").unwrap_or((both, ""));
        match what {
            "addresses" => Ok(address_order(first, second).to_string(alloc)?),
            "clusters" => name_told(alloc, cluster_order(alloc, first, second)),
            "texts" => text_order(alloc, first, second),
            _ => Ok("nothing known".to_string(alloc)?),
        }
    }
}

#[test]
fn ipv4_addresses_come_before_ipv6_addresses(rt: HostRuntime) -> Result<(), Fail> {
    each_line_holds(&mut Orders, rt.alloc(), ORDERS)?;
    assert!(rt; Kind::Nodes < Kind::Services && Kind::Identities < Kind::Addresses);
    Ok(())
}

#[test]
fn texts_compare_in_byte_order(rt: HostRuntime) -> Result<(), Wrong> {
    each_line_holds(&mut Texts, rt.alloc(), TEXTS)
}
