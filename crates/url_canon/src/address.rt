ghost use Rattle.std.specs.Prelude.{◌≡◌, ℕ, List, Some, ◌↔◌, ◌+◌, ◌*◌, ◌^◌, ◌≤◌, ◌<◌, ◌++◌, min, option_map, OnOk, IfSome};
ghost use Rattle.std.specs.List.{slice_split};
ghost use Rattle.url_canon.specs.Address.{IsAddressOf, number_in_base, number_of_part, address_in, address_of, address_text};
ghost use Rattle.url_canon.specs.Words.{is_dot};

use crate::split::split_at_byte;
use crate::unescape::hex_value;
use sb_model::{Bytes, OutOfMemory};

/// One more than the greatest IPv4 address.
const ADDRESSES: u64 = 0x1_0000_0000;

/// The number that digits of a base spell, or `ADDRESSES` where it is greater.
fn number_in(base: u64, digits: &[u8]) -> Option<u64>
    requires some { 0 < base }
    requires most { base ≤ 16 }
    ensures { result ≡ option_map (λ number. min number ADDRESSES) (number_in_base base digits.now) }
{
    if digits.is_empty() {
        return None;
    }
    let mut number = 0;
    for byte in digits {
        let digit = u64::from(hex_value(*byte)?);
        if digit >= base {
            return None;
        }
        number = (base * number + digit).min(ADDRESSES);
    }
    Some(number)
}

/// The number that a part of a host spells, or `ADDRESSES` where it is greater: in hexadecimal
/// digits after `0x`, in octal digits after a 0, and else in decimal digits.
#[tactic(auto, unfolding(crate::specs::Address::number_of_part))]
fn number_of(part: &[u8]) -> Option<u64>
    ensures { result ≡ option_map (λ number. min number ADDRESSES) (number_of_part part.now) }
{
    if part.starts_with(b"0x") || part.starts_with(b"0X") {
        number_in(16, &part[2..])
    } else if part.starts_with(b"0") && part.len() > 1 {
        number_in(8, &part[1..])
    } else {
        number_in(10, part)
    }
}

/// How many addresses of so many bytes there are.
fn count_addresses(width: u32) -> u64
    requires { width ≤ 4 }
    ensures { result ≡ 256 ^ width }
{
    256u64.pow(width)
}

/// The address of so many bytes that the parts of a name stand for.
fn address_in(width: u32, name: &[u8]) -> Option<u64>
    requires { width ≤ 4 }
    ensures value { result ≡ address_in width (slice_split is_dot name.now) }
    ensures fits { IfSome result (λ address. address < 256 ^ width) }
{
    if width == 0 {
        return None;
    }
    let (part, more) = split_at_byte(name, b'.');
    let number = number_of(part)?;
    let Some(rest) = more else {
        let fits = number < count_addresses(width);
        return if fits { Some(number) } else { None };
    };
    let low = address_in(width - 1, rest)?;
    if number < 256 {
        Some(number * count_addresses(width - 1) + low)
    } else {
        None
    }
}

/// The IPv4 address that a host's name stands for: one to four numbers, separated by dots, of which
/// each but the last is one byte, and the last fills the bytes that are left.
#[tactic(auto, unfolding(crate::specs::Address::address_of))]
pub fn address_of(name: &[u8]) -> Option<u64>
    ensures value { result ≡ address_of name.now }
    ensures fits { IfSome result (λ address. address < 2 ^ 32) }
{
    address_in(4, name)
}

/// Appends an address as four decimals, separated by dots.
#[tactic(auto, unfolding(crate::specs::Address::address_text))]
pub fn append_address(out: &mut Bytes, address: u64) -> Result<(), OutOfMemory>
    requires { address < 2 ^ 32 }
    ensures { OnOk result (out.new ≡ out.old ++ address_text address) }
{
    out.append_decimal(address / 0x100_0000)?;
    out.push(b'.')?;
    out.append_decimal(address / 0x1_0000 % 256)?;
    out.push(b'.')?;
    out.append_decimal(address / 256 % 256)?;
    out.push(b'.')?;
    out.append_decimal(address % 256)
}

/// The address of a name is that of the four bytes that the numbers of its parts stand for, and no
/// name has an address of more.
pub fn address_has_four_bytes()
    ensures bytes { (host : List ℕ) (a b c d : ℕ) → a < 256 → b < 256 → c < 256 → d < 256
        → (address_of host ≡ Some (((a * 256 + b) * 256 + c) * 256 + d))
        ↔ IsAddressOf host a b c d }
    ensures fits { (host : List ℕ) (address : ℕ)
        → address_of host ≡ Some address → address < 2 ^ 32 }
{}
