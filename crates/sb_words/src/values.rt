ghost use Rattle.std.specs.Prelude.{◌≡◌, ◌≤◌, ◌+◌, IfSome, Some, map, option_map};
ghost use Rattle.std.specs.Char.{is_ascii_digit};
ghost use Rattle.std.specs.List.{list_all};
ghost use Rattle.sb_words.specs.CommandLine.{is_value};
ghost use Rattle.sb_words.specs.Values.{host_and_port, host_port_of, is_colon, is_host as is_host_text, is_host_byte as is_byte_of_host, is_key, is_closing, is_ipv6 as is_ipv6_text, is_ipv6_byte as is_byte_of_ipv6, is_key_byte as is_byte_of_key, is_numeral as is_numeral_text, cut_at, listen_address_of, listening_at, listening_in, number_of, port_after_colon as port_of, within};

/// Whether a text is not empty and does not begin with a dash.
fn is_plain(text: &[u8]) -> bool
    ensures { result ≡ is_value text.now }
{
    match text {
        [] => false,
        [first, ..] => *first != b'-',
    }
}

// ---- numbers

fn are_digits(text: &[u8]) -> bool
    ensures { result ≡ list_all is_ascii_digit text.now }
{
    text.iter().all(u8::is_ascii_digit)
}

/// Whether a text is `0`, or digits that do not begin with 0.
fn is_numeral(text: &[u8]) -> bool
    ensures { result ≡ is_numeral_text text.now }
{
    are_digits(text) && !text.is_empty() && (text.len() == 1 || text[0] != b'0')
}

fn if_within(low: u64, high: u64, number: u64) -> Option<u64>
    ensures value { result ≡ within low high number }
    ensures range { IfSome result (λ n. (low ≤ n) × (n ≤ high)) }
{
    if low <= number && number <= high {
        Some(number)
    } else {
        None
    }
}

/// The number that a text is, in decimal digits without a leading zero, where it is from `low` to `high`.
pub fn number(text: &str, low: u64, high: u64) -> Option<u64>
    ensures value { result ≡ number_of low high text.now }
    ensures range { IfSome result (λ n. (low ≤ n) × (n ≤ high)) }
{
    if !is_numeral(text.as_bytes()) {
        return None;
    }
    match text.parse::<u64>() {
        Ok(number) => if_within(low, high, number),
        Err(_) => None,
    }
}

// ---- keys

fn is_key_byte(byte: u8) -> bool
    ensures { result ≡ is_byte_of_key byte }
{
    byte.is_ascii_alphanumeric() || byte == b'-' || byte == b'_'
}

fn are_key_bytes(text: &[u8]) -> bool
    ensures { result ≡ list_all is_byte_of_key text.now }
{
    text.iter().all(|byte| is_key_byte(*byte))
}

/// Whether a text is a key: letters, digits, `-` and `_`, of which the first is no `-`.
pub fn key(text: &str) -> bool
    ensures { result ≡ is_key text.now }
{
    let bytes = text.as_bytes();
    is_plain(bytes) && are_key_bytes(bytes)
}

// ---- addresses

/// A host and a port.
#[derive(Clone, Copy, Debug)]
pub struct HostPort<'a> {
    pub host: &'a str,
    pub port: u16,
}

fn is_host_byte(byte: u8) -> bool
    ensures { result ≡ is_byte_of_host byte }
{
    byte.is_ascii_alphanumeric() || byte == b'.' || byte == b'-'
}

fn are_host_bytes(text: &[u8]) -> bool
    ensures { result ≡ list_all is_byte_of_host text.now }
{
    text.iter().all(|byte| is_host_byte(*byte))
}

fn is_host(text: &[u8]) -> bool
    ensures { result ≡ is_host_text text.now }
{
    is_plain(text) && are_host_bytes(text)
}

/// The address of a host and a port.
fn address<'a>(host: &'a str, port: &str) -> Option<HostPort<'a>>
    ensures { option_map (λ a. (a.host.now, a.port)) result ≡ host_and_port host.entry.now port.now }
{
    if !is_host(host.as_bytes()) {
        return None;
    }
    let Some(port) = number(port, 1, 65535) else {
        return None;
    };
    Some(HostPort {
        host,
        port: port as u16,
    })
}

/// The host and the port of `HOST:PORT`. HOST is letters, digits, `.` and `-`, of which the first is no `-`; PORT is
/// 1 to 65535, in decimal digits without a leading zero.
pub fn host_port(text: &str) -> Option<HostPort<'_>>
    ensures { option_map (λ a. (a.host.now, a.port)) result ≡ host_port_of text.entry.now }
{
    let Some((host, port)) = text.split_once(':') else {
        return None;
    };
    address(host, port)
}

// ---- addresses at which connections come in

/// The address of a host and any port.
fn any_port<'a>(host: &'a str, port: &str) -> Option<HostPort<'a>>
    ensures { option_map (λ a. (a.host.now, a.port)) result ≡ listening_at host.entry.now port.now }
{
    if !is_host(host.as_bytes()) {
        return None;
    }
    let Some(port) = number(port, 0, 65535) else {
        return None;
    };
    Some(HostPort {
        host,
        port: port as u16,
    })
}

/// The address that `HOST:PORT` is, with any port.
fn plain_address(text: &str) -> Option<HostPort<'_>>
    ensures { option_map (λ a. (a.host.now, a.port)) result ≡ cut_at is_colon listening_at text.entry.now }
{
    let Some((host, port)) = text.split_once(':') else {
        return None;
    };
    any_port(host, port)
}

fn is_ipv6_byte(byte: u8) -> bool
    ensures { result ≡ is_byte_of_ipv6 byte }
{
    byte.is_ascii_hexdigit() || byte == b':' || byte == b'.'
}

fn are_ipv6_bytes(text: &[u8]) -> bool
    ensures { result ≡ list_all is_byte_of_ipv6 text.now }
{
    text.iter().all(|byte| is_ipv6_byte(*byte))
}

fn is_ipv6(text: &[u8]) -> bool
    ensures { result ≡ is_ipv6_text text.now }
{
    !text.is_empty() && are_ipv6_bytes(text)
}

/// The port after a colon.
fn port_after_colon(text: &str) -> Option<u64>
    ensures value { result ≡ port_of text.now }
    ensures range { IfSome result (λ n. n ≤ 65535) }
{
    match text.strip_prefix(':') {
        Some(port) => number(port, 0, 65535),
        None => None,
    }
}

/// The address of an IPv6 address, and of what stands after its closing bracket.
fn ipv6_port<'a>(host: &'a str, rest: &str) -> Option<HostPort<'a>>
    ensures { option_map (λ a. (a.host.now, a.port)) result ≡ listening_in host.entry.now rest.now }
{
    if !is_ipv6(host.as_bytes()) {
        return None;
    }
    let Some(port) = port_after_colon(rest) else {
        return None;
    };
    Some(HostPort {
        host,
        port: port as u16,
    })
}

/// The address that `IPV6]:PORT` is.
fn bracketed_address(text: &str) -> Option<HostPort<'_>>
    ensures { option_map (λ a. (a.host.now, a.port)) result ≡ cut_at is_closing listening_in text.entry.now }
{
    let Some((host, rest)) = text.split_once(']') else {
        return None;
    };
    ipv6_port(host, rest)
}

/// The host and the port of an address at which connections come in: `HOST:PORT`, with HOST as for [`host_port`], or
/// `[IPV6]:PORT`, with one or more hexadecimal digits, `:` and `.` between the brackets. PORT is 0 to 65535, in decimal
/// digits without a leading zero. The host is answered without its brackets.
pub fn listen_address(text: &str) -> Option<HostPort<'_>>
    ensures { option_map (λ a. (a.host.now, a.port)) result ≡ listen_address_of text.entry.now }
{
    match text.strip_prefix('[') {
        Some(rest) => bracketed_address(rest),
        None => plain_address(text),
    }
}
