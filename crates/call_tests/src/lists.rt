//! The lists that the tests publish, and the URLs that they check.
ghost use Rattle.std.specs.Prelude.{◌≡◌, ◌+◌, length, IfSome, OnOk};

use input_lines::Lines;
use sb_model::{Bytes, EntryType, ListName, OutOfMemory, PlatformType, Row, ThreatType};
use std::alloc::Global;
use update_client::ClientLists;
use update_messages::read_response;

pub const MALWARE: ListName = ListName {
    threat: ThreatType::Malware,
    platform: PlatformType::AnyPlatform,
    entry: EntryType::Url,
};

const PHISHING: ListName = ListName {
    threat: ThreatType::SocialEngineering,
    platform: PlatformType::AnyPlatform,
    entry: EntryType::Url,
};

// The SHA-256 of "a.example/" is 6fd0ae0f361afd6ad3d194b15903ff71bd2f5f3ab0a19c12328eb742ba442018, and that of "b.example/" begins with
// f8a16db611f02ed6.

/// The first list has 4 bytes of both, and the second 5 bytes of the second hash.
pub const FIRST: &[u8] =
    b"{\"listUpdateResponses\":[{\"additions\":[{\"compressionType\":\"RAW\",\"rawHashes\":{\"prefixSize\":4,\"rawHashes\":\"b9CuD/ihbbY=\"}}],\"checksum\":{\"sha256\":\"Bc/6bUPJezrH5073aHxr1+BKEEdCPAVOz+2XyJnVYhg=\"},\"newClientState\":\"AQ==\",\"platformType\":\"ANY_PLATFORM\",\"responseType\":\"FULL_UPDATE\",\"threatEntryType\":\"URL\",\"threatType\":\"MALWARE\"},{\"additions\":[{\"compressionType\":\"RAW\",\"rawHashes\":{\"prefixSize\":5,\"rawHashes\":\"+KFtthE=\"}}],\"checksum\":{\"sha256\":\"5fijYnGpyENRB2A1BIiEXO9oRcBIEIX8pBLv1dll/NI=\"},\"newClientState\":\"AQ==\",\"platformType\":\"ANY_PLATFORM\",\"responseType\":\"FULL_UPDATE\",\"threatEntryType\":\"URL\",\"threatType\":\"SOCIAL_ENGINEERING\"}]}";

/// The first list has 6 bytes of the first hash, and the second all of it and 8 bytes of the second.
pub const SECOND: &[u8] =
    b"{\"listUpdateResponses\":[{\"additions\":[{\"compressionType\":\"RAW\",\"rawHashes\":{\"prefixSize\":6,\"rawHashes\":\"b9CuDzYa\"}}],\"checksum\":{\"sha256\":\"sYxVje4ymIWiZoA+vGV7gHx3pDXkkyirxtbZAvolPTM=\"},\"newClientState\":\"AQ==\",\"platformType\":\"ANY_PLATFORM\",\"responseType\":\"FULL_UPDATE\",\"threatEntryType\":\"URL\",\"threatType\":\"MALWARE\"},{\"additions\":[{\"compressionType\":\"RAW\",\"rawHashes\":{\"prefixSize\":8,\"rawHashes\":\"+KFtthHwLtY=\"}},{\"compressionType\":\"RAW\",\"rawHashes\":{\"prefixSize\":32,\"rawHashes\":\"b9CuDzYa/WrT0ZSxWQP/cb0vXzqwoZwSMo63QrpEIBg=\"}}],\"checksum\":{\"sha256\":\"Jr7F1Rtkh57aHDSK6QIStrBS6avSc/O2wfvQyDQ/67A=\"},\"newClientState\":\"AQ==\",\"platformType\":\"ANY_PLATFORM\",\"responseType\":\"FULL_UPDATE\",\"threatEntryType\":\"URL\",\"threatType\":\"SOCIAL_ENGINEERING\"}]}";

/// Two lists with what a response adds.
pub fn lists(alloc: Global, body: &[u8]) -> Option<ClientLists> {
    let mut lists = ClientLists::new(alloc, &[MALWARE, PHISHING]).ok()?;
    let response = read_response(alloc, body).ok()?;
    lists.take(alloc, &response).ok()?;
    Some(lists)
}

// Appends a URL with a host of its own letter.
fn push_url(urls: &mut Row<Bytes>, alloc: Global, host: u8, number: u64) -> Result<(), OutOfMemory>
    ensures { OnOk result (length urls.new ≡ length urls.old + 1) }
{
    let mut url = Bytes::from_slice(alloc, b"http://")?;
    url.push(host)?;
    url.append(b".example/")?;
    url.append_decimal(number)?;
    urls.push(url)
}

/// So many URLs with the hosts a, b and c in turn.
pub fn urls(alloc: Global, count: u64) -> Option<Row<Bytes>>
    ensures { IfSome result (λ urls. length urls ≡ count) }
{
    let mut urls = Row::new(alloc);
    for number in 0..count {
        push_url(&mut urls, alloc, b'a' + (number % 3) as u8, number).ok()?;
    }
    Some(urls)
}

/// URLs as lines that are lent.
pub fn lent(alloc: Global, urls: &[Bytes]) -> Option<Lines<'_>>
    ensures { IfSome result (λ lines. lines ≡ urls.now) }
{
    let mut lines = Lines::new(alloc);
    for url in urls {
        lines.push(url.as_slice()).ok()?;
    }
    Some(lines)
}
