//! Values of words that no command shows.
use sb_model::{EntryType, ListName, PlatformType, ThreatType};
use sb_words::{HostPort, host_port, key, listen_address, lists, number};
use std::process::Abort;
use std::test::Fail;

#[test]
fn blanks_and_dashes_are_no_values(rt: HostRuntime) {
    for text in "|-|-a|a b|a\n|1 | 1|h :1|h:1 ".split('|') {
        assert!(rt; !key(text) && number(text, 0, 9).is_none(), "{text}");
        assert!(rt;
            host_port(text).is_none() && listen_address(text).is_none(),
            "{text}"
        );
    }
}

/// Sees that an address was read as this host and port, which a space parts.
fn is_read(rt: &impl Abort, address: Option<HostPort<'_>>, parts: &str) {
    let Some((host, port)) = parts.split_once(' ') else {
        panic!(rt; "no row");
    };
    let port = number(port, 0, 65535);
    assert!(rt;
        address.is_some_and(|a| a.host == host && Some(u64::from(a.port)) == port),
        "{parts}"
    );
}

/// Rows of an address and what it is read as, with an equals sign between.
#[test]
fn addresses_have_a_host_and_a_port(rt: HostRuntime) -> Result<(), Fail> {
    let rows =
        "h:1=h 1|127.0.0.1:8080=127.0.0.1 8080|Safe-Browsing.Example.:65535=Safe-Browsing.Example. 65535|.:80=. 80";
    for row in rows.split('|') {
        let (text, parts) = row.split_once('=').ok_or("no row")?;
        is_read(&rt, host_port(text), parts);
        is_read(&rt, listen_address(text), parts);
    }
    Ok(())
}

#[test]
fn connections_come_in_at_any_port_and_at_an_address_in_brackets(
    rt: HostRuntime,
) -> Result<(), Fail> {
    let rows =
        "h:0=h 0|0.0.0.0:65535=0.0.0.0 65535|[::1]:0=::1 0|[::ffff:192.0.2.1]:443=::ffff:192.0.2.1 443";
    for row in rows.split('|') {
        let (text, parts) = row.split_once('=').ok_or("no row")?;
        is_read(&rt, listen_address(text), parts);
    }
    Ok(())
}

#[test]
fn lists_stay_in_their_order(rt: HostRuntime) -> Result<(), Fail> {
    let words = ["UNWANTED_SOFTWARE/CHROME/EXECUTABLE", "MALWARE/OSX/URL"];
    let names = lists(rt.alloc(), words.as_slice())?.ok_or("refused")?;
    let expected = [
        ListName {
            threat: ThreatType::UnwantedSoftware,
            platform: PlatformType::Chrome,
            entry: EntryType::Executable,
        },
        ListName {
            threat: ThreatType::Malware,
            platform: PlatformType::Osx,
            entry: EntryType::Url,
        },
    ];
    assert!(rt; names.as_slice() == expected.as_slice());
    Ok(())
}
