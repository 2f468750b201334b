ghost use Rattle.std.specs.Prelude.{◌≡◌, map};
ghost use Rattle.conformance_vectors.specs.Published.{held_by, published_examples};

use crate::case::Case;

/// A text and the text of its canonical URL.
macro_rules! canon {
    ($url:expr, $text:expr) => {
        Case::Canon {
            url: $url,
            text: $text,
        }
    };
}

/// A text and the number of its fault.
macro_rules! refused {
    ($url:expr, $number:expr) => {
        Case::Refused {
            url: $url,
            number: $number,
        }
    };
}

/// A text and the lines of its expressions.
macro_rules! lines {
    ($url:expr, $lines:expr) => {
        Case::Expressions {
            url: $url,
            lines: $lines,
        }
    };
}

/// Numbers, and the parameter and the bytes of their record.
macro_rules! rice {
    ($values:expr, $parameter:expr, $coded:expr) => {
        Case::Rice {
            values: $values,
            parameter: $parameter,
            coded: $coded,
        }
    };
}

/// The published examples: canonical URLs and expressions as the Safe Browsing documentation has
/// them, on hosts that are reserved for examples, texts that are refused, Rice records, and hosts
/// of other scripts.
const PUBLISHED: [Case; 35] = [
    canon!(b"http://host/%25%32%35", b"http://host/%25"),
    canon!(
        b"http://host/%%%25%32%35asd%%",
        b"http://host/%25%25%25asd%25%25"
    ),
    canon!(
        b"http://.Warn..example.:8080/a/../b//c?x//y#f",
        b"http://warn.example/b/c?x//y"
    ),
    canon!(b"http://3221225985/blah", b"http://192.0.2.1/blah"),
    canon!(b"http://0300.0.01001/blah", b"http://192.0.2.1/blah"),
    canon!(b"http://256.1.1.1/", b"http://256.1.1.1/"),
    refused!(b"http:///x", 2),
    refused!(b"", 1),
    refused!(b" ", 1),
    lines!(
        b"http://a.b.c/1/2.html?param=1",
        b"a.b.c/1/2.html?param=1\na.b.c/1/2.html\na.b.c/\na.b.c/1/\nb.c/1/2.html?param=1\nb.c/1/2.html\nb.c/\nb.c/1/\n"
    ),
    lines!(b"http://192.0.2.1/1/", b"192.0.2.1/1/\n192.0.2.1/\n"),
    rice!(&[5, 9, 20], 2, b"\xb1\x01"),
    rice!(&[5, 16_777_216], 23, b"\xed\xff\xff\x01"),
    rice!(&[7], 0, b""),
    canon!(b"http://host/%25%32%35%25%32%35", b"http://host/%25%25"),
    canon!(b"http://host/%2525252525252525", b"http://host/%25"),
    canon!(
        b"http://host%23.example/a%2521b%2540c",
        b"http://host%23.example/a!b@c"
    ),
    canon!(b"warn.example", b"http://warn.example/"),
    canon!(b"http://.[2001:DB8::1]x/", b"http://[2001:db8::1]/"),
    canon!(
        b"http://warn.example/foo\tbar\rbaz\n2",
        b"http://warn.example/foobarbaz2"
    ),
    canon!(b"http://warn.example/q?r?s", b"http://warn.example/q?r?s"),
    canon!(b"http://warn.example/blah/..", b"http://warn.example/"),
    canon!(b"  http://warn.example/  ", b"http://warn.example/"),
    canon!(b"http:// warn.example/", b"http://%20warn.example/"),
    canon!(b"http://\x01\x80.example/", b"http://%01%80.example/"),
    canon!(
        b"https://user:pw@warn.example:8443/",
        b"https://warn.example/"
    ),
    canon!(
        b"http://warn.example/ab%23cd",
        b"http://warn.example/ab%23cd"
    ),
    canon!(
        b"http://warn.example//two?more//slashes",
        b"http://warn.example/two?more//slashes"
    ),
    canon!(b"http://[2001:DB8::1]:80/", b"http://[2001:db8::1]/"),
    canon!(b"http://0x7f.1/", b"http://127.0.0.1/"),
    canon!(
        b"http://b%C3%BCcher.example/",
        b"http://xn--bcher-kva.example/"
    ),
    canon!(
        b"http://%EF%BC%91%EF%BC%92%EF%BC%97.0.0.1/",
        b"http://127.0.0.1/"
    ),
    canon!(b"http://a%E3%80%82example/", b"http://a.example/"),
    canon!(b"http://%EF%BC%85.example/", b"http://%EF%BC%85.example/"),
    canon!(b"http://%80.example/", b"http://%80.example/"),
];

/// The published examples, in the order of `specs/Published.antt`.
pub fn published_cases() -> [Case; 35]
    ensures { map held_by result ≡ published_examples }
{
    PUBLISHED
}
