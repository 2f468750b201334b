//! Checks as text.
use crate::lists::MALWARE;
use hash_prefixes::append_hex;
use sb_model::{Bytes, OutOfMemory};
use std::alloc::Global;
use url_checker::{Checked, Finding, Hit};

fn push_hit(text: &mut Bytes, hit: &Hit) -> Result<(), OutOfMemory> {
    text.append(if hit.list == MALWARE {
        b" malware "
    } else {
        b" phishing "
    })?;
    append_hex(text, hit.prefix.as_bytes())
}

fn push_hits(text: &mut Bytes, hits: &[Hit]) -> Result<(), OutOfMemory> {
    for hit in hits {
        push_hit(text, hit)?;
    }
    Ok(())
}

/// Appends a finding: the number of its publication, the text of its URL, and its hits.
pub fn push_finding(text: &mut Bytes, finding: &Finding) -> Result<(), OutOfMemory> {
    text.append_decimal(finding.number)?;
    text.push(b' ')?;
    text.append(finding.text.as_slice())?;
    push_hits(text, finding.hits.as_slice())?;
    text.push(b'\n')
}

fn push_check(text: &mut Bytes, check: &Checked) -> Result<(), OutOfMemory> {
    match check {
        Checked::Found(finding) => push_finding(text, finding),
        Checked::Refused(_) => text.append(b"refused\n"),
    }
}

/// A line for each check.
pub fn shown(alloc: Global, checks: &[Checked]) -> Option<Bytes> {
    let mut text = Bytes::new(alloc);
    for check in checks {
        push_check(&mut text, check).ok()?;
    }
    Some(text)
}
