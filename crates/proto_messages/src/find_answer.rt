ghost use Rattle.std.specs.Prelude.{◌≡◌, ◌++◌, map, IfOk, OnOk};
ghost use Rattle.proto_wire.specs.Spelling.{written_field, written_fields};
ghost use Rattle.proto_messages.specs.Writing as spec;

use crate::writing::{push_duration, push_wrapped};
use hash_messages::{FindResponse, Match};
use proto_wire::{push_bytes, push_number};
use sb_model::{Bytes, OutOfMemory, ThreatType};
use std::alloc::Global;

/// The number of a threat type, if `social` is that of SOCIAL_ENGINEERING.
fn threat_number(social: u64, threat: ThreatType) -> u64
    ensures { result ≡ spec.threat_number social threat }
{
    match threat {
        ThreatType::SocialEngineering => social,
        _ => u64::from(threat.code()),
    }
}

/// The fields of a match.
fn match_body(alloc: Global, social: u64, found: &Match) -> Result<Bytes, OutOfMemory>
    ensures { IfOk result (λ body. body ≡ written_fields (spec.match_fields social found.now)) }
{
    let mut body = Bytes::new(alloc);
    push_number(&mut body, 1, threat_number(social, found.name.threat))?;
    push_number(&mut body, 2, u64::from(found.name.platform.code()))?;
    push_wrapped(&mut body, 3, 1, &found.hash.bytes)?;
    push_duration(&mut body, 5, found.cache)?;
    push_number(&mut body, 6, u64::from(found.name.entry.code()))?;
    Ok(body)
}

/// Appends a match.
fn push_match(alloc: Global, out: &mut Bytes, social: u64, found: &Match) -> Result<(), OutOfMemory>
    ensures { OnOk result (out.new ≡ out.old ++ written_field (spec.match_field social found.now)) }
{
    let body = match_body(alloc, social, found)?;
    push_bytes(out, 1, body.as_slice())
}

/// Appends matches.
#[tactic(auto, using(crate::proofs::WritingFacts::matches_more, crate::proofs::WritingFacts::with_nothing))]
fn push_matches(
    alloc: Global,
    out: &mut Bytes,
    social: u64,
    matches: &[Match],
) -> Result<(), OutOfMemory>
    ensures { OnOk result (out.new ≡ out.old ++ written_fields (map (spec.match_field social) matches.now)) }
{
    let mut rest = matches;
    while let Some((found, more)) = rest.split_first() {
        push_match(alloc, out, social, found)?;
        rest = more;
    }
    Ok(())
}

/// Writes the answer to a find request (`FindFullHashesResponse`), with the number by which the request asks for SOCIAL_ENGINEERING:
/// that of `NumberedFind`. A threat of another type has its own code. Its one fault is `OutOfMemory`.
#[tactic(auto, unfolding(crate::specs::Writing::find_answer_bytes))]
pub fn write_matches(
    alloc: Global,
    message: &FindResponse,
    social: u64,
) -> Result<Bytes, OutOfMemory>
    ensures { IfOk result (λ bytes. bytes ≡ spec.find_answer_bytes social message.now) }
{
    let mut out = Bytes::new(alloc);
    push_matches(alloc, &mut out, social, message.matches.as_slice())?;
    push_duration(&mut out, 2, message.wait)?;
    push_duration(&mut out, 3, message.negative)?;
    Ok(out)
}
