ghost use Rattle.std.specs.Prelude.{◌≡◌, ◌⊎◌, ◌++◌, Ok, Err, IfOk, IfErr, OnOk, filter_map, option_to_list};
ghost use Rattle.sb_model.specs.Names.{platform_with_code, entry_with_code};
ghost use Rattle.proto_messages.specs.Numbers as spec_number;
ghost use Rattle.proto_messages.specs.Find as spec;
ghost use Rattle.proto_messages.specs.Parts.{fields_of_part};

use crate::PartFault;
use crate::numbers::{OTHER_SOCIAL, SOCIAL, entry_numbered, platform_numbered, threat_numbered};
use crate::part::Part;
use crate::rows::numbers_row;
use sb_json::Field;
use sb_model::{EntryType, OutOfMemory, PlatformType, Row, ThreatType};
use std::alloc::Global;

/// The types of the lists that are asked, and the number by which SOCIAL_ENGINEERING is asked.
#[derive(Drop)]
pub(crate) struct NumberedTypes {
    pub threats: Row<ThreatType>,
    pub platforms: Row<PlatformType>,
    pub entries: Row<EntryType>,
    pub social: u64,
}

/// Appends what is there.
fn push_some<T: Drop>(found: &mut Row<T>, item: Option<T>) -> Result<(), OutOfMemory>
    ensures { OnOk result (found.new ≡ found.old ++ option_to_list item) }
{
    match item {
        Some(item) => found.push(item),
        None => Ok(()),
    }
}

#[tactic(auto, using(crate::proofs::RowFacts::some_more, crate::proofs::RowFacts::no_more))]
fn threats_numbered(alloc: Global, numbers: &[u64]) -> Result<Row<ThreatType>, OutOfMemory>
    ensures { IfOk result (λ found. found ≡ filter_map spec_number.threat_numbered numbers.now) }
{
    let mut found = Row::new(alloc);
    let mut rest = numbers;
    while let Some((number, more)) = rest.split_first() {
        push_some(&mut found, threat_numbered(*number))?;
        rest = more;
    }
    Ok(found)
}

#[tactic(auto, using(crate::proofs::RowFacts::some_more, crate::proofs::RowFacts::no_more))]
fn platforms_numbered(alloc: Global, numbers: &[u64]) -> Result<Row<PlatformType>, OutOfMemory>
    ensures { IfOk result (λ found. found ≡ filter_map platform_with_code numbers.now) }
{
    let mut found = Row::new(alloc);
    let mut rest = numbers;
    while let Some((number, more)) = rest.split_first() {
        push_some(&mut found, platform_numbered(*number))?;
        rest = more;
    }
    Ok(found)
}

#[tactic(auto, using(crate::proofs::RowFacts::some_more, crate::proofs::RowFacts::no_more))]
fn entries_numbered(alloc: Global, numbers: &[u64]) -> Result<Row<EntryType>, OutOfMemory>
    ensures { IfOk result (λ found. found ≡ filter_map entry_with_code numbers.now) }
{
    let mut found = Row::new(alloc);
    let mut rest = numbers;
    while let Some((number, more)) = rest.split_first() {
        push_some(&mut found, entry_numbered(*number))?;
        rest = more;
    }
    Ok(found)
}

/// Whether a number names SOCIAL_ENGINEERING.
fn is_social(number: u64) -> bool
    ensures { result ≡ spec_number.is_social number }
{
    number == SOCIAL || number == OTHER_SOCIAL
}

/// The first of some numbers that names SOCIAL_ENGINEERING, and its code if there is none.
fn social_among(numbers: &[u64]) -> u64
    ensures { result ≡ spec_number.social_among numbers.now }
{
    let mut rest = numbers;
    while let Some((number, more)) = rest.split_first() {
        if is_social(*number) {
            return *number;
        }
        rest = more;
    }
    SOCIAL
}

/// The types that some numbers name, without the numbers that name none.
fn types_numbered(
    alloc: Global,
    threats: &[u64],
    platforms: &[u64],
    entries: &[u64],
) -> Result<NumberedTypes, OutOfMemory>
    ensures { IfOk result (λ types. types ≡ spec.types_numbered threats.now platforms.now entries.now) }
{
    Ok(NumberedTypes {
        threats: threats_numbered(alloc, threats)?,
        platforms: platforms_numbered(alloc, platforms)?,
        entries: entries_numbered(alloc, entries)?,
        social: social_among(threats),
    })
}

/// The types of the lists that `threat_info` asks.
#[tactic(auto, unfolding(crate::specs::Find::types_of))]
pub(crate) fn types_of(alloc: Global, info: &Part<'_>) -> Result<NumberedTypes, PartFault>
    ensures ok { IfOk result (λ types. spec.types_of (fields_of_part info.now) ≡ Ok types) }
    ensures err { IfErr result (λ fault. (fault ≡ PartFault.OutOfMemory)
        ⊎ (spec.types_of (fields_of_part info.now) ≡ Err fault)) }
{
    let threats = numbers_row(alloc, info, Field::ThreatTypes, 1)?;
    let platforms = numbers_row(alloc, info, Field::PlatformTypes, 2)?;
    let entries = numbers_row(alloc, info, Field::ThreatEntryTypes, 4)?;
    Ok(types_numbered(
        alloc,
        threats.as_slice(),
        platforms.as_slice(),
        entries.as_slice(),
    )?)
}
