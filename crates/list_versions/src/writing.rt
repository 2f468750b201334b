ghost use Rattle.std.specs.Prelude.{◌≡◌, [], ◌∷◌, ◌++◌, length, take, decimal, OnOk, OnErr};
ghost use Rattle.std.specs.List.{flat_map};
ghost use Rattle.sb_model.specs.Names.{text_of};
ghost use Rattle.list_versions.specs.Lines.{newline};
ghost use Rattle.list_versions.specs.Written.{header_line, declaration_line, change_line, add_line, remove_line, change_text};

use crate::Header;
use hash_prefixes::append_hex;
use sb_model::{Added, Bytes, Change, ListName, OutOfMemory};

// Appends the text of a list's name.
fn push_name(page: &mut Bytes, name: ListName) -> Result<(), OutOfMemory>
    ensures ok { OnOk result (page.new ≡ page.old ++ text_of name) }
    ensures front { OnErr result (take (length page.old) page.new ≡ page.old) }
{
    page.append(name.threat.word().as_bytes())?;
    page.push(b'/')?;
    page.append(name.platform.word().as_bytes())?;
    page.push(b'/')?;
    page.append(name.entry.word().as_bytes())
}

/// Appends the first line of a journal: of the second form where it is sized, and else of the first. After an `Err` the page
/// begins as it was.
pub fn push_header(page: &mut Bytes, header: Header) -> Result<(), OutOfMemory>
    ensures ok { OnOk result (page.new ≡ page.old ++ header_line header) }
    ensures front { OnErr result (take (length page.old) page.new ≡ page.old) }
{
    page.append(b"sblist ")?;
    page.push(if header.sized { b'2' } else { b'1' })?;
    page.push(b' ')?;
    append_hex(page, &header.epoch.to_be_bytes())?;
    page.push(b'\n')
}

/// Appends the line that declares a list with a prefix size in bytes. After an `Err` the page begins
/// as it was.
pub fn push_list(page: &mut Bytes, name: ListName, size: u8) -> Result<(), OutOfMemory>
    ensures ok { OnOk result (page.new ≡ page.old ++ declaration_line (name, size)) }
    ensures front { OnErr result (take (length page.old) page.new ≡ page.old) }
{
    page.append(b"list ")?;
    push_name(page, name)?;
    page.push(b' ')?;
    page.append_decimal(u64::from(size))?;
    page.push(b'\n')
}

// Appends two numbers, each after a space, and the end of a line.
fn push_counts(page: &mut Bytes, adds: u64, removes: u64) -> Result<(), OutOfMemory>
    ensures ok { OnOk result (page.new ≡ page.old ++ ((32 ∷ decimal adds) ++ (32 ∷ decimal removes) ++ newline ∷ [])) }
    ensures front { OnErr result (take (length page.old) page.new ≡ page.old) }
{
    page.push(b' ')?;
    page.append_decimal(adds)?;
    page.push(b' ')?;
    page.append_decimal(removes)?;
    page.push(b'\n')
}

// Appends the line that begins a change.
fn push_change_line(page: &mut Bytes, change: &Change) -> Result<(), OutOfMemory>
    ensures ok { OnOk result (page.new ≡ page.old ++ change_line change.now) }
    ensures front { OnErr result (take (length page.old) page.new ≡ page.old) }
{
    page.append(b"change ")?;
    push_name(page, change.list)?;
    push_counts(page, change.adds.len() as u64, change.removes.len() as u64)
}

// Appends a line that adds, with a size or without.
fn push_add(page: &mut Bytes, sized: bool, added: &Added) -> Result<(), OutOfMemory>
    ensures ok { OnOk result (page.new ≡ page.old ++ add_line sized added.now) }
    ensures front { OnErr result (take (length page.old) page.new ≡ page.old) }
{
    page.push(b'+')?;
    append_hex(page, &added.hash)?;
    if sized {
        page.push(b' ')?;
        page.append_decimal(u64::from(added.size))?;
    }
    page.push(b'\n')
}

// Appends a line that removes.
fn push_remove(page: &mut Bytes, hash: &[u8; 32]) -> Result<(), OutOfMemory>
    ensures ok { OnOk result (page.new ≡ page.old ++ remove_line hash.now) }
    ensures front { OnErr result (take (length page.old) page.new ≡ page.old) }
{
    page.push(b'-')?;
    append_hex(page, hash)?;
    page.push(b'\n')
}

// Appends the lines that add.
fn push_adds(page: &mut Bytes, sized: bool, adds: &[Added]) -> Result<(), OutOfMemory>
    ensures ok { OnOk result (page.new ≡ page.old ++ flat_map (add_line sized) adds.now) }
    ensures front { OnErr result (take (length page.old) page.new ≡ page.old) }
{
    for added in adds {
        push_add(page, sized, added)?;
    }
    Ok(())
}

// Appends the lines that remove.
fn push_removes(page: &mut Bytes, removes: &[[u8; 32]]) -> Result<(), OutOfMemory>
    ensures ok { OnOk result (page.new ≡ page.old ++ flat_map remove_line removes.now) }
    ensures front { OnErr result (take (length page.old) page.new ≡ page.old) }
{
    for hash in removes {
        push_remove(page, hash)?;
    }
    Ok(())
}

/// Appends a change: the line that begins it, and its hash lines, those that add first, which name their sizes where the
/// journal is sized. A change with 1,024 hashes has about 70,000 bytes. After an `Err` the page begins as it was.
#[tactic(auto, unfolding(crate::specs::Written::change_text))]
pub fn push_change(page: &mut Bytes, sized: bool, change: &Change) -> Result<(), OutOfMemory>
    ensures ok { OnOk result (page.new ≡ page.old ++ change_text sized change.now) }
    ensures front { OnErr result (take (length page.old) page.new ≡ page.old) }
{
    push_change_line(page, change)?;
    push_adds(page, sized, change.adds.as_slice())?;
    push_removes(page, change.removes.as_slice())
}
