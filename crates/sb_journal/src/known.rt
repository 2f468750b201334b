ghost use Rattle.std.specs.Prelude.{◌≡◌, All, length};
ghost use Rattle.hex.specs.Hex.{IsBytes};
ghost use Rattle.sb_journal.specs.Followed.{HasHash};

use crate::HashLine;
use sb_model::Added;

/// That a full hash has 32 bytes.
fn hash_is_bytes(hash: &[u8; 32])
    ensures bytes { IsBytes hash.now }
    ensures whole { length hash.now ≡ 32 }
{
    // looked at for the prover: its bytes are bytes
    let _ = hash[0];
}

/// That the hash of a line has 32 bytes.
#[tactic(auto, unfolding(crate::specs::Followed::HasHash))]
fn line_has_hash(line: &HashLine)
    ensures { HasHash line.now }
{
    match line {
        HashLine::Add(added) => hash_is_bytes(&added.hash),
        HashLine::Remove(hash) => hash_is_bytes(hash),
    }
}

/// That the hashes of some lines have 32 bytes. It changes nothing.
pub fn lines_have_hashes(lines: &[HashLine])
    ensures { All HasHash lines.now }
{
    for line in lines {
        line_has_hash(line);
    }
}

/// That some full hashes are bytes. It changes nothing.
pub fn entries_have_bytes(entries: &[Added])
    ensures { All (λ entry. IsBytes entry.hash) entries.now }
{
    for entry in entries {
        hash_is_bytes(&entry.hash);
    }
}
