ghost use Rattle.std.specs.Prelude.{◌≡◌, ℕ, List, Option, ◌<◌, ◌≤◌, ◌++◌, All, length, take, map, IfOk, OnOk};
ghost use Rattle.url_canon.specs.Path.{path_text, IsNormalPath};
ghost use Rattle.url_canon.specs.Url.{query_text};
ghost use Rattle.url_expressions.specs.Expressions.{folders_of, paths_of, first_occurrences};

use crate::places::push_new;
use memchr::memchr;
use sb_model::OutOfMemory;
use std::alloc::Global;

/// How many paths a URL has at most.
const PATHS: usize = 6;

/// How many folders a path has at most.
const FOLDERS: usize = 4;

/// Adds how many bytes the folders of a path take, the shortest first, and four at most, each
/// unless it is there already.
fn push_folders(lens: &mut Vec<usize>, path: &[u8]) -> Result<(), OutOfMemory>
    ensures within { OnOk result ((most : ℕ) → length path.now ≤ most
        → All (λ len. len ≤ most) lens.old.items → All (λ len. len ≤ most) lens.new.items) }
    ensures value { OnOk result ((path_components texts : List (List ℕ)) (rest : List ℕ)
        → IsNormalPath path_components → path.now ≡ path_text path_components
        → All (λ len. len ≤ length (path.now ++ rest)) lens.old.items
        → map (λ len. take len (path.now ++ rest)) lens.old.items ≡ first_occurrences texts
        → map (λ len. take len (path.now ++ rest)) lens.new.items
        ≡ first_occurrences (texts ++ folders_of path_components)) }
{
    let mut from = 0;
    for _ in 0..FOLDERS {
        let Some(slash) = memchr(b'/', &path[from..]) else {
            return Ok(());
        };
        from += slash + 1;
        push_new(lens, from)?;
    }
    Ok(())
}

/// How many bytes the paths of a URL take of its path and its query: all where there is a query,
/// the path, and its folders, each once.
pub fn path_lens(
    alloc: Global,
    path: &[u8],
    path_and_query: &[u8],
) -> Result<Vec<usize>, OutOfMemory>
    ensures within { length path.now ≤ length path_and_query.now
        → IfOk result (λ lens. All (λ len. len ≤ length path_and_query.now) lens.items) }
    ensures value { IfOk result (λ lens. (path_components : List (List ℕ)) (query : Option (List ℕ))
        → IsNormalPath path_components → path.now ≡ path_text path_components
        → path_and_query.now ≡ path.now ++ query_text query
        → map (λ len. take len path_and_query.now) lens.items
        ≡ first_occurrences (paths_of path_components query)) }
{
    let mut lens = Vec::with_capacity(alloc, PATHS)?;
    push_new(&mut lens, path_and_query.len())?;
    push_new(&mut lens, path.len())?;
    push_folders(&mut lens, path)?;
    Ok(lens)
}
