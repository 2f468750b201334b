ghost use Rattle.std.specs.Prelude.{ℕ, List, ◌≡◌, ◌++◌, ◌∷◌, [], ◌||◌, ◌&&◌, not, if◌then◌else◌, length, ◌≤◌, drop, map, IsTrue, IfOk, OnOk};
ghost use Rattle.std.specs.List.{slice_split};
ghost use Rattle.url_canon.specs.Words.{is_nil};
ghost use Rattle.url_canon.specs.Escaping.{escaped};
ghost use Rattle.url_canon.specs.Path.{IsNormalPath, is_slash, is_single_dot, is_double_dot, with_component, without_dot_segments, without_empty, path_of, path_text};

use crate::escape::append_escaped;
use crate::split::split_at_byte;
use sb_model::{Bytes, OutOfMemory};
use std::alloc::Global;

/// Whether a component is `.`, which names the directory of those before it.
fn is_single_dot(component: &[u8]) -> bool
    ensures { result ≡ is_single_dot component.now }
{
    component == b".".as_slice()
}

/// Whether a component is `..`, which names the directory above.
fn is_double_dot(component: &[u8]) -> bool
    ensures { result ≡ is_double_dot component.now }
{
    component == b"..".as_slice()
}

/// Adds a component to those before it: `.` adds nothing, and `..` takes the last one away.
fn add_component<'a>(kept: &mut Vec<&'a [u8]>, component: &'a [u8]) -> Result<(), OutOfMemory>
    ensures { OnOk result (map (λ c. c.now) kept.new.items
        ≡ with_component (map (λ c. c.now) kept.old.items) component.now) }
{
    if is_single_dot(component) {
        return Ok(());
    }
    if is_double_dot(component) {
        let _ = kept.pop();
        return Ok(());
    }
    kept.push(component)?;
    Ok(())
}

/// Adds an empty component after a last one that was `.` or `..`.
fn add_directory<'a>(kept: &mut Vec<&'a [u8]>, last: &'a [u8]) -> Result<(), OutOfMemory>
    ensures { OnOk result (map (λ c. c.now) kept.new.items
        ≡ map (λ c. c.now) kept.old.items
        ++ (if is_single_dot last.now || is_double_dot last.now then [] ∷ [] else [])) }
{
    if is_single_dot(last) || is_double_dot(last) {
        kept.push(&last[last.len()..])?;
    }
    Ok(())
}

/// How many slashes a path has.
fn count_slashes(path: &[u8]) -> usize
    ensures { result ≤ length path.now }
{
    path.iter().filter(|byte| **byte == b'/').count()
}

/// The components of a path without its first slash, with `.` and `..` carried out.
fn without_dot_segments(alloc: Global, path: &[u8]) -> Result<Vec<&[u8]>, OutOfMemory>
    ensures { IfOk result (λ kept. map (λ c. c.now) kept.items
        ≡ without_dot_segments (slice_split is_slash path.now)) }
{
    let mut kept = Vec::with_capacity(alloc, count_slashes(path) + 2)?;
    let mut last = path;
    let mut rest = Some(path);
    while let Some(components) = rest {
        let (component, more) = split_at_byte(components, b'/');
        add_component(&mut kept, component)?;
        last = component;
        rest = more;
    }
    add_directory(&mut kept, last)?;
    Ok(kept)
}

/// Appends a component after a slash and escaped, unless it is empty and not the last.
fn append_component(out: &mut Bytes, component: &[u8], is_last: bool) -> Result<(), OutOfMemory>
    ensures { OnOk result (out.new ≡ out.old
        ++ (if not (is_nil component.now) || is_last then 47 ∷ escaped component.now else [])) }
{
    if component.is_empty() && !is_last {
        return Ok(());
    }
    out.push(b'/')?;
    append_escaped(out, component)
}

/// Appends the components, each after a slash and escaped, without empty ones but the last.
fn append_components(out: &mut Bytes, components: &[&[u8]]) -> Result<(), OutOfMemory>
    ensures { OnOk result (out.new
        ≡ out.old ++ path_text (map escaped (without_empty (map (λ c. c.now) components.now)))) }
{
    for (place, component) in components.iter().enumerate() {
        let is_last = place + 1 == components.len();
        append_component(out, *component, is_last)?;
    }
    Ok(())
}

/// Whether a component stays as it is: it is not `.` or `..`, nor empty unless it is the last.
fn stays(component: &[u8], is_last: bool) -> bool
    ensures { result ≡ (not (is_single_dot component.now || is_double_dot component.now)
        && (is_last || not (is_nil component.now))) }
{
    if is_single_dot(component) || is_double_dot(component) {
        return false;
    }
    is_last || !component.is_empty()
}

/// Whether the components of a path stay as they are: none is `.` or `..`, and none but the last is empty.
fn has_normal_components(path: &[u8]) -> bool
    ensures { IsTrue result → without_empty (without_dot_segments (slice_split is_slash path.now))
        ≡ slice_split is_slash path.now }
{
    let mut rest = Some(path);
    while let Some(components) = rest {
        let (component, more) = split_at_byte(components, b'/');
        if !stays(component, more.is_none()) {
            return false;
        }
        rest = more;
    }
    true
}

/// Appends a path whose components stay as they are, after a slash and escaped.
fn append_normal(out: &mut Bytes, path: &[u8]) -> Result<(), OutOfMemory>
    ensures { OnOk result (out.new ≡ out.old ++ 47 ∷ escaped path.now) }
{
    out.push(b'/')?;
    append_escaped(out, path)
}

/// What stands after the first slash of a path, which is empty or begins with one.
fn after_slash(path: &[u8]) -> &[u8]
    ensures { result.now ≡ drop 1 path.now }
{
    match path {
        [_, rest @ ..] => rest,
        [] => path,
    }
}

/// Appends the canonical path of a path, which is empty or begins with a slash.
#[tactic(auto, using(crate::proofs::Paths::normal_text), unfolding(crate::specs::Path::path_of))]
pub fn append_path(out: &mut Bytes, alloc: Global, path: &[u8]) -> Result<(), OutOfMemory>
    ensures { OnOk result (out.new ≡ out.old ++ path_text (map escaped (path_of path.now))) }
{
    let rest = after_slash(path);
    if has_normal_components(rest) {
        return append_normal(out, rest);
    }
    let components = without_dot_segments(alloc, rest)?;
    append_components(out, components.as_slice())
}

/// A canonical path has a component, none with a slash, none that is a dot segment, and none but
/// the last that is empty.
pub fn canonical_paths_are_normal()
    ensures { (path : List ℕ) → IsNormalPath (path_of path) }
{}
