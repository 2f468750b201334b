ghost use Rattle.std.specs.Prelude.{◌≡◌, ◌+◌, ◌-◌, ◌^◌, ◌<◌, ◌≤◌, ◌∷◌, length};
ghost use Rattle.std.specs.List.Sorted.{IsStrictlyIncreasing};
ghost use Rattle.rice_coding.specs.Codes.{coded_length, differences, HasFewestBits};

/// A parameter, and how many bits the codes of some differences take with it.
#[derive(Clone, Copy)]
pub struct Choice {
    pub parameter: u32,
    pub bits: u64,
}

/// The codes of the differences with this parameter.
fn choose(first: u32, rest: &[u32], parameter: u32) -> Choice
    requires rising { IsStrictlyIncreasing (first ∷ rest.now) }
    requires few { length rest.now < 2 ^ 20 }
    requires parameter { parameter ≤ 28 }
    ensures parameter { result.parameter ≡ parameter }
    ensures bits { result.bits ≡ coded_length parameter (differences first rest.now) }
{
    let mut previous = first;
    let mut bits = 0u64;
    for value in rest {
        bits += u64::from((*value - previous) >> parameter) + u64::from(parameter) + 1;
        previous = *value;
    }
    Choice { parameter, bits }
}

/// The logarithm of the mean difference, or the bound that is nearer to it. The best parameter is
/// mostly this or the one below.
fn likely_parameter(first: u32, rest: &[u32]) -> u32
    requires some { 0 < length rest.now }
    requires few { length rest.now < 2 ^ 20 }
    ensures low { 2 ≤ result }
    ensures high { result ≤ 28 }
{
    let last = rest[rest.len() - 1];
    let mean = last.saturating_sub(first) / rest.len() as u32;
    mean.max(4).ilog2().min(28)
}

/// Goes down from a parameter as long as the next one takes no more bits.
fn walk_down(first: u32, rest: &[u32], start: Choice) -> Choice
    requires rising { IsStrictlyIncreasing (first ∷ rest.now) }
    requires few { length rest.now < 2 ^ 20 }
    requires low { 2 ≤ start.parameter }
    requires high { start.parameter ≤ 28 }
    requires bits { start.bits ≡ coded_length start.parameter (differences first rest.now) }
    ensures low { 2 ≤ result.parameter }
    ensures high { result.parameter ≤ start.parameter }
    ensures bits { result.bits ≡ coded_length result.parameter (differences first rest.now) }
    ensures below { 2 < result.parameter → result.bits
        < coded_length (result.parameter - 1) (differences first rest.now) }
    ensures above { result.parameter < start.parameter → result.bits
        ≤ coded_length (result.parameter + 1) (differences first rest.now) }
{
    let mut best = start;
    while best.parameter > 2 {
        let lower = choose(first, rest, best.parameter - 1);
        if lower.bits > best.bits {
            return best;
        }
        best = lower;
    }
    best
}

/// Goes up from a parameter as long as the next one takes fewer bits. Where the one below it takes
/// more, this ends at the best parameter.
fn walk_up(first: u32, rest: &[u32], start: Choice) -> Choice
    requires rising { IsStrictlyIncreasing (first ∷ rest.now) }
    requires few { length rest.now < 2 ^ 20 }
    requires low { 2 ≤ start.parameter }
    requires high { start.parameter ≤ 28 }
    requires bits { start.bits ≡ coded_length start.parameter (differences first rest.now) }
    requires below { 2 < start.parameter → start.bits
        < coded_length (start.parameter - 1) (differences first rest.now) }
    ensures best { HasFewestBits (differences first rest.now) result.parameter }
    ensures bits { result.bits ≡ coded_length result.parameter (differences first rest.now) }
{
    let mut best = start;
    while best.parameter < 28 {
        let higher = choose(first, rest, best.parameter + 1);
        if higher.bits >= best.bits {
            return best;
        }
        best = higher;
    }
    best
}

/// The parameter from 2 to 28 with the fewest bits, of equals the least.
///
/// The number of bits is convex in the parameter, so the first one to each side that takes no fewer
/// ends the search there.
pub fn best_parameter(first: u32, rest: &[u32]) -> Choice
    requires rising { IsStrictlyIncreasing (first ∷ rest.now) }
    requires some { 0 < length rest.now }
    requires few { length rest.now < 2 ^ 20 }
    ensures best { HasFewestBits (differences first rest.now) result.parameter }
    ensures bits { result.bits ≡ coded_length result.parameter (differences first rest.now) }
{
    let likely = choose(first, rest, likely_parameter(first, rest));
    let lower = walk_down(first, rest, likely);
    if lower.parameter < likely.parameter {
        return lower;
    }
    walk_up(first, rest, lower)
}
