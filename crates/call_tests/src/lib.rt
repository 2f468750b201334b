//! What no stored case shows of the crates below: threads that wait for one another, publications and the seats that look at
//! them, and where the words of a client say that its objects are.
#![tactic(auto)]

#[cfg(test)]
mod beside;
#[cfg(test)]
mod gates;
#[cfg(test)]
mod halfway;
#[cfg(test)]
mod lists;
#[cfg(test)]
mod rounds;
#[cfg(test)]
mod runs;
#[cfg(test)]
mod seats;
#[cfg(test)]
mod shown;
#[cfg(test)]
mod targets;
#[cfg(test)]
mod words;
