//! What neither a stored case nor a call row shows of the lower crates: how a history is written, what words and requests are
//! read as, responses that are not sent, faults that nothing prints.
#![tactic(auto)]

#[cfg(test)]
mod deciding_bytes;
#[cfg(test)]
mod digests;
#[cfg(test)]
mod faults;
#[cfg(test)]
mod line_ends;
#[cfg(test)]
mod message_faults;
#[cfg(test)]
mod other_responses;
#[cfg(test)]
mod read_lines;
#[cfg(test)]
mod read_values;
#[cfg(test)]
mod request_forms;
#[cfg(test)]
mod sound_targets;
#[cfg(test)]
mod wire_fields;
#[cfg(test)]
mod words;
#[cfg(test)]
mod written_journals;
