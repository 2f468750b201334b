//! What is told of faults that no text of a row has, and of want of memory.
use sb_json::{FieldFault, MessageFault, push_message_cause};
use sb_model::{Bytes, OutOfMemory};
use std::test::Fail;

#[test]
fn faults_of_messages_are_told(rt: HostRuntime) -> Result<(), Fail> {
    let too_dense = format!(in rt.alloc(); "{}", MessageFault::TooDense(7))?;
    assert_eq!(rt; too_dense.as_str(), "too dense at byte 7");
    let too_many = format!(in rt.alloc(); "{}", MessageFault::TooManyItems(9))?;
    assert_eq!(rt; too_many.as_str(), "9 items are too many");
    Ok(())
}

#[test]
fn want_of_memory_is_told_without_an_item(rt: HostRuntime) -> Result<(), Fail> {
    let fault = MessageFault::of(FieldFault::from(OutOfMemory), 4);
    let told = format!(in rt.alloc(); "{fault}")?;
    assert_eq!(rt; told.as_str(), "out of memory");
    Ok(())
}

#[test]
fn want_of_memory_has_no_cause(rt: HostRuntime) -> Result<(), Fail> {
    let mut text = Bytes::from_slice(rt.alloc(), b"> ")?;
    push_message_cause(&mut text, &MessageFault::from(OutOfMemory))?;
    assert_eq!(rt; text.as_slice(), b"> ".as_slice());
    Ok(())
}
