//! What is told of faults that no call row has, and of want of memory.
use prefix_set::ApplyFault;
use rice_coding::RiceFault;
use sb_model::OutOfMemory;
use std::test::Fail;

#[test]
fn want_of_memory_is_told(rt: HostRuntime) -> Result<(), Fail> {
    let told = format!(in rt.alloc(); "{OutOfMemory}, {}", RiceFault::OutOfMemory)?;
    assert!(rt; told.as_str() == "out of memory, out of memory");
    Ok(())
}

#[test]
fn faults_of_changes_are_told(rt: HostRuntime) -> Result<(), Fail> {
    let index = ApplyFault::IndexRange { index: 7, len: 3 };
    let told = format!(in rt.alloc(); "{index}; {}", ApplyFault::TooMany(9))?;
    assert!(rt;
        told.as_str() == "index 7 is out of range, the set has 3 prefixes; 9 prefixes are too many"
    );
    Ok(())
}
