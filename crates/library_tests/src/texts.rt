//! What stops a text from being read, and a listing from being written.

use crate::equal::check_equal;
use std::test::Fail;
use test_sinks::{MemorySink, SinkLimits};
use ultra_asm::{AsmFault, AsmFaultKind, assemble, listing};
use ultra_msg::SinkFault;

#[test]
fn a_fault_of_the_sink_is_reported(rt: HostRuntime) -> Result<(), Fail> {
    let program = assemble(rt.alloc(), "x: jmp x")?;
    let limits = SinkLimits::taking_at_most(3).failing_after(3);
    let mut sink = MemorySink::with_limits(rt.alloc(), limits)?;
    check_equal(&rt, listing(&program, &mut sink), Err(SinkFault));
    check_equal(&rt, sink.text()?, "L0:\njmp L");
    check_equal(&rt, sink.failures, 1);
    Ok(())
}

/// Run with an allocator that refuses one of its calls, it reports that no memory was there, or
/// gives the program.
#[test]
fn refused_memory_is_reported(rt: HostRuntime) -> Result<(), Fail> {
    match assemble(rt.alloc(), "a: li r1 1\nb: jmp a\nc: halt ; end\nd:") {
        Ok(program) => check_equal(&rt, program.len(), 3),
        Err(fault) => {
            let kind = AsmFaultKind::NoMemory;
            check_equal(&rt, fault, AsmFault { line: 0, kind });
        }
    }
    Ok(())
}
