//! The program over files in memory.

use crate::calls::{ADDS_ONE, ORDER, call_into, check_command};
use std::alloc::{AllocError, Global};
use std::test::Fail;
use test_sinks::SinkLimits;

/// A program by which one processing element loads cell 0 `count` times.
fn many_loads(alloc: Global, count: usize) -> Result<String, Fail> {
    let mut program = String::from_str(alloc, "pid r1\njnz r1 end\n")?;
    program.push_str("ld r3 r0\n".repeat(alloc, count)?.as_str())?;
    program.push_str("end:\nhalt\n")?;
    Ok(program)
}

/// The order of that program's run.
fn order_of_loads(alloc: Global, count: u32) -> Result<String, AllocError> {
    let mut order = String::new(alloc);
    for number in 0..count {
        order.push_str(format!(in alloc; "0.{number} load 0 = 0\n")?.as_str())?;
    }
    Ok(order)
}

/// Settings of a machine on which that program halts.
const MANY_CYCLES: &[u8] = b"stages = 1\ncycles = 40000";

/// An order of more bytes than are written at once.
#[test]
fn long_orders_are_written_in_pieces(rt: HostRuntime) -> Result<(), Fail> {
    let program = many_loads(rt.alloc(), 4000)?;
    let order = order_of_loads(rt.alloc(), 4000)?;
    let wanted = (0, order.as_str(), "");
    check_command(&rt, &ORDER, MANY_CYCLES, program.as_bytes(), wanted)
}

/// Standard output fails at the second write of a long order.
#[test]
fn a_prefix_of_a_long_order_is_written(rt: HostRuntime) -> Result<(), Fail> {
    let program = many_loads(rt.alloc(), 4000)?;
    let files = [("c.toml", MANY_CYCLES), ("p.s", program.as_bytes())];
    let ended = call_into(&rt, &ORDER, &files, SinkLimits::none().failing_after(1))?;
    assert!(rt; ended.out.len() >= 60000);
    let order = order_of_loads(rt.alloc(), 4000)?;
    ended.check_cut(&rt, order.as_str());
    Ok(())
}

/// Settings of one stage, and a program.
static ONE_STAGE: [(&str, &[u8]); 2] = [("c.toml", b"stages = 1"), ("p.s", ADDS_ONE)];

/// Words, each with the first 8 bytes of their text.
static BEGINNINGS: [(&[&str], &str); 6] = [
    (&["ultra", "run", "c.toml", "p.s"], "ultra tr"),
    (
        &["ultra", "run", "c.toml", "p.s", "--workers", "3"],
        "ultra tr",
    ),
    (&["ultra", "order", "c.toml", "p.s"], "1.0 faa "),
    (&["ultra", "explain", "c.toml", "p.s"], "cycle 5 "),
    (&["ultra", "--help"], "Simulate"),
    (&["ultra", "--version"], "ultra 1."),
];

/// Standard output takes at most 4 bytes a write, and fails at its third write.
#[test]
fn a_prefix_is_written_to_a_short_failing_sink(rt: HostRuntime) -> Result<(), Fail> {
    for (words, beginning) in &BEGINNINGS {
        let ended = call_into(
            &rt,
            words,
            &ONE_STAGE,
            SinkLimits::taking_at_most(4).failing_after(2),
        )?;
        ended.check(&rt, (5, beginning, "ultra: write failed\n"));
    }
    Ok(())
}
