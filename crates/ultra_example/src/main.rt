//! Runs an algorithm under a thousand random schedules of the paracomputer, and then on the
//! machine.
//!
//! The algorithm is a ticket lock. Each processing element takes a ticket, waits for its turn, and
//! adds 1 to a cell in three steps. Only the lock keeps these steps apart from those of the others.
#![tactic(auto)]

ghost use Rattle.std.specs.Prelude.{◌<◌, ◌≤◌};

use anyhow::ensure;
use std::alloc::Global;
use ultra_asm::assemble;
use ultra_isa::Program;
use ultra_machine::Machine;
use ultra_model::Config;
use ultra_msg::{Cell, Word};
use ultra_para::Para;
use ultra_settings::settings_from;

/// Numbers that look random, from a seed.
#[derive(Drop)]
struct Random(u64);

impl Random {
    /// A number below a bound.
    fn below(&mut self, bound: u32) -> u32
        requires { 1 ≤ bound }
        ensures { result < bound }
    {
        self.0 = self
            .0
            .wrapping_mul(6_364_136_223_846_793_005)
            .wrapping_add(1_442_695_040_888_963_407);
        (self.0 >> 32) as u32 % bound
    }
}

/// Four processing elements. All other settings have their defaults.
const SETTINGS: &[u8] = b"stages = 2";

/// Cell 0 counts tickets, cell 1 says whose turn it is, and cell 2 counts the visits.
const LOCK: &str = "
        li r1 1
        li r2 2
        faa r3 r0 r1    ; takes a ticket
        fence
turn:   ld r4 r1
        fence
        sub r5 r4 r3
        jnz r5 turn
        ld r6 r2        ; inside
        fence
        add r6 r6 r1
        st r2 r6
        fence
        faa r7 r1 r1    ; it is the next one's turn
        fence
        halt
";

/// Runs the lock under a schedule drawn from the seed.
///
/// An error says that an addition was lost, since more have left the lock than were counted, or
/// that the steps were too few for all.
fn run_schedule(
    alloc: Global,
    config: &Config,
    program: &Program,
    seed: u64,
) -> anyhow::Result<()> {
    let size = config.net().size();
    let mut random = Random(seed);
    let mut para = Para::new(alloc, config, program)?;
    for _ in 0..500 {
        para.step(random.below(size));
        ensure!(
            para.peek(1) <= para.peek(2),
            "seed {seed}: two were inside at once"
        );
    }
    ensure!(
        para.peek(2) == Some(size),
        "seed {seed}: not all have been inside"
    );
    Ok(())
}

/// The word in a cell of the machine. Cell a is in module a mod N at offset a div N.
fn cell(machine: &Machine, number: Cell) -> Option<Word> {
    let size = machine.config().net().size();
    machine.memory_module(number % size).peek(number / size)
}

/// Runs the lock on the machine, and says after how many cycles all have been inside.
///
/// An error says that the machine lost an addition.
fn run_machine(alloc: Global, config: &Config, program: &Program) -> anyhow::Result<u32> {
    let mut machine = Machine::new(alloc, config, program)?;
    for _ in 0..config.cycles() {
        if machine.is_quiet() || machine.done() >= config.cycles() {
            break;
        }
        machine.cycle();
    }
    let all = Some(config.net().size());
    ensure!(cell(&machine, 2) == all, "the machine lost an addition");
    Ok(machine.done())
}

fn main(rt: HostRuntime) -> anyhow::Result<()> {
    let config = settings_from(rt.alloc(), SETTINGS)?;
    let program = assemble(rt.alloc(), LOCK)?;
    for seed in 0..1000 {
        run_schedule(rt.alloc(), &config, &program, seed)?;
    }
    println!(rt; "paracomputer: no addition is lost in 1000 schedules")?;
    let cycles = run_machine(rt.alloc(), &config, &program)?;
    println!(rt; "machine: all have been inside after {cycles} cycles")?;
    Ok(())
}
