//! One processor and its step.

ghost use Rattle.std.specs.Prelude.{◌≡◌, ℕ, ◌+◌, ◌*◌, ◌^◌, ◌<◌, ◌≤◌, [], ◌∷◌, false, Some, None, length, slice_get, slice_set, slice_index, if◌then◌else◌, ◌-◌, ◌↔◌, IsSome, IfSome};
ghost use Rattle.std.specs.List.{list_any};
ghost use Rattle.ultra_pni.specs.Interface.{is_awaited};
ghost use Rattle.ultra_isa.specs.{Instruction.{effect, goes_on_at, refers}, Meaning.{meaning, StaysWithin}, declared.TheConstants.MOST_INSTRUCTIONS};
ghost use Rattle.ultra_isa.specs.Step.{IsWellFormedCore, fresh_core, is_stall, has_stopped as stopped, names_awaited, does, runs, step_of};

use crate::{Activity, Instr, MachineFault, Program, Step};
use std::marker::Model;
use ultra_msg::{Cell, Op, Pe, Register, Request, Word};
use ultra_pni::{Issue, Pni};
use ultra_route::Net;

/// How many registers a processor has.
const REGISTERS: usize = 16;

/// What an instruction does, with the registers' values put in.
#[derive(Clone, Copy, Drop)]
enum Effect {
    /// It sets the register.
    Sets(Register, Word),
    /// The next instruction is the one at the program counter.
    GoesOnAt(usize),
    /// It refers to the cell; the answer goes to the register, if there is one.
    Refers(Cell, Op, Option<Register>),
    /// It waits until no cell is open.
    Waits,
    /// It halts.
    Halts,
}

/// A processing element without its network interface: sixteen registers, a program counter, and
/// what it is doing (this project's profile).
#[derive(Clone, Copy, PartialEq, Eq, Drop)]
pub struct Processor {
    pe: Pe,
    size: u32,
    all_cells: u32,
    registers: [Word; REGISTERS],
    pc: usize,
    activity: Activity,
}

impl Model for Processor {
    ghost use Rattle.ultra_isa.specs.Step.{ProcessorState, IsWellFormedCore};

    ghost Value = { ProcessorState };

    ghost view = { λ p.
        record {
          site = record { pe = p.pe; size = p.size; all_cells = p.all_cells };
          core = record { registers = p.registers; pc = p.pc; activity = p.activity };
        } };

    ghost invariant = { λ p.
        IsWellFormedCore record { registers = p.registers; pc = p.pc; activity = p.activity } };

    ghost inverse = { λ s.
        record {
          pe = s.site.pe;
          size = s.site.size;
          all_cells = s.site.all_cells;
          registers = s.core.registers;
          pc = s.core.pc;
          activity = s.core.activity;
        } };
}

/// Whether one of the three registers is awaited. Where an instruction names fewer, one of them is
/// given again.
#[inline(always)]
fn awaits_one(interface: &Pni, a: Register, b: Register, c: Register) -> bool
    ensures { result ≡
        list_any (λ r. is_awaited r interface.now.interface.opened) (a ∷ b ∷ c ∷ []) }
{
    !interface.awaits_none() && (interface.awaits(a) || interface.awaits(b) || interface.awaits(c))
}

/// The effect that sets the register `d` to the value, of an instruction that names `a` and `b`
/// too, or `None` if one of the three is awaited.
#[inline(always)]
fn set_effect(interface: &Pni, d: Register, a: Register, b: Register, value: Word) -> Option<Effect>
    ensures { result ≡ (if list_any (λ r. is_awaited r interface.now.interface.opened)
        (d ∷ a ∷ b ∷ []) then None else Some (Effect.Sets d value)) }
{
    if awaits_one(interface, d, a, b) {
        None
    } else {
        Some(Effect::Sets(d, value))
    }
}

impl Processor {
    /// The processing element of this number, in a machine of this network with `cells` cells, 1 to
    /// 4096, in each memory module. Its registers are 0, and it starts with program counter 0. The
    /// number has to be below the size of the network.
    pub fn new(pe: Pe, net: Net, cells: u32) -> Processor
        requires pe { pe < 2 ^ net }
        requires some_cells { 1 ≤ cells }
        requires few_cells { cells ≤ 4096 }
        ensures { result ≡ record {
          site = record {
            pe = pe;
            size = 2 ^ net;
            all_cells = 2 ^ net * cells;
          };
          core = fresh_core;
        } }
    {
        let size = net.size();
        Processor {
            pe,
            size,
            all_cells: size * cells,
            registers: [0; REGISTERS],
            pc: 0,
            activity: Activity::Running,
        }
    }

    /// Does one step: the instruction at the program counter, or a stall, or nothing where the
    /// processing element has halted or faulted. A request that it issues is then the last in its
    /// interface.
    #[inline(always)]
    pub fn step(&mut self, program: &Program, interface: &mut Pni) -> Step
        ensures core { self.new ≡ record self.old {
          core = (step_of self.old.site
              interface.old.most_open program.now self.old.core interface.old.interface).core;
        } }
        ensures interface { interface.new ≡
            record interface.old {
              interface = (step_of self.old.site interface.old.most_open
                  program.now self.old.core interface.old.interface).interface;
            } }
        ensures was { result ≡ (step_of self.old.site interface.old.most_open program.now
            self.old.core interface.old.interface).was }
        ensures sent { IsSome (step_of self.old.site interface.old.most_open program.now
            self.old.core interface.old.interface).sent ↔ (result ≡ Step.Issued) }
        ensures newest { result ≡ Step.Issued → (step_of self.old.site
            interface.old.most_open program.now self.old.core interface.old.interface).sent ≡
            slice_get interface.new.interface.pending (length interface.new.interface.pending - 1) }
        ensures own { IfSome (step_of self.old.site interface.old.most_open program.now
            self.old.core interface.old.interface).sent (λ r. (r.pe ≡ self.old.site.pe) ×
            (r.cell < self.old.site.all_cells)) }
    {
        match self.activity {
            Activity::Running => self.run(program, interface),
            Activity::Halted | Activity::Faulted(_) => Step::Halted,
        }
    }

    /// Whether the next step would stall: one that has halted or faulted doesn't.
    pub fn would_stall(&self, program: &Program, interface: &Pni) -> bool
        ensures { result ≡ is_stall (step_of self.now.site interface.now.most_open program.now
            self.now.core interface.now.interface).was }
    {
        match self.activity {
            Activity::Running => self.instruction_would_stall(program, interface),
            Activity::Halted | Activity::Faulted(_) => false,
        }
    }

    /// A word comes to a register.
    pub fn receive(&mut self, register: Register, value: Word)
        ensures { self.new ≡ record self.old {
          core = record self.old.core {
            registers = slice_set self.old.core.registers register value;
          };
        } }
    {
        self.registers[register.index()] = value;
    }

    /// The word in a register.
    pub fn register(&self, register: Register) -> Word
        ensures { result ≡ slice_index self.now.core.registers register }
    {
        self.registers[register.index()]
    }

    /// The program counter, from 0; a processing element that has halted or faulted keeps that of
    /// the instruction that stopped it.
    pub fn pc(&self) -> usize
        ensures value { result ≡ self.now.core.pc }
        ensures placed { IsWellFormedCore self.now.core }
    {
        self.pc
    }

    /// What the processing element is doing.
    pub fn activity(&self) -> Activity
        ensures { result ≡ self.now.core.activity }
    {
        self.activity
    }

    /// Whether the processing element has halted or faulted.
    pub fn has_stopped(&self) -> bool
        ensures { result ≡ stopped self.now.core.activity }
    {
        match self.activity {
            Activity::Running => false,
            Activity::Halted | Activity::Faulted(_) => true,
        }
    }

    /// Does the instruction at the program counter, or stalls.
    #[inline(always)]
    fn run(&mut self, program: &Program, interface: &mut Pni) -> Step
        ensures core { self.new ≡
            record self.old {
              core = (runs self.old.site interface.old.most_open self.old.core
                  interface.old.interface (slice_get program.now self.old.core.pc)).core;
            } }
        ensures interface { interface.new ≡ record interface.old {
          interface = (runs self.old.site interface.old.most_open self.old.core
              interface.old.interface (slice_get program.now self.old.core.pc)).interface;
        } }
        ensures was { result ≡ (runs self.old.site interface.old.most_open self.old.core
            interface.old.interface (slice_get program.now self.old.core.pc)).was }
    {
        match program.instruction(self.pc) {
            Some(instruction) => self.perform(instruction, interface),
            None => self.fault(MachineFault::PastEnd),
        }
    }

    /// Whether the instruction at the program counter would stall.
    fn instruction_would_stall(&self, program: &Program, interface: &Pni) -> bool
        ensures { result ≡ is_stall (runs self.now.site interface.now.most_open self.now.core
            interface.now.interface (slice_get program.now self.now.core.pc)).was }
    {
        match program.instruction(self.pc) {
            Some(instruction) => match self.effect_of(instruction, interface) {
                Some(effect) => self.effect_would_stall(effect, interface),
                None => true,
            },
            None => false,
        }
    }

    /// Whether an instruction with this effect would stall.
    fn effect_would_stall(&self, effect: Effect, interface: &Pni) -> bool
        ensures { result ≡ is_stall (does self.now.site interface.now.most_open self.now.core
            interface.now.interface (meaning effect)).was }
    {
        match effect {
            Effect::Refers(cell, _, _) => cell < self.all_cells && interface.refuses(cell),
            Effect::Waits => interface.open_count() != 0,
            Effect::Sets(_, _) | Effect::GoesOnAt(_) | Effect::Halts => false,
        }
    }

    /// Does an instruction of a program, or stalls where it names an awaited register.
    #[inline(always)]
    fn perform(&mut self, instruction: Instr, interface: &mut Pni) -> Step
        requires pc { self.old.core.pc < MOST_INSTRUCTIONS }
        requires within { StaysWithin
            (effect self.old.site self.old.core.registers self.old.core.pc instruction) }
        ensures core { self.new ≡
            record self.old {
              core = (runs self.old.site interface.old.most_open self.old.core
                  interface.old.interface (Some instruction)).core;
            } }
        ensures interface { interface.new ≡
            record interface.old {
              interface = (runs self.old.site interface.old.most_open
                  self.old.core interface.old.interface (Some instruction)).interface;
            } }
        ensures was { result ≡ (runs self.old.site interface.old.most_open self.old.core
            interface.old.interface (Some instruction)).was }
    {
        let Some(effect) = self.effect_of(instruction, interface) else {
            return Step::Stalled;
        };
        self.apply(effect, interface)
    }

    /// What an instruction does at the program counter, with these registers, or `None` if it
    /// names an awaited register.
    #[inline(always)]
    fn effect_of(&self, instruction: Instr, interface: &Pni) -> Option<Effect>
        ensures free { IsSome result ↔ (names_awaited instruction interface.now.interface ≡ false) }
        ensures effect { IfSome result (λ e.
            meaning e ≡ effect self.now.site self.now.core.registers self.now.core.pc instruction) }
    {
        let word = |register: Register| self.register(register);
        match instruction {
            Instr::Set(d, n) => set_effect(interface, d, d, d, n),
            Instr::Add(d, a, b) => set_effect(interface, d, a, b, word(a).wrapping_add(word(b))),
            Instr::AddWord(d, a, n) => set_effect(interface, d, a, a, word(a).wrapping_add(n)),
            Instr::Subtract(d, a, b) => set_effect(
                interface,
                d,
                a,
                b,
                word(a).wrapping_sub(word(b)),
            ),
            Instr::And(d, a, b) => set_effect(interface, d, a, b, word(a) & word(b)),
            Instr::ShiftRight(d, a, n) => set_effect(interface, d, a, a, word(a) >> n.bits()),
            Instr::IsBelow(d, a, b) => set_effect(interface, d, a, b, u32::from(word(a) < word(b))),
            Instr::IsEqual(d, a, b) => set_effect(
                interface,
                d,
                a,
                b,
                u32::from(word(a) == word(b)),
            ),
            Instr::JumpIfZero(a, target) => self.branch(interface, a, word(a) == 0, target),
            Instr::JumpIfNotZero(a, target) => self.branch(interface, a, word(a) != 0, target),
            Instr::Jump(target) => Some(Effect::GoesOnAt(target as usize)),
            Instr::Number(d) => set_effect(interface, d, d, d, self.pe),
            Instr::Size(d) => set_effect(interface, d, d, d, self.size),
            Instr::Load(d, a) => self.reference(interface, d, a, a, Op::Load, Some(d)),
            Instr::Store(a, b) => self.reference(interface, a, a, b, Op::Store(word(b)), None),
            Instr::Faa(d, a, b) => self.reference(interface, d, a, b, Op::Faa(word(b)), Some(d)),
            Instr::Swap(d, a, b) => self.reference(interface, d, a, b, Op::Swap(word(b)), Some(d)),
            Instr::Fence => Some(Effect::Waits),
            Instr::Halt => Some(Effect::Halts),
        }
    }

    /// A jump, by the word in the register `a`, to the target, or to the next instruction where it
    /// isn't taken; `None` where the register is awaited.
    #[inline(always)]
    fn branch(&self, interface: &Pni, a: Register, taken: bool, target: u16) -> Option<Effect>
        ensures free { IsSome result ↔ (is_awaited a interface.now.interface.opened ≡ false) }
        ensures effect { IfSome result (λ e.
            meaning e ≡ goes_on_at (if taken then target else self.now.core.pc + 1)) }
    {
        if awaits_one(interface, a, a, a) {
            None
        } else if taken {
            Some(Effect::GoesOnAt(target as usize))
        } else {
            Some(Effect::GoesOnAt(self.pc + 1))
        }
    }

    /// The effect that refers to the cell whose address is in the register `a`. The instruction
    /// names the registers `d` and `b` too. `None` says that one of the three is awaited.
    #[inline(always)]
    fn reference(
        &self,
        interface: &Pni,
        d: Register,
        a: Register,
        b: Register,
        op: Op,
        target: Option<Register>,
    ) -> Option<Effect>
        ensures { result ≡
            (if list_any (λ r. is_awaited r interface.now.interface.opened) (d ∷ a ∷ b ∷ []) then
            None else Some (Effect.Refers (slice_index self.now.core.registers a) op target)) }
    {
        if awaits_one(interface, d, a, b) {
            None
        } else {
            Some(Effect::Refers(self.register(a), op, target))
        }
    }

    /// Lets an instruction have its effect.
    #[inline(always)]
    fn apply(&mut self, effect: Effect, interface: &mut Pni) -> Step
        requires pc { self.old.core.pc < MOST_INSTRUCTIONS }
        requires within { StaysWithin (meaning effect) }
        ensures core { self.new ≡ record self.old {
          core = (does self.old.site
              interface.old.most_open self.old.core interface.old.interface (meaning effect)).core;
        } }
        ensures interface { interface.new ≡
            record interface.old {
              interface = (does self.old.site interface.old.most_open
                  self.old.core interface.old.interface (meaning effect)).interface;
            } }
        ensures was { result ≡ (does self.old.site interface.old.most_open self.old.core
            interface.old.interface (meaning effect)).was }
    {
        match effect {
            Effect::Sets(register, value) => {
                self.receive(register, value);
                self.advance();
                Step::Done
            }
            Effect::GoesOnAt(pc) => {
                self.pc = pc;
                Step::Done
            }
            Effect::Refers(cell, op, target) => self.refer(cell, op, target, interface),
            Effect::Waits => {
                if interface.open_count() == 0 {
                    self.advance();
                    Step::Done
                } else {
                    Step::Stalled
                }
            }
            Effect::Halts => {
                self.activity = Activity::Halted;
                Step::Done
            }
        }
    }

    /// Refers to a cell: issues the request, or stalls, or faults where the memory doesn't have the
    /// cell.
    #[inline(always)]
    fn refer(&mut self, cell: Cell, op: Op, target: Option<Register>, interface: &mut Pni) -> Step
        requires { self.old.core.pc < MOST_INSTRUCTIONS }
        ensures core { self.new ≡
            record self.old {
              core = (does self.old.site interface.old.most_open self.old.core
                  interface.old.interface (refers cell op target)).core;
            } }
        ensures interface { interface.new ≡
            record interface.old {
              interface = (does self.old.site interface.old.most_open
                  self.old.core interface.old.interface (refers cell op target)).interface;
            } }
        ensures was { result ≡ (does self.old.site interface.old.most_open self.old.core
            interface.old.interface (refers cell op target)).was }
    {
        if cell >= self.all_cells {
            return self.fault(MachineFault::AddressOutOfRange);
        }
        let request = Request {
            pe: self.pe,
            cell,
            op,
        };
        match interface.issue(request, target) {
            Issue::Sent => {
                self.advance();
                Step::Issued
            }
            Issue::CellOpen | Issue::Full => Step::Stalled,
        }
    }

    /// Goes on at the next instruction.
    fn advance(&mut self)
        requires { self.old.core.pc < MOST_INSTRUCTIONS }
        ensures { self.new ≡
            record self.old { core = record self.old.core { pc = self.old.core.pc + 1 } } }
    {
        self.pc += 1;
    }

    /// Stops the PE permanently with this fault.
    fn fault(&mut self, fault: MachineFault) -> Step
        ensures core { self.new ≡
            record self.old { core = record self.old.core { activity = Activity.Faulted fault } } }
        ensures was { result ≡ Step.Fault fault }
    {
        self.activity = Activity::Faulted(fault);
        Step::Fault(fault)
    }
}
