//! The coordination programs.

ghost use Rattle.std.specs.Prelude.{◌≡◌, ◌↔◌, List, true, false, IfOk, IfErr, IsTrue};
ghost use Rattle.ultra_isa.specs.declared.Instr.{Instr};
ghost use Rattle.ultra_asm.specs.ProgramText.{IsProgramText};
ghost use Rattle.ultra_para.specs.Careful.{is_careful};
ghost use Rattle.ultra_colib.specs.{Gate.gate, ReadersWriters.readers_writers, Barrier.barrier, Queue.queue, TicketRounds.ticket_rounds, Texts.{gate_text as text_of_gate, rw_text as text_of_rw, barrier_text as text_of_barrier, queue_text as text_of_queue, tickets_text as text_of_tickets}, Parameters.{gate_takes, rw_takes, barrier_takes, queue_takes}};

use crate::ColibFault;
use crate::texts::{barrier_text, gate_text, queue_text, rw_text, tickets_text};
use std::alloc::Global;
use ultra_asm::assemble;
use ultra_isa::Program;

/// The most processing elements that a gate lets in at once, and the most writers.
const MOST_ELEMENTS: u32 = 64;

/// The most rounds of a coordination program.
const MOST_ROUNDS: u32 = 1000;

/// The largest logarithm of a queue's size.
const MOST_LOG_SIZE: u32 = 6;

/// Whether a number of rounds is 1 to 1000.
fn are_rounds(rounds: u32) -> bool
    ensures { result ≡ barrier_takes rounds }
{
    1 <= rounds && rounds <= MOST_ROUNDS
}

/// The program that a text writes.
///
/// The text is that of a program, so `NoMemory` is the only fault.
fn assemble_text(alloc: Global, text: &str) -> Result<Program, ColibFault>
    ensures program { (p : List Instr) → IsProgramText text.now p → IfOk result (λ q. q ≡ p) }
    ensures fault { IfErr result (λ f. f ≡ ColibFault.NoMemory) }
{
    match assemble(alloc, text) {
        Ok(program) => Ok(program),
        Err(_) => Err(ColibFault::NoMemory),
    }
}

/// The gate: at most `bound` processing elements, 1 to 64, are inside at once, each `rounds` times,
/// 1 to 1000.
///
/// Cell 0 is the count; cell `8 + p` is 1 while processing element p is inside. Its test, increment
/// and retest are the 1983 paper's.
///
/// `BadParameter` says that a number is out of its range; it is found before memory is asked for.
/// `NoMemory` says that memory was refused.
pub fn gate_program(alloc: Global, bound: u32, rounds: u32) -> Result<Program, ColibFault>
    ensures program { IfOk result (λ p. p ≡ gate bound rounds) }
    ensures text { IfOk result (IsProgramText (text_of_gate bound rounds)) }
    ensures careful { IfOk result (λ p. is_careful p ≡ true) }
    ensures parameters { (result ≡ Err ColibFault.BadParameter) ↔
        (gate_takes bound rounds ≡ false) }
{
    if !(1 <= bound && bound <= MOST_ELEMENTS && are_rounds(rounds)) {
        return Err(ColibFault::BadParameter);
    }
    let text = gate_text(alloc, bound, rounds)?;
    assemble_text(alloc, text.as_str())
}

/// Readers and writers: the first `writers` processing elements, 0 to 64, write, the others read,
/// each `rounds` times, 1 to 1000.
///
/// Cell 0 counts a reader as 1 and a writer as 65536; cell `8 + p` is 1 while processing element p
/// is inside as a reader, 2 while as a writer.
///
/// `BadParameter` says that a number is out of its range; it is found before memory is asked for.
/// `NoMemory` says that memory was refused.
pub fn rw_program(alloc: Global, writers: u32, rounds: u32) -> Result<Program, ColibFault>
    ensures program { IfOk result (λ p. p ≡ readers_writers writers rounds) }
    ensures text { IfOk result (IsProgramText (text_of_rw writers rounds)) }
    ensures careful { IfOk result (λ p. is_careful p ≡ true) }
    ensures parameters { (result ≡ Err ColibFault.BadParameter) ↔
        (rw_takes writers rounds ≡ false) }
{
    if !(writers <= MOST_ELEMENTS && are_rounds(rounds)) {
        return Err(ColibFault::BadParameter);
    }
    let text = rw_text(alloc, writers, rounds)?;
    assemble_text(alloc, text.as_str())
}

/// The barrier, which all processing elements pass `rounds` times, 1 to 1000.
///
/// Cell 0 counts the arrivals; with N processing elements, cell `8 + p` is the rounds that
/// processing element p has begun, and cell `8 + N + p` those that it has finished.
///
/// `BadParameter` says that the rounds are out of their range; it is found before memory is asked
/// for. `NoMemory` says that memory was refused.
pub fn barrier_program(alloc: Global, rounds: u32) -> Result<Program, ColibFault>
    ensures program { IfOk result (λ p. p ≡ barrier rounds) }
    ensures text { IfOk result (IsProgramText (text_of_barrier rounds)) }
    ensures careful { IfOk result (λ p. is_careful p ≡ true) }
    ensures parameters { (result ≡ Err ColibFault.BadParameter) ↔ (barrier_takes rounds ≡ false) }
{
    if !are_rounds(rounds) {
        return Err(ColibFault::BadParameter);
    }
    let text = barrier_text(alloc, rounds)?;
    assemble_text(alloc, text.as_str())
}

/// The queue with `2^log_size` places, `log_size` being 0 to 6: each processing element inserts an
/// item and deletes one, `rounds` times, 1 to 1000.
///
/// Cells 0 and 1 are the upper and the lower count of items, cells 2 and 3 the insert index and the
/// delete index. With Z places, cell `8 + i` is the turn word of place i, and cell `8 + Z + i` its
/// data. The results are in the cells from `8 + 2 * Z` on.
///
/// `BadParameter` says that a number is out of its range; it is found before memory is asked for.
/// `NoMemory` says that memory was refused.
pub fn queue_program(alloc: Global, log_size: u32, rounds: u32) -> Result<Program, ColibFault>
    ensures program { IfOk result (λ p. p ≡ queue log_size rounds) }
    ensures text { IfOk result (IsProgramText (text_of_queue log_size rounds)) }
    ensures careful { IfOk result (λ p. is_careful p ≡ true) }
    ensures parameters { (result ≡ Err ColibFault.BadParameter) ↔
        (queue_takes log_size rounds ≡ false) }
{
    if log_size > MOST_LOG_SIZE {
        return Err(ColibFault::BadParameter);
    }
    if !are_rounds(rounds) {
        return Err(ColibFault::BadParameter);
    }
    let text = queue_text(alloc, log_size, rounds)?;
    assemble_text(alloc, text.as_str())
}

/// The ticket counter, from which each processing element draws a ticket `rounds` times, 1 to 1000.
///
/// Cell 0 is the number of tickets drawn. A ticket is the old value of cell 0, and is in
/// register 1 until the next one is drawn.
///
/// `BadParameter` says that the rounds are out of their range; it is found before memory is asked
/// for. `NoMemory` says that memory was refused.
pub fn tickets_program(alloc: Global, rounds: u32) -> Result<Program, ColibFault>
    ensures program { IfOk result (λ p. p ≡ ticket_rounds rounds) }
    ensures text { IfOk result (IsProgramText (text_of_tickets rounds)) }
    ensures careful { IfOk result (λ p. is_careful p ≡ true) }
    ensures parameters { (result ≡ Err ColibFault.BadParameter) ↔ (barrier_takes rounds ≡ false) }
{
    if !are_rounds(rounds) {
        return Err(ColibFault::BadParameter);
    }
    let text = tickets_text(alloc, rounds)?;
    assemble_text(alloc, text.as_str())
}
