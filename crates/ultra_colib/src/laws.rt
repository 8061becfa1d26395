//! The laws of the coordination programs, and of a ticket counter, on the paracomputer: each holds
//! after every schedule.
//!
//! The gate's test, increment and retest are the 1983 paper's; the programs are this project's.

ghost use Rattle.ultra_colib.specs.{Barrier.BarrierLaw, Gate.GateLaw, NoQueue.IsNoQueueRefused, Queue.QueueLaw, ReadersWriters.ReadersWritersLaw, TicketRounds.{AllDrawnLaw, NextTicketLaw, NoTicketTwiceLaw, TicketRoundsLaw}, Tickets.TicketsLaw};

/// The law of the ticket counter, as this function's contract: no two processing elements have
/// taken the same ticket. It holds for all settings in their ranges without initial values and for
/// every schedule. The function itself does nothing.
pub fn tickets_law()
    ensures different { TicketsLaw }
{}

/// The law of the ticket counter with rounds, as this function's contract. It holds for 1 to 1000
/// rounds, all settings in their ranges without initial values and every schedule. No two
/// processing elements have the same ticket. Cell 0, the next ticket, is greater than each that
/// somebody has. No ticket is drawn twice: what one processing element has no other has later, and
/// a later draw gives one a greater ticket. Once all have come to the last instruction, the number
/// of tickets drawn is the number of processing elements times the rounds. A processing element has
/// a ticket from its first draw on. The function itself does nothing.
pub fn ticket_rounds_law()
    ensures different { TicketRoundsLaw }
    ensures none_twice { NoTicketTwiceLaw }
    ensures next { NextTicketLaw }
    ensures all_drawn { AllDrawnLaw }
{}

/// The gate's law, as this function's contract: at most `bound` processing elements are inside at
/// once, after every schedule. The function itself does nothing.
pub fn gate_law()
    ensures kept { GateLaw }
{}

/// The law of the readers and writers, as this function's contract: where a writer is inside,
/// nobody else is, after every schedule. The function itself does nothing.
pub fn readers_writers_law()
    ensures kept { ReadersWritersLaw }
{}

/// The barrier's law, as this function's contract: nobody has finished more rounds than anybody has
/// begun, after every schedule. The function itself does nothing.
pub fn barrier_law()
    ensures kept { BarrierLaw }
{}

/// The queue's law, as this function's contract: after every schedule the results that aren't 0 are
/// pairwise different inserted values. Each has its own ticket, which was drawn from both indexes.
/// A program that only stores such numbers doesn't keep the law. The function itself does nothing.
pub fn queue_law()
    ensures kept { QueueLaw }
    ensures needs_inserts { IsNoQueueRefused }
{}
