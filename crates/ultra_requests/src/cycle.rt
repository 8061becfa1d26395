//! What is written of the events of a cycle, as the open requests change with them.

ghost use Rattle.std.specs.{Prelude.{◌≡◌, ◌++◌, vec_capacity}, List.flat_map};
ghost use Rattle.ultra_io.specs.TextBuffer.{Writes};
ghost use Rattle.ultra_latency.specs.Open.{rows_after, HavePlaces};
ghost use Rattle.ultra_requests.specs.{Along.{along, event_line_at, row_at, HaveRows}, EventLines.stop_line};

use crate::lines::{put_event, put_stop};
use crate::rows::put_answered;
use ultra_io::TextBuffer;
use ultra_latency::OpenTable;
use ultra_model::Stop;
use ultra_msg::{Event, Sink};

/// Writes the lines of the events of a cycle, and updates the open requests by them.
pub(crate) fn put_event_lines<S: Sink>(
    buffer: &mut TextBuffer<'_, S>,
    table: &mut OpenTable,
    events: &[Event],
    cycle: u32,
)
    requires places { HavePlaces cycle table.old.rows.items events.now }
    requires rows { HaveRows cycle table.old.rows.items events.now }
    ensures rows { table.new.rows.items ≡ rows_after cycle table.old.rows.items events.now }
    ensures capacity { vec_capacity table.new.rows ≡ vec_capacity table.old.rows }
    ensures writes { Writes S.taken S.failures
        (along event_line_at cycle table.old.rows.items events.now) buffer.old buffer.new }
{
    for event in events {
        put_event(buffer, table, event, cycle);
        table.note(event, cycle);
    }
}

/// Updates the open requests by the events of a cycle, of which nothing is written.
pub(crate) fn note_unwritten_events(table: &mut OpenTable, events: &[Event], cycle: u32)
    requires { HavePlaces cycle table.old.rows.items events.now }
    ensures rows { table.new.rows.items ≡ rows_after cycle table.old.rows.items events.now }
    ensures capacity { vec_capacity table.new.rows ≡ vec_capacity table.old.rows }
{
    for event in events {
        table.note(event, cycle);
    }
}

/// Writes the lines of the faults of a cycle.
pub(crate) fn put_stops<S: Sink>(buffer: &mut TextBuffer<'_, S>, stops: &[Stop], cycle: u32)
    ensures { Writes S.taken S.failures
        (flat_map (stop_line cycle) stops.now) buffer.old buffer.new }
{
    for stop in stops {
        put_stop(buffer, *stop, cycle);
    }
}

/// Writes the rows of the requests that the events of a cycle answer, and updates the open
/// requests by these events.
pub(crate) fn put_answers<S: Sink>(
    buffer: &mut TextBuffer<'_, S>,
    table: &mut OpenTable,
    events: &[Event],
    cycle: u32,
)
    requires places { HavePlaces cycle table.old.rows.items events.now }
    ensures rows { table.new.rows.items ≡ rows_after cycle table.old.rows.items events.now }
    ensures capacity { vec_capacity table.new.rows ≡ vec_capacity table.old.rows }
    ensures writes { Writes S.taken S.failures
        (along row_at cycle table.old.rows.items events.now) buffer.old buffer.new }
{
    for event in events {
        let answered = table.note(event, cycle);
        put_answered(buffer, event, answered, cycle);
    }
}
