//! The measures of a window, written as lines or as a row of a table.

ghost use Rattle.std.specs.Prelude.{◌≡◌, ℕ, List, ◌++◌, ◌<◌, ◌≤◌, Bool, true, false, None, codes, slice_index};
ghost use Rattle.ultra_isa.specs.declared.Instr.{Instr as InstrOf};
ghost use Rattle.ultra_model.specs.Machine.{Settings};
ghost use Rattle.std.specs.List.{flat_map, range_with_len};
ghost use Rattle.ultra_io.specs.TextBuffer.{Writes};
ghost use Rattle.ultra_latency.specs.Summary.{AreSmall};
ghost use Rattle.ultra_measure.specs.Columns.{event_columns, mean_if, measures, number, number_if, of_stage, setting_columns, stage_columns, state_columns, thousandths_text, ending};
ghost use Rattle.ultra_measure.specs.{Kept.IsKept, Texts.{all_names, line_if, names_line, text_if}, Window.greatest};
ghost use Rattle.ultra_measure.specs.Rows.{column_text, columns_text, ended_if, first_text, name_text, row_end, row_text, value_if, value_text};

use crate::window::Window;
use ultra_block::Blocks;
use ultra_io::TextBuffer;
use ultra_latency::Latencies;
use ultra_msg::Sink;

/// In which form the measures of a window are written.
#[derive(Clone, Copy, Drop)]
pub(crate) enum Form {
    /// A line for each that has a value.
    Lines,
    /// The values alone, on one line.
    Values,
    /// The number of a job of a sweep in front of the values, on one line.
    JobValues(u64),
}

/// The names of all measures, on one line.
const NAMES: &[u8] = b"stages,pes,request_places,reply_places,wait_places,open,cells,from,to,end,\
issued,answered,acts,combined,faults,acts_most,latency_least,latency_greatest,latency_mean,\
running_sum,stalled_sum,open_sum,pni_sum,pni_most,inp_sum,out_sum,\
combined_0,request_queue_sum_0,request_queue_most_0,reply_queue_sum_0,reply_queue_most_0,\
records_sum_0,records_most_0,full_waits_0,\
combined_1,request_queue_sum_1,request_queue_most_1,reply_queue_sum_1,reply_queue_most_1,\
records_sum_1,records_most_1,full_waits_1,\
combined_2,request_queue_sum_2,request_queue_most_2,reply_queue_sum_2,reply_queue_most_2,\
records_sum_2,records_most_2,full_waits_2,\
combined_3,request_queue_sum_3,request_queue_most_3,reply_queue_sum_3,reply_queue_most_3,\
records_sum_3,records_most_3,full_waits_3,\
combined_4,request_queue_sum_4,request_queue_most_4,reply_queue_sum_4,reply_queue_most_4,\
records_sum_4,records_most_4,full_waits_4,\
combined_5,request_queue_sum_5,request_queue_most_5,reply_queue_sum_5,reply_queue_most_5,\
records_sum_5,records_most_5,full_waits_5\n";

/// The names of all measures, as the first line of a table has them. They are the same for all
/// runs.
pub fn measure_names() -> &'static [u8]
    ensures value { result.now ≡ all_names }
    ensures same { (c : Settings) (program : List InstrOf) (from to : ℕ) →
        result.now ≡ names_line (measures c program from to) }
{
    NAMES
}

/// A value of a measure.
#[derive(Clone, Copy, Drop)]
pub(crate) enum Value {
    /// A number.
    Number(u64),
    /// A number of thousandths, with three decimals.
    Thousandths(u64),
    /// How the run ended: whether it was quiet.
    Ended(bool),
}

/// Writes the measures of a window. The machine is as after the window's last cycle, and `to` is
/// the number of the next one. Where the run ended with the window, `ended` says whether it was
/// quiet at its end.
pub(crate) fn put_row<S: Sink>(
    buffer: &mut TextBuffer<'_, S>,
    form: Form,
    blocks: &Blocks,
    window: &Window,
    to: u32,
    ended: Option<bool>,
)
    requires kept { IsKept blocks.now.config blocks.now.program window.now.from to window.now }
    requires ended { ended_if ended ≡
        ending blocks.now.config blocks.now.program window.now.from to }
    ensures { Writes S.taken S.failures
        (row_text form (measures blocks.now.config blocks.now.program window.now.from to))
        buffer.old buffer.new }
{
    put_first(buffer, form, b"stages", u64::from(blocks.config().stages()));
    put_settings(buffer, form, blocks, window.from, to, ended);
    put_events(buffer, form, blocks, window, to);
    put_states(buffer, form, blocks, window, to);
    put_stages(buffer, form, blocks, window, to);
    end_row(buffer, form);
}

/// Writes the settings except the first, the window, and how the run ended.
fn put_settings<S: Sink>(
    buffer: &mut TextBuffer<'_, S>,
    form: Form,
    blocks: &Blocks,
    from: u32,
    to: u32,
    ended: Option<bool>,
)
    requires { ended_if ended ≡ ending blocks.now.config blocks.now.program from to }
    ensures { Writes S.taken S.failures
        (columns_text form (setting_columns blocks.now.config blocks.now.program from to))
        buffer.old buffer.new }
{
    let config = blocks.config();
    put_number(buffer, form, b"pes", u64::from(config.net().size()));
    put_number(
        buffer,
        form,
        b"request_places",
        u64::from(config.request_places()),
    );
    put_number(
        buffer,
        form,
        b"reply_places",
        u64::from(config.reply_places()),
    );
    put_number(
        buffer,
        form,
        b"wait_places",
        u64::from(config.wait_places()),
    );
    put_number(buffer, form, b"open", u64::from(config.most_open()));
    put_number(buffer, form, b"cells", u64::from(config.cells()));
    put_number(buffer, form, b"from", u64::from(from));
    put_number(buffer, form, b"to", u64::from(to));
    put_column(buffer, form, b"end", None, end_value(ended));
}

/// Writes what happened.
fn put_events<S: Sink>(
    buffer: &mut TextBuffer<'_, S>,
    form: Form,
    blocks: &Blocks,
    window: &Window,
    to: u32,
)
    requires { IsKept blocks.now.config blocks.now.program window.now.from to window.now }
    ensures { Writes S.taken S.failures
        (columns_text form (event_columns blocks.now.config blocks.now.program window.now.from to))
        buffer.old buffer.new }
{
    let events = &window.events;
    let latencies = &window.latencies;
    put_number(buffer, form, b"issued", events.issued);
    put_number(buffer, form, b"answered", events.answered);
    put_number(buffer, form, b"acts", events.acts);
    put_number(buffer, form, b"combined", events.combined);
    put_number(buffer, form, b"faults", events.faults);
    let size = blocks.config().net().size();
    put_number(
        buffer,
        form,
        b"acts_most",
        greatest_of(&events.acts_of, size as usize),
    );
    put_column(
        buffer,
        form,
        b"latency_least",
        None,
        number_value(latencies.least),
    );
    put_column(
        buffer,
        form,
        b"latency_greatest",
        None,
        number_value(latencies.greatest),
    );
    put_column(buffer, form, b"latency_mean", None, mean_value(latencies));
}

/// Writes what the processing elements did, and what was in registers and interfaces.
fn put_states<S: Sink>(
    buffer: &mut TextBuffer<'_, S>,
    form: Form,
    blocks: &Blocks,
    window: &Window,
    to: u32,
)
    requires { IsKept blocks.now.config blocks.now.program window.now.from to window.now }
    ensures { Writes S.taken S.failures
        (columns_text form (state_columns blocks.now.config blocks.now.program window.now.from to))
        buffer.old buffer.new }
{
    let elements = &window.elements;
    put_number(buffer, form, b"running_sum", elements.running);
    put_number(buffer, form, b"stalled_sum", elements.stalled);
    put_number(buffer, form, b"open_sum", elements.open);
    put_number(buffer, form, b"pni_sum", elements.pending);
    put_number(buffer, form, b"pni_most", u64::from(elements.pending_most));
    put_number(buffer, form, b"inp_sum", window.inputs);
    put_number(buffer, form, b"out_sum", window.outputs);
}

/// Writes the measures of all stages, of those too that the machine doesn't have.
fn put_stages<S: Sink>(
    buffer: &mut TextBuffer<'_, S>,
    form: Form,
    blocks: &Blocks,
    window: &Window,
    to: u32,
)
    requires { IsKept blocks.now.config blocks.now.program window.now.from to window.now }
    ensures { Writes S.taken S.failures
        (columns_text form
        (flat_map (stage_columns blocks.now.config blocks.now.program window.now.from to)
        (range_with_len 0 6))) buffer.old buffer.new }
{
    for stage in 0..6 {
        put_stage(buffer, form, blocks, window, to, stage);
    }
}

/// Writes the measures of a stage.
fn put_stage<S: Sink>(
    buffer: &mut TextBuffer<'_, S>,
    form: Form,
    blocks: &Blocks,
    window: &Window,
    to: u32,
    stage: u32,
)
    requires kept { IsKept blocks.now.config blocks.now.program window.now.from to window.now }
    requires stage { stage < 6 }
    ensures { Writes S.taken S.failures (columns_text form
        (stage_columns blocks.now.config blocks.now.program window.now.from to stage))
        buffer.old buffer.new }
{
    let there = stage < blocks.config().stages();
    let at = stage as usize;
    let (requests, replies, records) = (&window.requests, &window.replies, &window.records);
    put_of_stage(
        buffer,
        form,
        b"combined",
        stage,
        there,
        window.events.combined_in[at],
    );
    put_of_stage(
        buffer,
        form,
        b"request_queue_sum",
        stage,
        there,
        requests.sums[at],
    );
    put_of_stage(
        buffer,
        form,
        b"request_queue_most",
        stage,
        there,
        u64::from(requests.maxima[at]),
    );
    put_of_stage(
        buffer,
        form,
        b"reply_queue_sum",
        stage,
        there,
        replies.sums[at],
    );
    put_of_stage(
        buffer,
        form,
        b"reply_queue_most",
        stage,
        there,
        u64::from(replies.maxima[at]),
    );
    put_of_stage(buffer, form, b"records_sum", stage, there, records.sums[at]);
    put_of_stage(
        buffer,
        form,
        b"records_most",
        stage,
        there,
        u64::from(records.maxima[at]),
    );
    put_of_stage(buffer, form, b"full_waits", stage, there, records.full[at]);
}

/// Writes a measure of a stage, with its value where the stage is there.
fn put_of_stage<S: Sink>(
    buffer: &mut TextBuffer<'_, S>,
    form: Form,
    name: &[u8],
    stage: u32,
    there: bool,
    value: u64,
)
    ensures { Writes S.taken S.failures (column_text form (
      of_stage name.now stage,
      elim there [ true ↦ number value | false ↦ None ],
    )) buffer.old buffer.new }
{
    let value = if there {
        Some(Value::Number(value))
    } else {
        None
    };
    put_column(buffer, form, name, Some(stage), value);
}

/// Writes the first measure, which has a number.
fn put_first<S: Sink>(buffer: &mut TextBuffer<'_, S>, form: Form, name: &[u8], value: u64)
    ensures { Writes S.taken S.failures
        (first_text form (name.now, number value)) buffer.old buffer.new }
{
    match form {
        Form::Lines => put_line(buffer, name, None, Some(Value::Number(value))),
        Form::Values => put_value(buffer, Value::Number(value)),
        Form::JobValues(job) => {
            buffer.put_count(job as usize);
            buffer.put(b",");
            put_value(buffer, Value::Number(value));
        }
    }
}

/// Writes a measure that has a number, behind another.
fn put_number<S: Sink>(buffer: &mut TextBuffer<'_, S>, form: Form, name: &[u8], value: u64)
    ensures { Writes S.taken S.failures
        (column_text form (name.now, number value)) buffer.old buffer.new }
{
    put_column(buffer, form, name, None, Some(Value::Number(value)));
}

/// Writes a measure behind another.
fn put_column<S: Sink>(
    buffer: &mut TextBuffer<'_, S>,
    form: Form,
    name: &[u8],
    stage: Option<u32>,
    value: Option<Value>,
)
    ensures { Writes S.taken S.failures
        (column_text form (name_text name.now stage, value_if value)) buffer.old buffer.new }
{
    match form {
        Form::Lines => put_line(buffer, name, stage, value),
        Form::Values | Form::JobValues(_) => {
            buffer.put(b",");
            put_value_if(buffer, value);
        }
    }
}

/// Writes the line of a measure, if that has a value.
fn put_line<S: Sink>(
    buffer: &mut TextBuffer<'_, S>,
    name: &[u8],
    stage: Option<u32>,
    value: Option<Value>,
)
    ensures { Writes S.taken S.failures (line_if (name_text name.now stage) (value_if value))
        buffer.old buffer.new }
{
    if let Some(value) = value {
        put_name(buffer, name, stage);
        buffer.put(b" ");
        put_value(buffer, value);
        buffer.put(b"\n");
    }
}

/// Writes the name of a measure.
fn put_name<S: Sink>(buffer: &mut TextBuffer<'_, S>, name: &[u8], stage: Option<u32>)
    ensures { Writes S.taken S.failures (name_text name.now stage) buffer.old buffer.new }
{
    buffer.put(name);
    if let Some(stage) = stage {
        buffer.put(b"_");
        buffer.put_number(stage);
    }
}

/// Writes a value, if there is one.
fn put_value_if<S: Sink>(buffer: &mut TextBuffer<'_, S>, value: Option<Value>)
    ensures { Writes S.taken S.failures (text_if (value_if value)) buffer.old buffer.new }
{
    if let Some(value) = value {
        put_value(buffer, value);
    }
}

/// Writes a value.
fn put_value<S: Sink>(buffer: &mut TextBuffer<'_, S>, value: Value)
    ensures { Writes S.taken S.failures (value_text value) buffer.old buffer.new }
{
    match value {
        Value::Number(number) => buffer.put_count(number as usize),
        Value::Thousandths(number) => put_thousandths(buffer, number),
        Value::Ended(true) => buffer.put(b"quiet"),
        Value::Ended(false) => buffer.put(b"limit"),
    }
}

/// Writes a number of thousandths, with three decimals.
fn put_thousandths<S: Sink>(buffer: &mut TextBuffer<'_, S>, number: u64)
    ensures { Writes S.taken S.failures (thousandths_text number) buffer.old buffer.new }
{
    buffer.put_count((number / 1000) as usize);
    buffer.put(b".");
    buffer.put_count((number / 100 % 10) as usize);
    buffer.put_count((number / 10 % 10) as usize);
    buffer.put_count((number % 10) as usize);
}

/// Ends the row of a table.
fn end_row<S: Sink>(buffer: &mut TextBuffer<'_, S>, form: Form)
    ensures { Writes S.taken S.failures (row_end form) buffer.old buffer.new }
{
    match form {
        Form::Lines => {}
        Form::Values | Form::JobValues(_) => buffer.put(b"\n"),
    }
}

/// How a run ended, as a value.
fn end_value(ended: Option<bool>) -> Option<Value>
    ensures { value_if result ≡ ended_if ended }
{
    match ended {
        Some(quiet) => Some(Value::Ended(quiet)),
        None => None,
    }
}

/// A number as a value, if there is one.
fn number_value(number: Option<u32>) -> Option<Value>
    ensures { value_if result ≡ number_if number }
{
    match number {
        Some(number) => Some(Value::Number(u64::from(number))),
        None => None,
    }
}

/// The mean of latencies, if there are any: in thousandths, rounded down.
fn mean_value(latencies: &Latencies) -> Option<Value>
    requires { AreSmall latencies.now }
    ensures { value_if result ≡ mean_if latencies.now.sum latencies.now.count }
{
    let count = u64::from(latencies.count);
    if count == 0 {
        return None;
    }
    Some(Value::Thousandths(latencies.sum * 1000 / count))
}

/// The greatest of the first values.
fn greatest_of(values: &[u64; 64], count: usize) -> u64
    requires { count ≤ 64 }
    ensures { result ≡ greatest count (λ k. slice_index values.now k) }
{
    let mut most: u64 = 0;
    for k in 0..count {
        most = most.max(values[k]);
    }
    most
}
