//! What is written of all jobs of a sweep: their report, or a table of their rows.

ghost use Rattle.std.specs.Prelude.{◌≡◌};
ghost use Rattle.ultra_msg.specs.Bytes.{WritesOrFails};
ghost use Rattle.ultra_sweep.specs.Report.{report_text, table_text, text_as, texts_from};

use crate::gathering::Gathered;
use itoa::Buffer;
use ultra_msg::{Sink, SinkFault, write_all, write_pieces};

/// How the text of a job is written.
#[derive(Clone, Copy, Drop)]
pub(crate) enum JobForm {
    /// Behind a line with the job's number.
    Numbered,
    /// As it is.
    Plain,
}

/// Writes the report: for each job in order the line `job I` and its trace. After a fault the sink
/// has taken a prefix of it.
pub fn report<S: Sink>(gathered: &Gathered, sink: &mut S) -> Result<(), SinkFault>
    ensures { WritesOrFails result (report_text gathered.now) (S.taken sink.old) (S.taken sink.new)
        (S.failures sink.old) (S.failures sink.new) }
{
    write_jobs(gathered, JobForm::Numbered, sink)
}

/// Writes a table of the rows of all jobs. Its first line is `job,` and the names of the other
/// columns; `names` has these names and ends the line. The rows follow in the order of the jobs.
/// After a fault the sink has taken a prefix of it.
pub fn write_job_table<S: Sink>(
    gathered: &Gathered,
    names: &[u8],
    sink: &mut S,
) -> Result<(), SinkFault>
    ensures { WritesOrFails result (table_text names.now gathered.now) (S.taken sink.old)
        (S.taken sink.new) (S.failures sink.old) (S.failures sink.new) }
{
    write_pieces(sink, &[b"job,", names])?;
    write_jobs(gathered, JobForm::Plain, sink)
}

/// Writes the texts of all jobs in order.
fn write_jobs<S: Sink>(gathered: &Gathered, form: JobForm, sink: &mut S) -> Result<(), SinkFault>
    ensures { WritesOrFails result (texts_from (text_as form) 0 gathered.now) (S.taken sink.old)
        (S.taken sink.new) (S.failures sink.old) (S.failures sink.new) }
{
    let mut number: usize = 0;
    for text in &gathered.texts {
        write_job(form, number, text.as_slice(), sink)?;
        number += 1;
    }
    Ok(())
}

/// Writes the text of a job.
fn write_job<S: Sink>(
    form: JobForm,
    number: usize,
    text: &[u8],
    sink: &mut S,
) -> Result<(), SinkFault>
    ensures { WritesOrFails result (text_as form number text.now) (S.taken sink.old)
        (S.taken sink.new) (S.failures sink.old) (S.failures sink.new) }
{
    match form {
        JobForm::Numbered => {
            let mut digits = Buffer::new();
            write_pieces(
                sink,
                &[b"job ", digits.format(number).as_bytes(), b"\n", text],
            )
        }
        JobForm::Plain => write_all(sink, text),
    }
}
