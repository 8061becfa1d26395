//! Schedules, read from their texts.

ghost use Rattle.std.specs.Prelude.{◌≡◌, ◌<◌, ◌++◌, All, IfErr, IfOk, Ok, position, true};
ghost use Rattle.std.specs.List.{before_first};
ghost use Rattle.ultra_asm.specs.Words.{is_separator};
ghost use Rattle.ultra_para_run.specs.{ScheduleText.{are_pes, begins_schedule_comment, line_pes, IsScheduleText, pe_of}, ScheduleFaults.ExplainsScheduleFault, declared.reading.ScheduleFault.TheVariants.NoMemory};

use std::alloc::{AllocFailed, Global};
use ultra_asm::number_written;
use ultra_msg::Pe;

/// Why a text isn't read as a schedule.
#[derive(Clone, Copy, PartialEq, Eq, Debug, Drop)]
pub enum ScheduleFault {
    /// Memory was refused.
    NoMemory,
    /// The first line, counted from 1, that has a word which isn't the number of a processing
    /// element.
    BadPe(usize),
}

impl<T: Drop> From<AllocFailed<T>> for ScheduleFault {
    ghost from_gives = { λ _ fault. fault ≡ NoMemory };

    fn from(_: AllocFailed<T>) -> ScheduleFault {
        ScheduleFault::NoMemory
    }
}

/// The schedule that a text writes for a machine of `size` processing elements: their numbers,
/// separated by blanks, tabs, commas and the ends of lines. `#` begins a comment.
///
/// Else the fault names the first line with a bad word, or says that memory was refused. The latter
/// may replace any other answer.
pub fn read_schedule(alloc: Global, bytes: &[u8], size: u32) -> Result<Vec<Pe>, ScheduleFault>
    ensures ok { IfOk result (λ v. IsScheduleText size bytes.now v.items) }
    ensures below { IfOk result (λ v. All (λ p. p < size) v.items) }
    ensures refused { IfErr result (ExplainsScheduleFault size bytes.now) }
{
    let mut schedule = Vec::new(alloc);
    for (index, line) in bytes.split(|byte| *byte == b'\n').enumerate() {
        if !push_line(&mut schedule, line, size)? {
            return Err(ScheduleFault::BadPe(index + 1));
        }
    }
    Ok(schedule)
}

/// Adds the numbers of a line to a schedule. `false` says that the line has a bad word.
fn push_line(schedule: &mut Vec<Pe>, line: &[u8], size: u32) -> Result<bool, ScheduleFault>
    ensures good { IfOk result (λ good. good ≡ are_pes size line.now) }
    ensures pushed { result ≡ Ok true →
        schedule.new.items ≡ schedule.old.items ++ line_pes line.now }
    ensures memory { IfErr result (λ fault. fault ≡ NoMemory) }
{
    let code = before_comment(line);
    for word in code
        .split(|byte| is_separator(*byte))
        .filter(|word| !word.is_empty())
    {
        let Some(pe) = pe_written(word, size) else {
            return Ok(false);
        };
        schedule.push(pe)?;
    }
    Ok(true)
}

/// The number of a processing element that a word writes, one of `size`.
fn pe_written(word: &[u8], size: u32) -> Option<Pe>
    ensures { result ≡ pe_of size word.now }
{
    number_written(word).filter(|pe| *pe < size)
}

/// The line without its comment.
fn before_comment(line: &[u8]) -> &[u8]
    ensures { result.now ≡ before_first begins_schedule_comment line.now }
{
    match comment_start(line) {
        Some(end) => &line[..end],
        None => line,
    }
}

/// Where the comment begins, if there is one.
fn comment_start(line: &[u8]) -> Option<usize>
    ensures { result ≡ position begins_schedule_comment line.now }
{
    line.iter().position(|byte| *byte == b'#')
}

/// Whether the byte separates words: a blank, a tab, byte 13 or a comma.
fn is_separator(byte: u8) -> bool
    ensures { result ≡ is_separator byte }
{
    byte == b' ' || byte == b'\t' || byte == b'\r' || byte == b','
}
