//! How many jobs are finished, as standard error shows it.

ghost use Rattle.std.specs.Prelude.{◌≡◌, false, min, max};
ghost use Rattle.ultra_msg.specs.Bytes.{WritesOrFails};
ghost use Rattle.ultra_io.specs.Account.{SinkState};
ghost use Rattle.ultra_inputs.specs.Shown.{stream};
ghost use Rattle.ultra_sweep_command.specs.Shown.{progress_line, HasShown};

use itoa::Buffer;
use ultra_msg::{Sink, SinkFault, write_pieces};

/// What has been shown so far.
#[derive(Drop)]
pub struct ProgressMeter {
    /// How many jobs there are.
    pub count: u64,
    /// The last number that was shown, or 0.
    pub last: u64,
    /// Whether standard error has failed. Nothing more is shown then.
    pub broken: bool,
}

impl ProgressMeter {
    /// A meter of `count` jobs that has shown nothing.
    pub(crate) fn new(count: u64) -> ProgressMeter
        ensures count { result.count ≡ count }
        ensures last { result.last ≡ 0 }
        ensures sound { result.broken ≡ false }
    {
        ProgressMeter {
            count,
            last: 0,
            broken: false,
        }
    }

    /// Shows that this many jobs are finished, unless as many or more were shown before.
    pub(crate) fn show<E: Sink>(&mut self, finished: u64, err: &mut E)
        ensures count { self.new.count ≡ self.old.count }
        ensures last { self.new.last ≡ max self.old.last (min finished self.old.count) }
        ensures shown { (start : SinkState) →
            HasShown self.old start (stream (E.taken err.old) (E.failures err.old)) →
            HasShown self.new start (stream (E.taken err.new) (E.failures err.new)) }
    {
        let finished = finished.min(self.count);
        if finished <= self.last {
            return;
        }
        self.last = finished;
        if !self.broken {
            self.broken = write_count(finished, self.count, err).is_err();
        }
    }
}

/// Writes the line that says that `finished` of `count` jobs are finished.
fn write_count<E: Sink>(finished: u64, count: u64, err: &mut E) -> Result<(), SinkFault>
    ensures { WritesOrFails result (progress_line count finished) (E.taken err.old)
        (E.taken err.new) (E.failures err.old) (E.failures err.new) }
{
    let mut finished_digits = Buffer::new();
    let mut count_digits = Buffer::new();
    write_pieces(
        err,
        &[
            b"ultra: ",
            finished_digits.format(finished).as_bytes(),
            b" of ",
            count_digits.format(count).as_bytes(),
            b" jobs\n",
        ],
    )
}
