//! What is written of a run.

ghost use Rattle.std.specs.Prelude.{◌≡◌, ℕ, ◌+◌, ◌<◌, List};
ghost use Rattle.ultra_io.specs.TextBuffer.{Writes};
ghost use Rattle.ultra_isa.specs.declared.Instr.{Instr};
ghost use Rattle.ultra_model.specs.{Machine.Settings, declared.config.TheConstants.MOST_CYCLES};
ghost use Rattle.ultra_trace_alone.specs.{BlocksAfter.IsAfter, RunText.{TextPieces, cycles_for}};

use ultra_block::Blocks;
use ultra_io::TextBuffer;
use ultra_msg::Sink;

/// What is written of a run: an opening before the first cycle, lines of each cycle, and a closing
/// after the last that is made. It may keep what it needs of earlier cycles.
pub trait RunText: Drop {
    /// The text, and the last cycle that it needs.
    ghost pieces: { Self → TextPieces };

    /// That the machine may be in this number of blocks.
    ghost takes: { ℕ → Type 0 };

    /// That it knows what it needs of the first n cycles.
    ghost is_ready: { Self → Settings → List Instr → ℕ → Type 0 };

    /// The last cycle that may be made. Without it the run goes on to the end of its trace.
    fn last_cycle(&self) -> Option<u32>
        ensures { result ≡ (pieces self.now).last };

    /// Writes the opening.
    fn put_opening<S: Sink>(&self, buffer: &mut TextBuffer<'_, S>)
        ensures { Writes S.taken S.failures (pieces self.now).opening buffer.old buffer.new };

    /// Writes the lines of the last cycle, whose number is `cycle`. What is written of other cycles
    /// and at the end stays the same.
    fn put_lines<S: Sink>(&mut self, buffer: &mut TextBuffer<'_, S>, blocks: &Blocks, cycle: u32)
        requires takes { takes blocks.now.count }
        requires few { cycle < MOST_CYCLES }
        requires made { IsAfter blocks.now.config blocks.now.program (cycle + 1) blocks.now }
        requires ready { is_ready self.old blocks.now.config blocks.now.program cycle }
        ensures writes { Writes S.taken S.failures
            ((pieces self.old).lines blocks.now.config blocks.now.program cycle)
            buffer.old buffer.new }
        ensures ready { is_ready self.new blocks.now.config blocks.now.program (cycle + 1) }
        ensures same { pieces self.new ≡ pieces self.old };

    /// Writes the closing, after the last cycle that is made.
    fn put_closing<S: Sink>(&self, buffer: &mut TextBuffer<'_, S>, blocks: &Blocks)
        requires takes { takes blocks.now.count }
        requires end { IsAfter blocks.now.config blocks.now.program
            (cycles_for blocks.now.config blocks.now.program (pieces self.now).last) blocks.now }
        requires ready { is_ready self.now blocks.now.config blocks.now.program
            (cycles_for blocks.now.config blocks.now.program (pieces self.now).last) }
        ensures { Writes S.taken S.failures
            ((pieces self.now).closing blocks.now.config blocks.now.program)
            buffer.old buffer.new };
}
