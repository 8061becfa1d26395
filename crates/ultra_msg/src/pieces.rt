//! Pieces of a text.

ghost use Rattle.ultra_msg.specs.Bytes.{joined_pieces, WritesOrFails};

use crate::{Sink, SinkFault, write_all};

/// Writes pieces of bytes in order. After a fault the sink has taken a prefix of them.
pub fn write_pieces<S: Sink>(sink: &mut S, pieces: &[&[u8]]) -> Result<(), SinkFault>
    ensures { WritesOrFails result (joined_pieces pieces.now) (S.taken sink.old) (S.taken sink.new)
        (S.failures sink.old) (S.failures sink.new) }
{
    for piece in pieces {
        write_piece(sink, *piece)?;
    }
    Ok(())
}

/// Writes one piece.
fn write_piece<S: Sink>(sink: &mut S, piece: &[u8]) -> Result<(), SinkFault>
    ensures { WritesOrFails result piece.now (S.taken sink.old) (S.taken sink.new)
        (S.failures sink.old) (S.failures sink.new) }
{
    write_all(sink, piece)
}
