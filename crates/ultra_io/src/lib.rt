//! Files that are read and streams that are written: what a program sees of them, and those of the
//! host. Text goes to a stream by a buffer, in large pieces. Decimal numbers are read from a text.
#![tactic(auto)]

mod account;
mod decimal;
mod filled_bytes;
mod source;
mod stream;
mod text_buffer;

pub use account::Account;
pub use decimal::{number_written, plain_number};
pub use filled_bytes::BUFFER_BYTES;
pub use source::{FileSource, Source, SourceFault};
pub use stream::Stream;
pub use text_buffer::{PART_BYTES, TextBuffer};
