//! The text of a serial list, its writer and its reader. The text form is this project's profile.
#![tactic(auto)]

mod line;
mod number;
mod writing;

ghost use Rattle.std.specs.Prelude.{◌≡◌, List, IfOk, IfErr};
ghost use Rattle.ultra_serial_law.specs.declared.records.Entry.{Entry as EntryOf};
ghost use Rattle.ultra_list.specs.{Words.{OfWord, GivesWord}, SerialText.{HasWords, IsListText, ListTextLaw, order_text}, Faults.{ExplainsListFault, IsReadAs}};

use line::entry_at;
use std::alloc::{AllocFailed, Global};
use ultra_msg::{Op, Reply};
use ultra_serial_law::{Entry, SerialList};
pub use writing::{put_entries, put_entry, put_entry_line, put_operation, put_reply};

/// Why a text isn't read as a list.
#[derive(Clone, Copy, PartialEq, Eq, Debug, Drop)]
pub enum ListFault {
    /// Memory was refused.
    NoMemory,
    /// The first line, counted from 1, that isn't an entry.
    NotAnEntry(usize),
}

impl<T: Drop> From<AllocFailed<T>> for ListFault {
    ghost use Rattle.ultra_list.specs.declared.ListFault.TheVariants.{NoMemory};

    ghost from_gives = { λ _ fault. fault ≡ NoMemory };

    fn from(_: AllocFailed<T>) -> ListFault {
        ListFault::NoMemory
    }
}

/// The list whose text this is: each entry on its own line, such as `0.0 faa 0 1 = 1`.
///
/// Else the fault names the first line that isn't an entry, or says that memory was refused. The
/// latter may replace any other answer.
pub fn read_list(alloc: Global, text: &[u8]) -> Result<SerialList, ListFault>
    ensures ok { IfOk result (λ list. IsListText text.now list.items) }
    ensures refused { IfErr result (ExplainsListFault text.now) }
    ensures complete { (es : List EntryOf) → IsListText text.now es → IsReadAs es result }
{
    let mut list = Vec::new(alloc);
    let mut rest = text;
    while !rest.is_empty() {
        let Some((entry, next)) = entry_at(rest) else {
            return Err(ListFault::NotAnEntry(list.len() + 1));
        };
        list.push(entry)?;
        rest = next;
    }
    Ok(list)
}

/// What is written for a list is the text of that list, as this function's contract. It holds for
/// each list of entries whose numbers are words of 32 bits, as those of a [`SerialList`] are. So
/// [`read_list`] gives it back. The function itself does nothing.
pub fn list_text_law()
    ensures written { ListTextLaw }
{}

/// What is written for these entries is their text, as this function's contract: their numbers are
/// words of 32 bits, as their types say. So [`read_list`] gives them back. The function itself does
/// nothing.
pub fn entries_text_law(entries: &[Entry])
    ensures { IsListText (order_text entries.now) entries.now }
{
    for entry in entries {
        // for the prover: the numbers of an entry are words of 32 bits
        entry_words_law(*entry);
    }
}

/// The numbers of an entry are words of 32 bits.
fn entry_words_law(entry: Entry)
    ensures { HasWords entry }
{
    operand_law(entry.op);
    reply_law(entry.reply);
}

/// The operand of an operation is a word of 32 bits.
fn operand_law(op: Op)
    ensures { OfWord op }
{
    match op {
        Op::Load => {}
        Op::Store(_word) => {}
        Op::Faa(_word) => {}
        Op::Swap(_word) => {}
    }
}

/// The value of a reply is a word of 32 bits.
fn reply_law(reply: Reply)
    ensures { GivesWord reply }
{
    match reply {
        Reply::Value(_word) => {}
        Reply::Ack => {}
    }
}
