//! The serial order of what a machine's requests do, as definitions, and its laws. The lists of a
//! run are a chain of legal lists. The replies of a run are the answers of its log. Each event of a
//! run can be absorbed by the trees kept so far. The memory serves a hot spot by one act. The laws
//! speak of the whole machine's definition alone.
#![tactic(auto)]

mod records;

ghost use Rattle.ultra_serial_law.specs.{AllAtOnce.{HotCellLaw, HotCellOccurs}, Chain.SerializationLaw, Explicable.ExplainingLaw, HotSpot.HotSpotLaw, Replies.ReplyLaw};

pub use records::{Entry, Log, LoggedAnswer, LoggedIssue, NamedRequest, SerialList};

/// The serialization law, as this function's contract. For all settings in their ranges, every
/// program and every number of cycles, the serial lists of the cycles so far are a chain. Each is a
/// prefix of the next, and each explains the replies that were given and the cells. A request is in
/// a list at most once. Every answer is its entry's reply in a replay of the list, and the replay
/// ends with the cells. A request that was answered before another was issued comes before it. The
/// list is complete where the trace ends.
///
/// Along every run each event can be absorbed by the trees kept so far. Each act adds to the list
/// the leaves of the tree that it serves (see [`explaining_law`]).
///
/// The serialization principle is that of the 1983 paper; the machine is this project's profile of
/// it. The function itself does nothing.
pub fn serialization_law()
    ensures chained { SerializationLaw }
    ensures explained { ExplainingLaw }
{}

/// The replies of a run are the answers of its log, as this function's contract. For all settings
/// in their ranges, every program and every number of cycles, the log's answers are the replies
/// that were delivered so far. They agree one by one, in the same order, in the processing element
/// (PE), the value and the cycle. The request of each was issued in an earlier cycle, by that PE,
/// for the cell of the reply, and has the number that the answer names.
///
/// So what the serialization law says of answers it says of the replies that come to the processing
/// elements. The function itself does nothing.
pub fn reply_law()
    ensures answered { ReplyLaw }
{}

/// Each event of a run can be absorbed by the trees kept so far, as this function's contract. It
/// holds for all settings in their ranges, every program, every cycle and each of its events in
/// order. A request that is served or combines is held. One that is issued isn't held yet, and
/// there is room for it. The tree of a request that is served is at most as high as there are
/// stages, and has at most one leaf of each processing element. Its leaves, in serial order, are
/// the piece that its act adds to the serial list, and nothing else adds to the list. The function
/// itself does nothing.
pub fn explaining_law()
    ensures explained { ExplainingLaw }
{}

/// The law of a hot cell, as this function's contract. Suppose that at some time all queues, wait
/// buffers and modules are empty. Suppose also that each processing element has one request that is
/// not yet in the network, and that all are for one cell. Then the memory serves them as one. With
/// d stages and the cycles counted from that time, the one act on the cell is in cycle d + 1. Every
/// processing element is answered in cycle 2d + 2.
///
/// It holds for all settings in their ranges with a place in each wait buffer, and for every
/// program: what the processing elements issue meanwhile comes behind these requests. That requests
/// for one cell combine at every stage is the 1983 paper's; the counts of cycles are this project's
/// profile of it.
///
/// It does happen, for all settings in their ranges: where the program begins with a reference to
/// cell 0, all have asked for it after the first cycle. The function itself does nothing.
pub fn hot_cell_law()
    ensures at_once { HotCellLaw }
    ensures occurs { HotCellOccurs }
{}

/// The hot spot law, as this function's contract. Suppose that at some time all queues, wait
/// buffers and modules are empty, and each processing element has one request that is not yet in
/// the network. If all these requests are for one cell, the memory serves them by one act. With d
/// stages and the cycles counted from there, the act is in cycle d + 1. Its tree has height d and a
/// leaf for each of the 2^d processing elements. Each of them is answered in cycle 2d + 2. In these
/// cycles there is no other act on the cell.
///
/// It holds for all settings in their ranges with a place in each wait buffer, and for every
/// program. That requests for one cell combine at every stage is the 1983 paper's; the counts of
/// cycles are this project's profile of it. The function itself does nothing.
pub fn hot_spot_law()
    ensures at_once { HotSpotLaw }
{}
