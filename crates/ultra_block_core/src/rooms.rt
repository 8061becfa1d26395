//! Where there is no room for the messages that may come in a cycle.

ghost use Rattle.ultra_block_core.specs.{Prelude.HasNoneFrom, Rooms.HasNoted};

use crate::block::Block;
use ultra_switch::Ports;
use ultra_topology::UnitSet;

/// Where there is no room for the messages that may come in a cycle, noted before a half that
/// sends. Nothing is sent there.
#[derive(Clone, Copy, Drop)]
pub struct Rooms {
    /// Switches without room for replies.
    pub(crate) no_reply_room: UnitSet,
    /// By the memory-side port, switches whose queue there has no room for requests. In `zero` also
    /// the modules whose register holds one.
    pub(crate) no_request_room: Ports<UnitSet>,
}

impl Rooms {
    /// There is room everywhere.
    #[inline(always)]
    pub fn all_open() -> Rooms
        ensures replies { HasNoneFrom result.no_reply_room 0 }
        ensures zero { HasNoneFrom result.no_request_room.zero 0 }
        ensures one { HasNoneFrom result.no_request_room.one 0 }
    {
        Rooms {
            no_reply_room: UnitSet::empty(),
            no_request_room: Ports {
                zero: UnitSet::empty(),
                one: UnitSet::empty(),
            },
        }
    }
}

impl Block {
    /// Notes which of its switches, queues and modules have no room. The blocks of a machine do so
    /// sequentially, and the first begins with `Rooms::all_open`.
    #[inline(always)]
    pub fn rooms(&self, rooms: &mut Rooms)
        ensures { HasNoted self.now rooms.old rooms.new }
    {
        rooms.no_reply_room.add_all(&self.sets.no_reply_room);
        let noted = &mut rooms.no_request_room;
        noted.zero.add_all(&self.sets.no_request_room.zero);
        noted.one.add_all(&self.sets.no_request_room.one);
    }
}
