//! Which units hold something.

ghost use Rattle.ultra_block_core.specs.Holding.{IsSetOf, holds_at};

use crate::block::Block;
use ultra_topology::UnitSet;

/// What a unit may hold.
#[derive(Clone, Copy, Drop)]
pub enum Held {
    /// A reply to send: in a queue of a switch, or in a module.
    Reply,
    /// A request: in a queue of a switch, in the register of a module where it waits to be served,
    /// or in the interface of a processing element.
    Request,
    /// A record of a combination: in a wait buffer of a switch.
    Record,
}

impl Block {
    /// The units of this block that hold what is asked for.
    #[inline(always)]
    pub fn holding(&self, held: Held) -> &UnitSet
        ensures { IsSetOf (holds_at self.now held) result.now }
    {
        match held {
            Held::Reply => &self.sets.holds_replies,
            Held::Request => &self.sets.holds_requests,
            Held::Record => &self.sets.keeps_records,
        }
    }
}
