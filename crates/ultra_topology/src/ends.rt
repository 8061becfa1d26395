//! Messages at the ends of the network: they leave memory modules and processing elements, and come
//! to them.

ghost use Rattle.std.specs.Prelude.{◌≡◌, ◌^◌, ◌<◌, None, slice_set};
ghost use Rattle.ultra_topology.specs.{Inlets.LeadsToNoOther, Numbers.link_number as number_of_link, Links.put_on, Marks.{delivery_link, memory_link, on_link}, Units.{IsElement, IsModule}};

use crate::links::{Links, Message};
use crate::numbers::link_number;
use crate::unit_set::UnitNumber;
use ultra_msg::{ReplyPacket, RequestPacket};
use ultra_route::Net;

/// A message, if there is one, leaves a memory module or a processing element for the switch
/// `target`.
#[inline(always)]
pub fn send_from_end<M: Message>(
    links: &mut Links<M>,
    net: Net,
    number: u32,
    target: UnitNumber,
    message: Option<M>,
)
    requires number { number < 2 ^ net }
    requires leads { LeadsToNoOther (M.inlets net) net (number_of_link net net number) target }
    requires stages { links.old.stages ≡ net }
    ensures { links.new ≡ record links.old {
      table = put_on links.old.table
          (number_of_link net net number) message;
      targets = links.new.targets;
    } }
{
    // for the prover: the number of positions is even, and at most 64
    let _even = net.size();
    links.put(link_number(net, net.stages(), number), target, message);
}

/// Takes what comes to a processing element.
#[inline(always)]
pub fn take_for_element(
    links: &mut Links<ReplyPacket>,
    net: Net,
    unit: UnitNumber,
    pe: u32,
) -> Option<ReplyPacket>
    requires element { IsElement net unit pe }
    requires stages { links.old.stages ≡ net }
    ensures incoming { result ≡ on_link links.old.table (delivery_link net pe) }
    ensures rest { links.new ≡ record links.old {
      table = slice_set links.old.table
          (delivery_link net pe) None;
      targets = links.new.targets;
    } }
{
    // for the prover: a network has 1 to `MOST_STAGES` stages
    let _stages = net.stages();
    let reply = links.take(link_number(net, 0, net.shuffle(pe)));
    links.clear(unit);
    reply
}

/// Takes what comes to a memory module.
#[inline(always)]
pub fn take_for_module(
    links: &mut Links<RequestPacket>,
    net: Net,
    unit: UnitNumber,
    module_number: u32,
) -> Option<RequestPacket>
    requires target { IsModule net unit module_number }
    requires stages { links.old.stages ≡ net }
    ensures incoming { result ≡ on_link links.old.table (memory_link net module_number) }
    ensures rest { links.new ≡ record links.old {
      table = slice_set links.old.table
          (memory_link net module_number) None;
      targets = links.new.targets;
    } }
{
    let request = links.take(link_number(net, net.stages() - 1, module_number));
    links.clear(unit);
    request
}
