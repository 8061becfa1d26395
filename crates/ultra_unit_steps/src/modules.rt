//! What the halves of a cycle do to a memory module. It serves by `Module::serve`.

ghost use Rattle.std.specs.Prelude.{◌≡◌, ◌/◌, ◌^◌, ◌<◌, Some, None, is_some, length};
ghost use Rattle.ultra_unit_steps.specs.{Prelude.without_reply, Halves.where_room, Modules.{module_with, quiet_module}};

use ultra_mem::Module;
use ultra_msg::{ReplyPacket, RequestPacket};
use ultra_route::Net;

/// The reply that waits leaves if `goes` says so. `None` says that nothing leaves.
pub fn send_reply_if(memory_module: &mut Module, goes: bool) -> Option<ReplyPacket>
    ensures sent { result ≡ where_room goes memory_module.old.out }
    ensures left { memory_module.new ≡ without_reply memory_module.old result }
{
    if goes {
        memory_module.take_reply_packet()
    } else {
        None
    }
}

/// A request goes into the module's register, with the offset of its cell. The cell is one of the
/// module's, and the register is empty.
pub fn take_request(memory_module: &mut Module, net: Net, request: RequestPacket)
    requires within { request.cell / 2 ^ net < length memory_module.old.cells }
    requires empty { memory_module.old.inp ≡ None }
    ensures { memory_module.new ≡ module_with (2 ^ net) memory_module.old (Some request) }
{
    let offset = request.cell() / net.size();
    memory_module.put_packet(request, offset);
}

/// Whether a reply waits to leave.
#[inline(always)]
pub fn holds_reply(memory_module: &Module) -> bool
    ensures { result ≡ is_some memory_module.now.out }
{
    memory_module.reply().is_some()
}

/// Whether a request waits to be served.
#[inline(always)]
pub fn holds_request(memory_module: &Module) -> bool
    ensures { result ≡ is_some memory_module.now.inp }
{
    memory_module.request().is_some()
}

/// Whether its two registers are empty.
pub fn is_quiet(memory_module: &Module) -> bool
    ensures { result ≡ quiet_module memory_module.now }
{
    memory_module.request().is_none() && memory_module.reply().is_none()
}
