//! What is known of the units of a block, as sets of their numbers.

ghost use Rattle.std.specs.Prelude.{◌≡◌, ℕ, ◌<◌, true, false, Some, is_some, ◌&&◌, ◌||◌};
ghost use Rattle.ultra_block_core.specs.Prelude.{has_stopped, holds_request, has_reply_room, has_request_room, holds_replies, holds_requests, keeps_records, has_unit};
ghost use Rattle.ultra_block_core.specs.Sets.{AreNoted, all_noted, element_facts, facts_at, module_facts, no_facts, replies_noted, request_noted, requests_noted, switch_facts, would_serve};

use ultra_mem::Module;
use ultra_switch::{Ports, Switch};
use ultra_topology::{UnitNumber, UnitSet};
use ultra_unit_steps::{ProcessingElement, modules, switches};

/// What is known of the units of a block, as sets of their numbers. Each is exactly the set of the
/// units for which it is true.
#[derive(Drop)]
pub(crate) struct Sets {
    /// The units of the block.
    pub(crate) here: UnitSet,
    /// Switches and modules that hold a reply to send.
    pub(crate) holds_replies: UnitSet,
    /// Switches without room for the replies that may come in a cycle.
    pub(crate) no_reply_room: UnitSet,
    /// Units that hold a request: switches and processing elements one to send, modules one to
    /// serve.
    pub(crate) holds_requests: UnitSet,
    /// By the memory-side port, switches whose queue there has no room for the requests that may
    /// come in a cycle. In `zero` also the modules whose register holds one.
    pub(crate) no_request_room: Ports<UnitSet>,
    /// Modules that hold a request and no reply.
    pub(crate) to_serve: UnitSet,
    /// Processing elements that haven't stopped.
    pub(crate) running: UnitSet,
    /// Switches that keep a record of a combination.
    pub(crate) keeps_records: UnitSet,
}

impl Sets {
    /// The sets of a block without units.
    pub(crate) fn empty() -> Sets
        ensures { (k : ℕ) → facts_at result k ≡ no_facts }
    {
        let none = UnitSet::empty();
        Sets {
            here: none,
            holds_replies: none,
            no_reply_room: none,
            holds_requests: none,
            no_request_room: Ports {
                zero: none,
                one: none,
            },
            to_serve: none,
            running: none,
            keeps_records: none,
        }
    }

    /// Adds a unit to the block. What is true of it is noted afterwards.
    pub(crate) fn add_unit(&mut self, unit: UnitNumber)
        ensures { AreNoted unit (λ _. record no_facts { here = true }) self.old self.new }
    {
        self.remove_unit(unit);
        self.here.insert(unit);
    }

    /// Adds a switch to the block, and notes what is true of it.
    pub(crate) fn add_switch(&mut self, unit: UnitNumber, switch: &Switch)
        ensures { AreNoted unit (λ _. switch_facts (Some switch.now)) self.old self.new }
    {
        self.add_unit(unit);
        self.note_switch_took_requests(unit, switch, true);
        self.note_switch_took_replies(unit, switch);
    }

    /// Adds a module to the block, and notes what is true of it.
    pub(crate) fn add_module(&mut self, unit: UnitNumber, memory_module: &Module)
        ensures { AreNoted unit (λ _. module_facts (Some memory_module.now)) self.old self.new }
    {
        self.add_unit(unit);
        self.holds_replies
            .insert_if(unit, modules::holds_reply(memory_module));
        self.note_module_took_request(unit, memory_module);
    }

    /// Adds a processing element to the block, and notes what is true of it.
    pub(crate) fn add_element(&mut self, unit: UnitNumber, element: &ProcessingElement)
        ensures { AreNoted unit (λ _. element_facts (Some element.now)) self.old self.new }
    {
        self.add_unit(unit);
        self.holds_requests.insert_if(unit, element.holds_request());
        self.running.insert_if(unit, !element.has_stopped());
    }

    /// Removes a unit from the block.
    pub(crate) fn remove_unit(&mut self, unit: UnitNumber)
        ensures { AreNoted unit (λ _. no_facts) self.old self.new }
    {
        self.here.remove(unit);
        self.holds_replies.remove(unit);
        self.no_reply_room.remove(unit);
        self.holds_requests.remove(unit);
        self.no_request_room.zero.remove(unit);
        self.no_request_room.one.remove(unit);
        self.to_serve.remove(unit);
        self.running.remove(unit);
        self.keeps_records.remove(unit);
    }

    /// Notes what is true of the replies of a switch of the block, once replies have left it.
    #[inline(always)]
    pub(crate) fn note_switch_sent_replies(&mut self, unit: UnitNumber, switch: &Switch)
        ensures { AreNoted unit (replies_noted ◌&&◌ switch.now) self.old self.new }
    {
        self.holds_replies
            .remove_unless(unit, switches::holds_replies(switch));
        if self.no_reply_room.has(unit) {
            let is_full = !switches::has_reply_room(switch);
            self.no_reply_room.remove_unless(unit, is_full);
        }
    }

    /// Notes what is true of the requests of a switch of the block, once requests have left it.
    #[inline(always)]
    pub(crate) fn note_switch_sent_requests(&mut self, unit: UnitNumber, switch: &Switch)
        ensures { AreNoted unit (requests_noted ◌&&◌ switch.now) self.old self.new }
    {
        self.holds_requests
            .remove_unless(unit, switches::holds_requests(switch));
        let no_room = &mut self.no_request_room;
        if no_room.zero.has(unit) || no_room.one.has(unit) {
            let room = switches::has_request_room(switch);
            no_room.zero.remove_unless(unit, !room.zero);
            no_room.one.remove_unless(unit, !room.one);
        }
    }

    /// Notes what is true of a switch of the block, once replies have come to it. It keeps no
    /// record that it didn't keep before.
    #[inline(always)]
    pub(crate) fn note_switch_took_replies(&mut self, unit: UnitNumber, switch: &Switch)
        ensures { AreNoted unit (λ f. record (replies_noted ◌||◌ switch.now f) {
          keeps_records = f.keeps_records && keeps_records switch.now;
        }) self.old self.new }
    {
        let is_full = !switches::has_reply_room(switch);
        self.holds_replies
            .insert_if(unit, switches::holds_replies(switch));
        self.no_reply_room.insert_if(unit, is_full);
        if self.keeps_records.has(unit) {
            self.keeps_records
                .remove_unless(unit, switches::keeps_records(switch));
        }
    }

    /// Notes what is true of a switch of the block, once requests have come to it. Unless its
    /// records `may_differ`, they are noted already.
    #[inline(always)]
    pub(crate) fn note_switch_took_requests(
        &mut self,
        unit: UnitNumber,
        switch: &Switch,
        may_differ: bool,
    )
        ensures { AreNoted unit (all_noted may_differ switch.now) self.old self.new }
    {
        let room = switches::has_request_room(switch);
        self.holds_requests
            .insert_if(unit, switches::holds_requests(switch));
        self.no_request_room.zero.insert_if(unit, !room.zero);
        self.no_request_room.one.insert_if(unit, !room.one);
        if may_differ {
            self.keeps_records
                .insert_if(unit, switches::keeps_records(switch));
        }
    }

    /// Notes what is true of a module of the block, once a request has come to it.
    #[inline(always)]
    pub(crate) fn note_module_took_request(&mut self, unit: UnitNumber, memory_module: &Module)
        ensures { AreNoted unit (request_noted ◌||◌ memory_module.now) self.old self.new }
    {
        let holds_request = modules::holds_request(memory_module);
        self.holds_requests.insert_if(unit, holds_request);
        self.no_request_room.zero.insert_if(unit, holds_request);
        self.to_serve.insert_if(unit, holds_request && !modules::holds_reply(memory_module));
    }

    /// Notes what is true of a module of the block, once it has served.
    #[inline(always)]
    pub(crate) fn note_module_served(&mut self, unit: UnitNumber, memory_module: &Module)
        ensures { AreNoted unit (λ f. record (request_noted ◌&&◌ memory_module.now f) {
          holds_replies = f.holds_replies || is_some memory_module.now.out;
        }) self.old self.new }
    {
        let holds_reply = modules::holds_reply(memory_module);
        let holds_request = modules::holds_request(memory_module);
        self.holds_replies.insert_if(unit, holds_reply);
        self.holds_requests.remove_unless(unit, holds_request);
        self.no_request_room.zero.remove_unless(unit, holds_request);
        self.to_serve
            .remove_unless(unit, holds_request && !holds_reply);
    }

    /// Notes what is true of a module of the block, once a reply has left it.
    #[inline(always)]
    pub(crate) fn note_module_sent_reply(&mut self, unit: UnitNumber, memory_module: &Module)
        ensures { AreNoted unit
            (λ f. record f {
              holds_replies = f.holds_replies && is_some memory_module.now.out;
              to_serve = f.to_serve || would_serve memory_module.now;
            }) self.old self.new }
    {
        let holds_reply = modules::holds_reply(memory_module);
        self.holds_replies.remove_unless(unit, holds_reply);
        self.to_serve.insert_if(unit, modules::holds_request(memory_module) && !holds_reply);
    }

    /// Notes that a processing element holds a request.
    #[inline(always)]
    pub(crate) fn note_element_issued(&mut self, unit: UnitNumber)
        ensures { AreNoted unit (λ f. record f { holds_requests = true }) self.old self.new }
    {
        self.holds_requests.insert(unit);
    }

    /// Notes that a processing element has stopped.
    #[inline(always)]
    pub(crate) fn note_element_stopped(&mut self, unit: UnitNumber)
        ensures { AreNoted unit (λ f. record f { running = false }) self.old self.new }
    {
        self.running.remove(unit);
    }

    /// Notes what is true of the requests of a processing element, once one has left it.
    #[inline(always)]
    pub(crate) fn note_element_sent_request(
        &mut self,
        unit: UnitNumber,
        element: &ProcessingElement,
    )
        ensures { AreNoted unit
            (λ f. record f { holds_requests = f.holds_requests && holds_request element.now })
            self.old self.new }
    {
        self.holds_requests
            .remove_unless(unit, element.holds_request());
    }
}
