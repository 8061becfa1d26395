//! Whether anything is left to do in a block.

ghost use Rattle.std.specs.Prelude.{◌≡◌, true, false};
ghost use Rattle.ultra_block_core.specs.{Prelude.{list_all, list_any, quiet_element, quiet_module, quiet_switch}, Quiet.{is_running, or_elsewhere, quiet_block}, Sets.if_here};

use crate::block::Block;
use ultra_mem::Module;
use ultra_switch::Switch;
use ultra_unit_steps::{ProcessingElement, modules, switches};

/// Whether each switch of a block is quiet.
fn are_switches_quiet(entries: &[Option<Switch>]) -> bool
    ensures { result ≡ list_all (or_elsewhere quiet_switch) entries.now }
{
    entries.iter().all(|entry| match entry {
        Some(switch) => switches::is_quiet(switch),
        None => true,
    })
}

/// Whether each module of a block is quiet.
fn are_modules_quiet(entries: &[Option<Module>]) -> bool
    ensures { result ≡ list_all (or_elsewhere quiet_module) entries.now }
{
    entries.iter().all(|entry| match entry {
        Some(memory_module) => modules::is_quiet(memory_module),
        None => true,
    })
}

/// Whether each processing element of a block is quiet.
fn are_elements_quiet(entries: &[Option<ProcessingElement>]) -> bool
    ensures { result ≡ list_all (or_elsewhere quiet_element) entries.now }
{
    entries.iter().all(|entry| match entry {
        Some(element) => element.is_quiet(),
        None => true,
    })
}

impl Block {
    /// Whether one of its processing elements has yet to stop. Then the block isn't quiet. This
    /// first look reads only a few words.
    #[inline(always)]
    pub fn is_stepping(&self) -> bool
        ensures value { result ≡ list_any (if_here is_running) self.now.elements }
        ensures busy { result ≡ true → quiet_block self.now ≡ false }
    {
        !self.sets.running.is_empty()
    }

    /// Whether each of its units is quiet: nothing is in its switches and modules, and its
    /// processing elements have stopped and wait for nothing. It looks no further than the first
    /// that isn't.
    pub fn is_quiet(&self) -> bool
        ensures { result ≡ quiet_block self.now }
    {
        are_elements_quiet(self.elements.as_slice())
            && are_modules_quiet(self.modules.as_slice())
            && are_switches_quiet(self.switches.as_slice())
    }
}
