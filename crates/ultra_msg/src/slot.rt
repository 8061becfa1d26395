//! A place for one item.

ghost use Rattle.std.specs.Prelude.{◌≡◌, Some, None, is_some, not};

use std::marker::Model;

/// A place for one item. Emptying it takes one instruction: the item stays in memory, and only what
/// says that it is there goes.
#[derive(Drop)]
pub struct Slot<T> {
    is_full: bool,
    item: T,
}

impl<T> Model for Slot<T> {
    ghost use Rattle.std.specs.{Prelude.Option, Coded.coded_option};
    ghost use Rattle.ultra_msg.specs.Slot.{item_if};

    ghost Value = { Option T };

    ghost coded = { coded_option T.code };

    ghost view = { λ s. item_if s.is_full s.item };
}

impl<T: Copy + Default> Slot<T> {
    /// A place without an item.
    pub fn empty() -> Slot<T>
        ensures { result ≡ None }
    {
        Slot {
            is_full: false,
            item: T::default(),
        }
    }

    /// Whether no item is there.
    #[inline(always)]
    pub fn is_empty(&self) -> bool
        ensures { result ≡ not (is_some self.now) }
    {
        !self.is_full
    }

    /// The item, if one is there.
    #[inline(always)]
    pub fn get(&self) -> Option<T>
        ensures { result ≡ self.now }
    {
        if self.is_full { Some(self.item) } else { None }
    }

    /// Puts an item there, in place of what was there.
    #[inline(always)]
    pub fn fill(&mut self, item: T)
        ensures { self.new ≡ Some item }
    {
        self.item = item;
        self.is_full = true;
    }

    /// Takes the item, if one is there.
    #[inline(always)]
    pub fn take(&mut self) -> Option<T>
        ensures value { result ≡ self.old }
        ensures empty { self.new ≡ None }
    {
        let item = self.get();
        self.is_full = false;
        item
    }
}
