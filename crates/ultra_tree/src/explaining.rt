//! The explainer, which keeps the trees of the requests that are on their way to memory.

ghost use Rattle.std.specs.Prelude.{◌≡◌, ◌≢◌, ℕ, ◌*◌, ◌^◌, ◌<◌, ◌≤◌, [], ◌∷◌, ◌↔◌, None, Some, false, true, not, option_map, IfOk, IfErr, IsSome, IsTrue, OnOk};
ghost use Rattle.ultra_model.specs.Machine.{size};
ghost use Rattle.ultra_msg.specs.declared.Event.TheVariants.{Combined};
ghost use Rattle.ultra_serial_law.specs.{Tree.{tree_of as tree_in, kept, without, trees_after}, Explicable.{IsAbsorbable, served_tree, held_by}};
ghost use Rattle.ultra_tree.specs.{Absorb.{event_cell, nothing_absorbed, ExplainsExplainFault}, Seen.seen, declared.explaining.ExplainFault.TheVariants.{Full, Spent}};

use crate::order::Order;
use crate::slots::{Slot, add_free, count_of, free_place, place_of};
use crate::trees::Tree;
use std::alloc::Allocator;
use std::marker::Model;
use std::mem;
use std::snapshot::Snapshot;
use ultra_model::Config;
use ultra_msg::{Cell, Event, Pe, Request};

/// Why an event isn't absorbed.
#[derive(Clone, Copy, PartialEq, Eq, Debug, Drop)]
pub enum ExplainFault {
    /// Memory of the allocator was refused; no trees are held from then on.
    Full,
    /// Memory was refused before.
    Spent,
}

/// Keeps the trees of the requests that are on their way to memory, as the events of a machine make
/// them.
#[derive(Drop)]
pub struct Explainer<A: Allocator> {
    elements: u32,
    most_open: u32,
    is_spent: bool,
    /// The trees. Each processing element has `most_open` slots, one for each request that it can
    /// have on its way.
    slots: Vec<Slot<A>, A>,
    /// The order of the trees, for contracts alone.
    order: Order<A>,
}

impl<A: Allocator> Model for Explainer<A> {
    ghost use Rattle.std.specs.{Prelude.{◌≤◌, ◌*◌}, Vec.vec_capacity};
    ghost use Rattle.ultra_tree.specs.{Absorb.{ExplainerState, AreWithin}, Slots.AreSlotsOf, Stored.explained_code};

    ghost Value = { ExplainerState };

    ghost coded = { explained_code };

    ghost use Rattle.ultra_tree.specs.Slots.{trees_of};

    ghost view = { λ e. record {
      elements = e.elements;
      most_open = e.most_open;
      is_spent = e.is_spent;
      trees = trees_of e.order;
    } };

    ghost invariant = { λ e. (e.elements * e.most_open ≤ vec_capacity e.slots)
        × AreWithin e.elements e.most_open (trees_of e.order)
        × AreSlotsOf e.elements e.most_open e.slots.items (trees_of e.order) };
}

impl<A: Allocator + Clone> Explainer<A> {
    /// An explainer of a machine with these settings, which holds no trees. `Full` means that
    /// memory of the allocator was refused.
    pub fn new(config: &Config, alloc: A) -> Result<Explainer<A>, ExplainFault>
        ensures ok { IfOk result (λ e.
            e ≡ nothing_absorbed (size config.now) config.now.most_open) }
        ensures fault { IfErr result (λ f. f ≡ Full) }
    {
        let elements = config.net().size();
        let most_open = config.most_open();
        let places = elements as usize * most_open as usize;
        let Ok(mut slots) = Vec::with_capacity(alloc, places) else {
            return Err(ExplainFault::Full);
        };
        add_free(&mut slots, places);
        Ok(Explainer {
            elements,
            most_open,
            is_spent: false,
            slots,
            order: Order::Empty,
        })
    }

    /// The tree of the request of a processing element for a cell, if one is held.
    pub fn tree_of(&self, pe: Pe, cell: Cell) -> Option<&Tree<A>>
        ensures { option_map (λ t. seen cell t.now) result ≡ tree_in pe cell self.now.trees }
    {
        let place = place_of(
            self.slots.as_slice(),
            self.elements,
            self.most_open,
            pe,
            cell,
        )?;
        match &self.slots[place] {
            Slot::Free => None,
            Slot::Held { tree, .. } => Some(tree),
        }
    }

    /// Whether `absorb` may be called with an event. At `Served` and `Combined` the requests have
    /// to be held, at `Combined` those of two processing elements (PEs). At `Issued` the request
    /// isn't held yet, its PE is one of the machine's, and fewer of that PE's requests are held
    /// than it may have open cells.
    pub fn accepts(&self, event: &Event) -> bool
        ensures { IsTrue result
            ↔ IsAbsorbable self.now.elements self.now.most_open self.now.trees event.now }
    {
        match *event {
            Event::Delivered(_) => true,
            Event::Served { request, .. } => self.holds(request.pe, request.cell),
            Event::Combined { cell, old, new, .. } => {
                old != new && self.holds(old, cell) && self.holds(new, cell)
            }
            Event::Issued { request, .. } => {
                !self.holds(request.pe, request.cell)
                    && request.pe < self.elements
                    && self.has_room(request.pe)
            }
        }
    }

    /// Whether the request of a processing element for a cell is held.
    fn holds(&self, pe: Pe, cell: Cell) -> bool
        ensures held { IsTrue result ↔ IsSome (tree_in pe cell self.now.trees) }
        ensures free { IsTrue (not result) ↔ (tree_in pe cell self.now.trees ≡ None) }
    {
        place_of(
            self.slots.as_slice(),
            self.elements,
            self.most_open,
            pe,
            cell,
        )
        .is_some()
    }

    /// Whether a processing element of the machine can have one request more on its way.
    fn has_room(&self, pe: Pe) -> bool
        requires { pe < self.now.elements }
        ensures { IsTrue result ↔ (held_by pe self.now.trees < self.now.most_open) }
    {
        count_of(self.slots.as_slice(), self.most_open, pe) < self.most_open as usize
    }

    /// Takes the tree of the request of a processing element for a cell.
    fn take(&mut self, pe: Pe, cell: Cell) -> Tree<A>
        requires { IsSome (tree_in pe cell self.old.trees) }
        ensures tree { Some (seen cell result) ≡ tree_in pe cell self.old.trees }
        ensures trees { self.new ≡ record self.old { trees = without pe cell self.old.trees } }
        ensures element { pe < self.old.elements }
        ensures room { held_by pe self.new.trees < self.old.most_open }
        ensures free { tree_in pe cell self.new.trees ≡ None }
    {
        let Some(place) = place_of(
            self.slots.as_slice(),
            self.elements,
            self.most_open,
            pe,
            cell,
        ) else {
            unreachable!()
        };
        let Slot::Held { tree, .. } = mem::replace(&mut self.slots[place], Slot::Free) else {
            unreachable!()
        };
        self.order = Order::Taken(
            Snapshot::of(&self.order),
            Snapshot::of(&pe),
            Snapshot::of(&cell),
        );
        tree
    }

    /// Holds a tree under an identity.
    fn put(&mut self, pe: Pe, cell: Cell, tree: Tree<A>)
        requires element { pe < self.old.elements }
        requires room { held_by pe self.old.trees < self.old.most_open }
        requires free { tree_in pe cell self.old.trees ≡ None }
        ensures { self.new
            ≡ record self.old { trees = kept pe cell (seen cell tree) ∷ self.old.trees } }
    {
        let place = free_place(self.slots.as_slice(), self.most_open, pe);
        self.order = Order::Put(
            Snapshot::of(&self.order),
            Snapshot::of(&pe),
            Snapshot::of(&cell),
            Snapshot::of(&tree),
        );
        self.slots[place] = Slot::Held { cell, tree };
    }

    /// Drops the trees for good.
    fn drop_trees(&mut self)
        ensures { self.new ≡ record self.old { is_spent = true; trees = [] } }
    {
        let places = self.elements as usize * self.most_open as usize;
        self.is_spent = true;
        self.slots.clear();
        add_free(&mut self.slots, places);
        self.order = Order::Empty;
    }

    /// Absorbs an event of the machine. At `Served` it gives the tree of the request that was
    /// served, and otherwise `None`.
    ///
    /// `Full` comes at `Combined` alone, and says that memory of the allocator was refused. No
    /// trees are held then, and every later call answers `Spent`. Unless memory was refused before,
    /// there is a condition. At `Served` and `Combined` the requests have to be held, at `Combined`
    /// those of two processing elements (PEs). At `Issued` the request isn't held yet, its PE is
    /// one of the machine's, and fewer of that PE's requests are held than it may have open cells.
    pub fn absorb(&mut self, event: &Event) -> Result<Option<Tree<A>>, ExplainFault>
        requires { self.old.is_spent ≡ false
            → IsAbsorbable self.old.elements self.old.most_open self.old.trees event.now }
        ensures working { OnOk result (self.old.is_spent ≡ false) }
        ensures trees { OnOk result
            (self.new ≡ record self.old { trees = trees_after self.old.trees event.now }) }
        ensures served { IfOk result (λ t.
            option_map (seen (event_cell event.now)) t ≡ served_tree self.old.trees event.now) }
        ensures fault { IfErr result (λ f. ExplainsExplainFault self.old event.now f self.new) }
    {
        if self.is_spent {
            return Err(ExplainFault::Spent);
        }
        match *event {
            Event::Delivered(_) => Ok(None),
            Event::Served { request, .. } => Ok(Some(self.take(request.pe, request.cell))),
            Event::Combined {
                stage,
                position,
                cell,
                old,
                new,
                old_first,
            } => {
                self.combine(stage, position, cell, old, new, old_first)?;
                Ok(None)
            }
            Event::Issued { request, number } => {
                let Request { pe, cell, op } = request;
                self.put(pe, cell, Tree::leaf(pe, number, op));
                Ok(None)
            }
        }
    }

    /// The requests of two processing elements for a cell have combined; the request that is sent
    /// for both keeps the identity of the old one.
    fn combine(
        &mut self,
        stage: u32,
        position: u32,
        cell: Cell,
        old: Pe,
        new: Pe,
        old_first: bool,
    ) -> Result<(), ExplainFault>
        requires working { self.old.is_spent ≡ false }
        requires held { IsAbsorbable self.old.elements self.old.most_open self.old.trees
            (Combined stage position cell old new old_first) }
        ensures trees { OnOk result (self.new ≡ record self.old {
          trees = trees_after self.old.trees (Combined stage position cell old new old_first);
        }) }
        ensures fault { IfErr result (λ f.
            (f ≡ Full) × (self.new ≡ record self.old { is_spent = true; trees = [] })) }
    {
        let of_old = self.take(old, cell);
        let of_new = self.take(new, cell);
        let alloc = self.slots.allocator();
        match Tree::pair(alloc, stage, position, of_old, of_new, old_first) {
            Ok(tree) => {
                self.put(old, cell, tree);
                Ok(())
            }
            Err(_) => {
                self.drop_trees();
                Err(ExplainFault::Full)
            }
        }
    }
}
