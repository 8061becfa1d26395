//! The three words of a board, and each kind of atomic step on them. Here, and nowhere else, a word
//! is touched.
ghost use Rattle.std.specs.Prelude.{◌≡◌, ◌+◌, ◌-◌, ◌<◌, ◌≤◌, false, [], IfOk, Contains};
ghost use Rattle.ultra_board.specs.{Rule.IsWithinLimits, Seat.IsTotal, View.{first_view, second_view, joined_view}};
ghost use Rattle.ultra_board.specs.Step.{AddsToClaim, AddsToDone, LoadsDone, LoadsPasses, AddsToPasses, SubtractsFromPasses, LoadsClaim};

use crate::rule::{
    AddToClaim, AddToDone, AddToPasses, BoardRule, Both, Limits, LoadOfClaim, LoadOfDone,
    LoadOfPasses, Number, OnePlace, SubtractFromPasses, View,
};
use atomic_table::{Seat, Table};
use std::alloc::{AllocError, Global};
use std::marker::Model;

/// The word that counts the draws that asked for a number; below the limit it is the next number to
/// draw.
const CLAIM: usize = 0;

/// The word that is the count of the numbers finished.
const DONE: usize = 1;

/// The word that is the count of the passes held and of the tries under way.
const PASSES: usize = 2;

/// What the words know a seat by. It has no bytes.
pub(crate) type Token = Seat<u64, View>;

/// The values of a board's words when it is closed.
#[derive(Clone, Copy, PartialEq, Eq, Debug, Drop)]
pub struct Totals {
    /// How many draws asked for a number: those that got one, and those that found none left.
    pub claimed: u64,
    /// How many numbers are finished.
    pub finished: u64,
    /// How many passes are held.
    pub passes: u64,
}

/// The words, under the board's rule. Contracts see which board's they are, and what that was
/// opened with.
#[derive(Drop)]
pub(crate) struct BoardWords {
    table: Table<u64, View, Limits, BoardRule, Global>,
}

impl Model for BoardWords {
    ghost use Rattle.std.specs.Prelude.{◌≡◌};
    ghost use Rattle.ultra_board.specs.Seat.{BoardState};

    ghost Value = { BoardState };

    ghost view = { λ w. record { id = w.table.shared.table_id; limits = w.table.shared.key } };

    ghost invariant = { λ w. (w.table.shared.table_id.words ≡ 3) ×
        (w.table.shared.table_id.slots ≡ 0) };
}

impl BoardWords {
    /// The words at the start, each 0, and the token of the first seat.
    pub(crate) fn open(alloc: Global, limits: &Limits) -> Result<(BoardWords, Token), AllocError>
        requires { IsWithinLimits limits.now }
        ensures words { IfOk result (λ w. w.0.limits ≡ limits.now) }
        ensures token { IfOk result (λ w. (w.1.table_id ≡ w.0.id) ×
            (w.1.me ≡ (first_view limits.now, []))) }
    {
        let (table, token) = Table::of_words(alloc, &[0, 0, 0], limits)?;
        Ok((BoardWords { table }, token))
    }

    /// Adds 1 to claim, and gives the value before it.
    pub(crate) fn add_to_claim(&self, token: &mut Token) -> u64
        requires board { token.old.table_id ≡ self.now.id }
        requires place { 1 ≤ token.old.me.0.places }
        requires unspent { token.old.me.0.spent ≡ false }
        ensures token { (token.new.table_id ≡ token.old.table_id) ×
            (token.new.me.1 ≡ token.old.me.1) }
        ensures step { AddsToClaim token.old.me.0 result token.new.me.0 }
    {
        self.table.shared.fetch_add::<AddToClaim>(token, CLAIM, 1)
    }

    /// Adds 1 to done, which finishes the number, and gives the value before it. The type parameter
    /// N names the number.
    pub(crate) fn add_to_done<N: Number>(&self, token: &mut Token, number: u64) -> u64
        requires board { token.old.table_id ≡ self.now.id }
        requires drawn { Contains token.old.me.0.drawn number }
        requires unfinished { ¬ Contains token.old.me.0.finished number }
        requires picked { number ≡ N.number }
        ensures token { (token.new.table_id ≡ token.old.table_id) ×
            (token.new.me.1 ≡ token.old.me.1) }
        ensures step { AddsToDone number token.old.me.0 result token.new.me.0 }
    {
        let _ = number;
        self.table.shared.fetch_add::<AddToDone<N>>(token, DONE, 1)
    }

    /// Loads done.
    pub(crate) fn load_done(&self, token: &mut Token) -> u64
        requires { token.old.table_id ≡ self.now.id }
        ensures token { (token.new.table_id ≡ token.old.table_id) ×
            (token.new.me.1 ≡ token.old.me.1) }
        ensures step { LoadsDone token.old.me.0 result token.new.me.0 }
    {
        self.table.shared.load::<LoadOfDone>(token, DONE)
    }

    /// Loads passes.
    pub(crate) fn load_passes(&self, token: &mut Token) -> u64
        requires board { token.old.table_id ≡ self.now.id }
        requires place { 1 ≤ token.old.me.0.places }
        requires no_try { token.old.me.0.tries ≡ 0 }
        ensures token { (token.new.table_id ≡ token.old.table_id) ×
            (token.new.me.1 ≡ token.old.me.1) }
        ensures step { LoadsPasses token.old.me.0 result token.new.me.0 }
    {
        self.table.shared.load::<LoadOfPasses>(token, PASSES)
    }

    /// Adds 1 to passes, and gives the value before it.
    pub(crate) fn add_to_passes(&self, token: &mut Token) -> u64
        requires board { token.old.table_id ≡ self.now.id }
        requires place { 1 ≤ token.old.me.0.places }
        requires no_try { token.old.me.0.tries ≡ 0 }
        ensures token { (token.new.table_id ≡ token.old.table_id) ×
            (token.new.me.1 ≡ token.old.me.1) }
        ensures step { AddsToPasses token.old.me.0 result token.new.me.0 }
    {
        self.table.shared.fetch_add::<AddToPasses>(token, PASSES, 1)
    }

    /// Subtracts 1 from passes: for the try that is under way, or else for a pass that is held.
    pub(crate) fn subtract_from_passes(&self, token: &mut Token)
        requires board { token.old.table_id ≡ self.now.id }
        requires place { 1 ≤ token.old.me.0.places }
        requires some { 0 < token.old.me.0.held + token.old.me.0.tries }
        requires one_try { token.old.me.0.tries ≤ 1 }
        ensures token { (token.new.table_id ≡ token.old.table_id) ×
            (token.new.me.1 ≡ token.old.me.1) }
        ensures step { SubtractsFromPasses token.old.me.0 token.new.me.0 }
    {
        self.table
            .shared
            .fetch_sub::<SubtractFromPasses>(token, PASSES, 1);
    }

    /// Loads claim, and looks at no value.
    pub(crate) fn load_claim(&self, token: &mut Token)
        requires { token.old.table_id ≡ self.now.id }
        ensures token { (token.new.table_id ≡ token.old.table_id) ×
            (token.new.me.1 ≡ token.old.me.1) }
        ensures step { LoadsClaim token.old.me.0 token.new.me.0 }
    {
        self.table.shared.load::<LoadOfClaim>(token, CLAIM);
    }

    /// Splits off a second seat with one place. It loads claim, and looks at no value.
    pub(crate) fn split(&self, token: &mut Token) -> Token
        requires board { token.old.table_id ≡ self.now.id }
        requires places { 2 ≤ token.old.me.0.places }
        requires no_try { token.old.me.0.tries ≡ 0 }
        ensures board { (token.new.table_id ≡ token.old.table_id) ×
            (result.table_id ≡ token.old.table_id) }
        ensures first { token.new.me ≡
            (record token.old.me.0 { places = token.old.me.0.places - 1 }, token.old.me.1) }
        ensures second { result.me ≡ (second_view token.old.me.0, []) }
    {
        self.table.shared.split_seat::<OnePlace>(token)
    }

    /// Joins two seats. It loads claim, and looks at no value.
    pub(crate) fn join(&self, token: &mut Token, other: Token)
        requires board { (token.old.table_id ≡ self.now.id) × (other.table_id ≡ self.now.id) }
        requires place { 1 ≤ token.old.me.0.places }
        requires no_try { (token.old.me.0.tries ≡ 0) × (other.me.0.tries ≡ 0) }
        requires no_slot { other.me.1 ≡ [] }
        ensures board { token.new.table_id ≡ token.old.table_id }
        ensures joined { token.new.me ≡ (joined_view token.old.me.0 other.me.0, token.old.me.1) }
    {
        self.table.shared.join_seat::<Both>(token, other);
    }

    /// The words at the end, where one seat has all places.
    pub(crate) fn close(self, token: Token) -> Totals
        requires board { token.table_id ≡ self.id }
        requires all { token.me.0.places ≡ self.limits.seats }
        requires no_try { token.me.0.tries ≡ 0 }
        ensures { IsTotal token.me.0 result.claimed result.finished result.passes }
    {
        let BoardWords { table } = self;
        let closed = table.close_with(token);
        let totals = Totals {
            claimed: closed.word(CLAIM),
            finished: closed.word(DONE),
            passes: closed.word(PASSES),
        };
        closed.free();
        totals
    }
}
