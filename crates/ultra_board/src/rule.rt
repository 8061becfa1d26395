//! The rule of a board's table: what a seat knows, and what the seat that steps learns from each
//! kind of atomic step. Each kind names its word.
//!
//! A table's rule is a fact over its words and the views of all seats, which every step has to
//! keep. So it holds between any two steps, however the threads take turns.

ghost use Rattle.std.specs.Prelude.{ℕ};
ghost use Rattle.ultra_board.specs.declared.words.TheConstants.{CLAIM, DONE, PASSES};

use atomic_table::{Join, Play, Split, TableRule};
use std::collections::LinkedList;
use std::marker::{Brand, PhantomData};

/// What a board is opened with.
#[derive(Clone, Copy, Drop)]
pub struct Limits {
    /// The numbers that are drawn are those below the limit.
    pub limit: u64,
    /// The most passes that are held at once.
    pub bound: u64,
    /// The places of all seats together.
    pub seats: u64,
}

/// What a seat knows. It is only in contracts: no value of it is made, and no word of the program
/// holds its counts.
pub struct View {
    /// The numbers drawn, in their order.
    pub drawn: LinkedList<u64>,
    /// How often one was added to claim.
    pub claims: u64,
    /// How often claim was loaded, except the loads that splitting and joining make themselves.
    pub claim_loads: u64,
    /// The numbers finished, in their order.
    pub finished: LinkedList<u64>,
    /// The latest count of all numbers finished that was loaded.
    pub seen: u64,
    /// How often the count of all numbers finished was loaded.
    pub reads: u64,
    /// How often the passes were found at or above the bound.
    pub full: u64,
    /// How often the passes were loaded.
    pub loads: u64,
    /// How often one was added to the passes.
    pub adds: u64,
    /// Whether a draw has found no number left.
    pub spent: bool,
    /// The passes held.
    pub held: u64,
    /// The tries for a pass that are under way: an add that went past the bound, and isn't undone
    /// yet.
    pub tries: u64,
    /// The board's limit.
    pub limit: u64,
    /// The board's bound.
    pub bound: u64,
    /// The places, which only splitting and joining move.
    pub places: u64,
}

/// The rule of the board (this project's profile).
pub struct BoardRule;

impl TableRule<u64, View, Limits> for BoardRule {
    ghost use Rattle.ultra_board.specs.{Rule.IsBoardRule, View.first_view};

    ghost holds = { IsBoardRule };

    ghost first = { first_view };
}

/// An add to claim: it draws a number, or spends the seat.
pub struct AddToClaim;

impl Play<u64, View> for AddToClaim {
    ghost use Rattle.ultra_board.specs.Step.{HasEffect, AddsToClaim};

    ghost then = { HasEffect CLAIM AddsToClaim };
}

/// A number that a proof picks.
pub trait Number {
    ghost number: { ℕ };
}

impl Number for Brand {
    ghost number = { 0 };
}

/// An add to done: it finishes the number.
pub struct AddToDone<N: Number> {
    number: PhantomData<N>,
}

impl<N: Number> Play<u64, View> for AddToDone<N> {
    ghost use Rattle.ultra_board.specs.Step.{HasEffect, AddsToDone};

    ghost then = { HasEffect DONE (AddsToDone N.number) };
}

/// A load of done.
pub struct LoadOfDone;

impl Play<u64, View> for LoadOfDone {
    ghost use Rattle.ultra_board.specs.Step.{HasEffect, LoadsDone};

    ghost then = { HasEffect DONE LoadsDone };
}

/// A load of passes.
pub struct LoadOfPasses;

impl Play<u64, View> for LoadOfPasses {
    ghost use Rattle.ultra_board.specs.Step.{HasEffect, LoadsPasses};

    ghost then = { HasEffect PASSES LoadsPasses };
}

/// An add to passes: it takes a pass, or begins a try that has to be undone.
pub struct AddToPasses;

impl Play<u64, View> for AddToPasses {
    ghost use Rattle.ultra_board.specs.Step.{HasEffect, AddsToPasses};

    ghost then = { HasEffect PASSES AddsToPasses };
}

/// A subtraction from passes: it undoes a try, or gives a pass back.
pub struct SubtractFromPasses;

impl Play<u64, View> for SubtractFromPasses {
    ghost use Rattle.ultra_board.specs.Step.{HasEffect, SubtractsFromPasses};

    ghost then = { HasEffect PASSES (λ v _ w. SubtractsFromPasses v w) };
}

/// A load of claim that looks at no value. It shows what the rule says of the seat's own view.
pub struct LoadOfClaim;

impl Play<u64, View> for LoadOfClaim {
    ghost use Rattle.ultra_board.specs.Step.{HasEffect, LoadsClaim};

    ghost then = { HasEffect CLAIM (λ v _ w. LoadsClaim v w) };
}

/// How a seat is split: the second seat has one place and nothing else.
pub struct OnePlace;

impl Split<View> for OnePlace {
    ghost use Rattle.std.specs.Prelude.{◌-◌};
    ghost use Rattle.ultra_board.specs.View.{second_view};

    ghost left = { λ v. record v { places = v.places - 1 } };

    ghost right = { second_view };
}

/// How two seats are joined.
pub struct Both;

impl Join<View> for Both {
    ghost use Rattle.ultra_board.specs.View.{joined_view, no_view};

    ghost both = { joined_view };

    ghost spent = { no_view };
}
