//! The values and terms that a text begins with.

ghost use Rattle.std.specs.{Prelude.{◌≡◌, ◌<◌, ◌≤◌, IfSome, length}, Option.option_map};
ghost use Rattle.ultra_condition.specs.Limits.{IsThere};
ghost use Rattle.ultra_condition.specs.Grammar.{number_at, cells_to, cells_at, register_at, label_at, between_labels, labels_at, value_at, times, term_at};

use crate::scope::Scope;
use crate::value::{Group, Measure, Term, Value};
use crate::words::{after, word_at};
use ultra_asm::{number_written, register_named};
use ultra_msg::Cell;

/// The number that a text begins with.
#[tactic(auto, unfolding(crate::specs::Grammar::number_at))]
fn number_at(text: &[u8]) -> Option<(u32, &[u8])>
    ensures read { option_map (λ r. (r.0, r.1.now)) result ≡ number_at text.now }
    ensures shorter { IfSome result (λ r. length r.1.now ≤ length text.now) }
{
    let (word, rest) = word_at(text);
    let number = number_written(word)?;
    Some((number, rest))
}

/// The value of some cells, behind the last of which the text begins.
#[tactic(auto, unfolding(crate::specs::Grammar::cells_to))]
fn cells_to<'t>(
    scope: &Scope,
    measure: Measure,
    from: Cell,
    to: Cell,
    text: &'t [u8],
) -> Option<(Value, &'t [u8])>
    ensures read { option_map (λ r. (r.0, r.1.now)) result ≡
        cells_to scope.now measure from to text.now }
    ensures there { IfSome result (λ r. IsThere scope.now.cells scope.now.elements r.0) }
    ensures shorter { IfSome result (λ r. length r.1.now ≤ length text.now) }
{
    if from > to || to >= scope.cells() {
        return None;
    }
    let rest = after(b"]", text)?;
    Some((Value::Cells(measure, from, to), rest))
}

/// The value of the cells that a text begins with, as `[0]` or `[0..7]`.
#[tactic(auto, unfolding(crate::specs::Grammar::cells_at))]
fn cells_at<'t>(scope: &Scope, measure: Measure, text: &'t [u8]) -> Option<(Value, &'t [u8])>
    ensures read { option_map (λ r. (r.0, r.1.now)) result ≡
        cells_at scope.now measure text.now }
    ensures there { IfSome result (λ r. IsThere scope.now.cells scope.now.elements r.0) }
    ensures shorter { IfSome result (λ r. length r.1.now ≤ length text.now) }
{
    let rest = after(b"[", text)?;
    let (from, rest) = number_at(rest)?;
    let Some(behind) = after(b"..", rest) else {
        return cells_to(scope, measure, from, from, rest);
    };
    let (to, rest) = number_at(behind)?;
    cells_to(scope, measure, from, to, rest)
}

/// The register of a processing element that a text begins with, as `0.r1`.
#[tactic(auto, unfolding(crate::specs::Grammar::register_at))]
fn register_at<'t>(scope: &Scope, text: &'t [u8]) -> Option<(Value, &'t [u8])>
    ensures read { option_map (λ r. (r.0, r.1.now)) result ≡ register_at scope.now text.now }
    ensures there { IfSome result (λ r. IsThere scope.now.cells scope.now.elements r.0) }
    ensures shorter { IfSome result (λ r. length r.1.now ≤ length text.now) }
{
    let (pe, rest) = number_at(text)?;
    let rest = after(b".", rest)?;
    let (word, rest) = word_at(rest);
    let register = register_named(word)?;
    if pe < scope.elements() {
        Some((Value::Register(pe, register), rest))
    } else {
        None
    }
}

/// The place of the label that a text begins with.
#[tactic(auto, unfolding(crate::specs::Grammar::label_at))]
fn label_at<'t>(scope: &Scope, text: &'t [u8]) -> Option<(u16, &'t [u8])>
    ensures read { option_map (λ r. (r.0, r.1.now)) result ≡ label_at scope.now text.now }
    ensures small { IfSome result (λ r. r.0 ≤ 4096) }
    ensures shorter { IfSome result (λ r. length r.1.now ≤ length text.now) }
{
    let (word, rest) = word_at(text);
    let place = scope.place(word)?;
    Some((place, rest))
}

/// How many processing elements are at the places from the first on and before the second.
#[tactic(auto, unfolding(crate::specs::Grammar::between_labels))]
fn between_labels<'t>(
    scope: &Scope,
    from: u16,
    to: u16,
    rest: &'t [u8],
) -> Option<(Value, &'t [u8])>
    ensures read { option_map (λ r. (r.0, r.1.now)) result ≡
        between_labels scope.now from to rest.now }
    ensures there { IfSome result (λ r. IsThere scope.now.cells scope.now.elements r.0) }
    ensures shorter { IfSome result (λ r. length r.1.now ≤ length rest.now) }
{
    if scope.has_reference(from, to) {
        Some((Value::Elements(Group::At(from, to)), rest))
    } else {
        None
    }
}

/// How many processing elements are at the places of the labels that a text begins with, as `in` or
/// `in..out`.
#[tactic(auto, unfolding(crate::specs::Grammar::labels_at))]
fn labels_at<'t>(scope: &Scope, text: &'t [u8]) -> Option<(Value, &'t [u8])>
    ensures read { option_map (λ r. (r.0, r.1.now)) result ≡ labels_at scope.now text.now }
    ensures there { IfSome result (λ r. IsThere scope.now.cells scope.now.elements r.0) }
    ensures shorter { IfSome result (λ r. length r.1.now ≤ length text.now) }
{
    let (from, rest) = label_at(scope, text)?;
    let Some(behind) = after(b"..", rest) else {
        return between_labels(scope, from, from + 1, rest);
    };
    let (to, rest) = label_at(scope, behind)?;
    between_labels(scope, from, to, rest)
}

/// The value that a text begins with.
#[tactic(auto, unfolding(crate::specs::Grammar::value_at))]
fn value_at<'t>(scope: &Scope, text: &'t [u8]) -> Option<(Value, &'t [u8])>
    ensures read { option_map (λ r. (r.0, r.1.now)) result ≡ value_at scope.now text.now }
    ensures there { IfSome result (λ r. IsThere scope.now.cells scope.now.elements r.0) }
    ensures shorter { IfSome result (λ r. length r.1.now ≤ length text.now) }
{
    if let Some(rest) = after(b"least", text) {
        return cells_at(scope, Measure::Least, rest);
    }
    if let Some(rest) = after(b"greatest", text) {
        return cells_at(scope, Measure::Greatest, rest);
    }
    if let Some(rest) = after(b"at", text) {
        return labels_at(scope, rest);
    }
    if let Some(rest) = after(b"running", text) {
        return Some((Value::Elements(Group::Running), rest));
    }
    if let Some(rest) = after(b"halted", text) {
        return Some((Value::Elements(Group::Halted), rest));
    }
    if let Some(rest) = after(b"faulted", text) {
        return Some((Value::Elements(Group::Faulted), rest));
    }
    if after(b"[", text).is_some() {
        return cells_at(scope, Measure::Total, text);
    }
    register_at(scope, text)
}

/// The value that a text begins with, as many times as the factor says.
#[tactic(auto, unfolding(crate::specs::Grammar::times))]
fn times<'t>(scope: &Scope, factor: u32, text: &'t [u8]) -> Option<(Term, &'t [u8])>
    ensures read { option_map (λ r. (r.0, r.1.now)) result ≡ times scope.now factor text.now }
    ensures there { IfSome result (λ r. IsThere scope.now.cells scope.now.elements r.0.value) }
    ensures shorter { IfSome result (λ r. length r.1.now ≤ length text.now) }
{
    match value_at(scope, text) {
        Some((value, rest)) => Some((Term { factor, value }, rest)),
        None => None,
    }
}

/// The term that a text begins with.
#[tactic(auto, unfolding(crate::specs::Grammar::term_at))]
pub(crate) fn term_at<'t>(scope: &Scope, text: &'t [u8]) -> Option<(Term, &'t [u8])>
    ensures read { option_map (λ r. (r.0, r.1.now)) result ≡ term_at scope.now text.now }
    ensures there { IfSome result (λ r. IsThere scope.now.cells scope.now.elements r.0.value) }
    ensures shorter { IfSome result (λ r. length r.1.now ≤ length text.now) }
{
    let Some((number, rest)) = number_at(text) else {
        return times(scope, 1, text);
    };
    if let Some(behind) = after(b"*", rest) {
        return times(scope, number, behind);
    }
    if after(b".", rest).is_some() {
        return times(scope, 1, text);
    }
    let value = Value::One;
    let term = Term {
        factor: number,
        value,
    };
    Some((term, rest))
}
