//! The conditions and sums that texts are.

ghost use Rattle.std.specs.{Prelude.{◌≡◌, ◌<◌, ◌≤◌, ◌^◌, IfOk, IfErr, IfSome, None, Some, length, nat_lt, All}, Option.option_map};
ghost use Rattle.ultra_condition.specs.ConditionOf.{condition_of};
ghost use Rattle.ultra_condition.specs.Limits.{most_sum, IsThere, IsWithinLimits, AreWithinLimits};
ghost use Rattle.ultra_condition.specs.Grammar.{sign_at, terms_at, sum_at, comparison_at, negation_at, conjunction_at, disjunction_at, condition_at, read_sum as sum_read, read_condition as condition_read};

use crate::MOST_NESTED;
use crate::condition::Condition;
use crate::fault::ConditionFault;
use crate::operand::term_at;
use crate::scope::Scope;
use crate::sum::{Sign, Sum};
use crate::value::Term;
use crate::words::{after, is_at_end};
use std::alloc::Global;

/// The condition that the text is, of what the scope has.
///
/// Else the fault says that it isn't one, or that memory was refused.
pub fn read_condition(alloc: Global, scope: &Scope, text: &str) -> Result<Condition, ConditionFault>
    ensures read { IfOk result (λ c. condition_read scope.now text.now ≡ Some (condition_of c)) }
    ensures within { IfOk result (λ c.
        AreWithinLimits scope.now.cells scope.now.elements (condition_of c)) }
    ensures refused { IfErr result (λ f. f ≡ ConditionFault.NotOne →
        condition_read scope.now text.now ≡ None) }
{
    let (condition, rest) = disjunction_at(alloc, scope, MOST_NESTED, text.as_bytes())?;
    if is_at_end(rest) {
        Ok(condition)
    } else {
        Err(ConditionFault::NotOne)
    }
}

/// The sum that the text is, of what the scope has.
///
/// Else the fault says that it isn't one, or that memory was refused.
pub fn read_sum(alloc: Global, scope: &Scope, text: &str) -> Result<Sum, ConditionFault>
    ensures read { IfOk result (λ s. sum_read scope.now text.now ≡ Some s) }
    ensures within { IfOk result (λ s. IsWithinLimits scope.now.cells scope.now.elements s) }
    ensures refused { IfErr result (λ f. f ≡ ConditionFault.NotOne →
        sum_read scope.now text.now ≡ None) }
{
    let (sum, rest) = sum_at(alloc, scope, text.as_bytes())?;
    if is_at_end(rest) {
        Ok(sum)
    } else {
        Err(ConditionFault::NotOne)
    }
}

/// The sign that a text begins with.
#[tactic(auto, unfolding(crate::specs::Grammar::sign_at))]
fn sign_at(text: &[u8]) -> Option<(Sign, &[u8])>
    ensures read { option_map (λ r. (r.0, r.1.now)) result ≡ sign_at text.now }
    ensures shorter { IfSome result (λ r. length r.1.now ≤ length text.now) }
{
    if let Some(rest) = after(b"<", text) {
        return Some((Sign::Below, rest));
    }
    if let Some(rest) = after(b"<=", text) {
        return Some((Sign::AtMost, rest));
    }
    if let Some(rest) = after(b"=", text) {
        return Some((Sign::Equal, rest));
    }
    if let Some(rest) = after(b"!=", text) {
        return Some((Sign::Unequal, rest));
    }
    if let Some(rest) = after(b">=", text) {
        return Some((Sign::AtLeast, rest));
    }
    let rest = after(b">", text)?;
    Some((Sign::Above, rest))
}

/// Whether the sum of these terms fits 64 bits, with the greatest word in each cell and register
/// and with this many processing elements.
fn fits(elements: u32, terms: &[Term]) -> bool
    ensures { result ≡ nat_lt (most_sum elements terms.now) (2 ^ 64) }
{
    let mut most = 0u64;
    for term in terms {
        let Some(one) = term.most(elements) else {
            return false;
        };
        let Some(more) = most.checked_add(one) else {
            return false;
        };
        most = more;
    }
    true
}

/// The terms that a text begins with.
fn terms_at<'t>(
    alloc: Global,
    scope: &Scope,
    text: &'t [u8],
) -> Result<(Vec<Term>, &'t [u8]), ConditionFault>
    ensures read { IfOk result (λ r. terms_at scope.now text.now ≡ Some (r.0.items, r.1.now)) }
    ensures there { IfOk result (λ r.
        All (λ t. IsThere scope.now.cells scope.now.elements t.value) r.0.items) }
    ensures shorter { IfOk result (λ r. length r.1.now ≤ length text.now) }
    ensures refused { IfErr result (λ f. f ≡ ConditionFault.NotOne →
        terms_at scope.now text.now ≡ None) }
{
    let mut terms = Vec::new(alloc);
    let Some((first, mut rest)) = term_at(scope, text) else {
        return Err(ConditionFault::NotOne);
    };
    terms.push(first)?;
    while let Some(behind) = after(b"+", rest) {
        let Some((term, next)) = term_at(scope, behind) else {
            return Err(ConditionFault::NotOne);
        };
        terms.push(term)?;
        rest = next;
    }
    Ok((terms, rest))
}

/// The sum that a text begins with.
#[tactic(auto, unfolding(crate::specs::Grammar::sum_at))]
fn sum_at<'t>(
    alloc: Global,
    scope: &Scope,
    text: &'t [u8],
) -> Result<(Sum, &'t [u8]), ConditionFault>
    ensures read { IfOk result (λ r. sum_at scope.now text.now ≡ Some (r.0, r.1.now)) }
    ensures within { IfOk result (λ r. IsWithinLimits scope.now.cells scope.now.elements r.0) }
    ensures shorter { IfOk result (λ r. length r.1.now ≤ length text.now) }
    ensures refused { IfErr result (λ f. f ≡ ConditionFault.NotOne →
        sum_at scope.now text.now ≡ None) }
{
    let (terms, rest) = terms_at(alloc, scope, text)?;
    if fits(scope.elements(), terms.as_slice()) {
        Ok((Sum::new(terms), rest))
    } else {
        Err(ConditionFault::NotOne)
    }
}

/// The comparison that a text begins with.
#[tactic(auto, unfolding(crate::specs::Grammar::comparison_at))]
fn comparison_at<'t>(
    alloc: Global,
    scope: &Scope,
    text: &'t [u8],
) -> Result<(Condition, &'t [u8]), ConditionFault>
    ensures read { IfOk result (λ r.
        comparison_at scope.now text.now ≡ Some (condition_of r.0, r.1.now)) }
    ensures within { IfOk result (λ r.
        AreWithinLimits scope.now.cells scope.now.elements (condition_of r.0)) }
    ensures shorter { IfOk result (λ r. length r.1.now ≤ length text.now) }
    ensures refused { IfErr result (λ f. f ≡ ConditionFault.NotOne →
        comparison_at scope.now text.now ≡ None) }
{
    let (left, rest) = sum_at(alloc, scope, text)?;
    let (sign, rest) = sign_at(rest).ok_or(ConditionFault::NotOne)?;
    let (right, rest) = sum_at(alloc, scope, rest)?;
    Ok((Condition::Compare(left, sign, right), rest))
}

/// The part of a condition that a text begins with and that neither `and` nor `or` is in, unless in
/// brackets.
#[cycle(conditions)]
#[tactic(auto, unfolding(crate::specs::Grammar::negation_at))]
fn negation_at<'t>(
    alloc: Global,
    scope: &Scope,
    depth: usize,
    text: &'t [u8],
) -> Result<(Condition, &'t [u8]), ConditionFault>
    ensures read { IfOk result (λ r.
        negation_at scope.now depth text.now ≡ Some (condition_of r.0, r.1.now)) }
    ensures within { IfOk result (λ r.
        AreWithinLimits scope.now.cells scope.now.elements (condition_of r.0)) }
    ensures shorter { IfOk result (λ r. length r.1.now ≤ length text.now) }
    ensures refused { IfErr result (λ f. f ≡ ConditionFault.NotOne →
        negation_at scope.now depth text.now ≡ None) }
{
    if depth == 0 {
        return comparison_at(alloc, scope, text);
    }
    if let Some(rest) = after(b"not", text) {
        let (condition, rest) = negation_at(alloc, scope, depth - 1, rest)?;
        return Ok((Condition::not(alloc, condition)?, rest));
    }
    if let Some(rest) = after(b"(", text) {
        let (condition, rest) = disjunction_at(alloc, scope, depth - 1, rest)?;
        let rest = after(b")", rest).ok_or(ConditionFault::NotOne)?;
        return Ok((condition, rest));
    }
    comparison_at(alloc, scope, text)
}

/// The part of a condition that a text begins with and that `or` isn't in, unless in brackets.
#[cycle(conditions)]
fn conjunction_at<'t>(
    alloc: Global,
    scope: &Scope,
    depth: usize,
    text: &'t [u8],
) -> Result<(Condition, &'t [u8]), ConditionFault>
    ensures read { IfOk result (λ r.
        conjunction_at scope.now (negation_at scope.now depth) text.now ≡
        Some (condition_of r.0, r.1.now)) }
    ensures within { IfOk result (λ r.
        AreWithinLimits scope.now.cells scope.now.elements (condition_of r.0)) }
    ensures shorter { IfOk result (λ r. length r.1.now ≤ length text.now) }
    ensures refused { IfErr result (λ f. f ≡ ConditionFault.NotOne →
        conjunction_at scope.now (negation_at scope.now depth) text.now ≡ None) }
{
    let (mut all, mut rest) = negation_at(alloc, scope, depth, text)?;
    while let Some(behind) = after(b"and", rest) {
        let (one, next) = negation_at(alloc, scope, depth, behind)?;
        all = Condition::and(alloc, all, one)?;
        rest = next;
    }
    Ok((all, rest))
}

/// The condition that a text begins with.
#[cycle(conditions)]
fn disjunction_at<'t>(
    alloc: Global,
    scope: &Scope,
    depth: usize,
    text: &'t [u8],
) -> Result<(Condition, &'t [u8]), ConditionFault>
    ensures read { IfOk result (λ r.
        condition_at scope.now depth text.now ≡ Some (condition_of r.0, r.1.now)) }
    ensures within { IfOk result (λ r.
        AreWithinLimits scope.now.cells scope.now.elements (condition_of r.0)) }
    ensures shorter { IfOk result (λ r. length r.1.now ≤ length text.now) }
    ensures refused { IfErr result (λ f. f ≡ ConditionFault.NotOne →
        condition_at scope.now depth text.now ≡ None) }
{
    let (mut any, mut rest) = conjunction_at(alloc, scope, depth, text)?;
    while let Some(behind) = after(b"or", rest) {
        let (one, next) = conjunction_at(alloc, scope, depth, behind)?;
        any = Condition::or(alloc, any, one)?;
        rest = next;
    }
    Ok((any, rest))
}
