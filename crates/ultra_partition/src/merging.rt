//! Lists of entries merged into one by rank. No memory is asked for.

ghost use Rattle.std.specs.Prelude.{◌≡◌, ℕ, ◌<◌, [], ◌∷◌, ◌++◌, length};
ghost use Rattle.std.specs.Iterator.{YieldsFirst, item_count};
ghost use Rattle.ultra_partition.specs.Merging.{IsFront, IsRanked, entries_left};

use arrayvec::ArrayVec;
use std::marker::Model;

/// How many lists a merge has room for.
pub const MOST_LISTS: usize = 64;

/// What gives entries their ranks, by which they are merged.
pub trait Ranking<T> {
    /// The rank of an entry.
    ghost rank_of: { Self → T → ℕ };

    /// The bound that the ranks of all merged entries stay below.
    ghost rank_count: { Self → ℕ };

    /// The rank of an entry.
    fn rank(&self, entry: &T) -> usize
        requires { rank_of self.now entry.now < rank_count self.now }
        ensures { result ≡ rank_of self.now entry.now };
}

/// Gives the entries of several lists by rank, and those of one rank list by list. Each list has to
/// be in the order of its ranks.
///
/// The lists are borrowed, and no memory is asked for.
#[derive(Drop)]
pub struct Merge<'a, T, R: Ranking<T>> {
    ranking: R,
    // what is left of each list
    lists: ArrayVec<&'a [T], MOST_LISTS>,
}

impl<'a, T, R: Ranking<T>> Model for Merge<'a, T, R> {
    ghost use Rattle.std.specs.Prelude.{map, All};
    ghost use Rattle.ultra_partition.specs.Merging.{Remainder, remainder_code, IsRanked};

    ghost Value = { Remainder R T };

    ghost coded = { remainder_code R.code T.code };

    ghost view = { λ m.
        record { ranking = m.ranking; lists = map (λ list. list.now) m.lists.items } };

    ghost invariant = { λ m. All
        (λ list. IsRanked (R.rank_of m.ranking) (R.rank_count m.ranking) list.now) m.lists.items };
}

/// The list whose first entry comes next, as far as the lists were looked at, and that entry's
/// rank.
#[derive(Clone, Copy, Drop)]
struct Front {
    place: usize,
    rank: usize,
}

impl<'a, T, R: Ranking<T>> Merge<'a, T, R> {
    /// A merge of no lists.
    pub fn new(ranking: R) -> Self
        ensures ranking { result.ranking ≡ ranking }
        ensures lists { result.lists ≡ [] }
    {
        Merge {
            ranking,
            lists: ArrayVec::new(),
        }
    }

    /// Adds a list, behind the others.
    pub fn add(&mut self, list: &'a [T])
        requires room { length self.old.lists < MOST_LISTS }
        requires ranked { IsRanked (R.rank_of self.old.ranking)
            (R.rank_count self.old.ranking) list.now }
        ensures ranking { self.new.ranking ≡ self.old.ranking }
        ensures lists { self.new.lists ≡ self.old.lists ++ list.now ∷ [] }
    {
        self.lists.push(list);
    }

    /// The list whose first entry comes next: the first of those that have an entry of the least
    /// rank.
    #[tactic(auto, using(crate::proofs::Merged::past_empty))]
    fn front(&self) -> Option<Front>
        ensures { IsFront (R.rank_of self.now.ranking) self.now.lists
            (length self.now.lists) result }
    {
        let mut front: Option<Front> = None;
        for (place, list) in self.lists.iter().enumerate() {
            let Some(entry) = list.first() else {
                continue;
            };
            let rank = self.ranking.rank(entry);
            let next = Front { place, rank };
            front = Some(front.map_or(next, |least| if least.rank <= rank { least } else { next }));
        }
        front
    }
}

impl<'a, T: Copy, R: Ranking<T> + Drop> Iterator for Merge<'a, T, R> {
    type Item = T;

    ghost next_gives = { YieldsFirst (entries_left R.rank_of R.rank_count) };

    ghost remaining = { item_count (entries_left R.rank_of R.rank_count) };

    /// The entry that comes next. Its list goes on behind it.
    #[tactic(auto, using(crate::proofs::Merged::merged_none))]
    fn next(&mut self) -> Option<T> {
        let front = self.front()?;
        Some(take_first(&mut self.lists[front.place]))
    }
}

/// Takes the first entry of a list.
fn take_first<'a, T: Copy>(list: &mut &'a [T]) -> T
    requires { 0 < length list.old.now }
    ensures { list.old.now ≡ result ∷ list.new.now }
{
    let first = list[0];
    *list = &list[1..];
    first
}
