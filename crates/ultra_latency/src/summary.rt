//! What is kept of latencies.

ghost use Rattle.std.specs.Prelude.{◌≡◌, ℕ, List, [], ◌++◌, ◌+◌, ◌-◌, ◌*◌, ◌^◌, ◌<◌, ◌≤◌, IfSome, option_to_list};
ghost use Rattle.ultra_latency.specs.Summary.{AreSummedUp, AreSmall, lesser_of, greater_of};

/// Of latencies: how many there are, their sum, the least and the greatest.
#[derive(Clone, Copy, Drop)]
pub struct Latencies {
    /// How many.
    pub count: u32,
    /// The sum.
    pub sum: u64,
    /// The least, if there are any.
    pub least: Option<u32>,
    /// The greatest, if there are any.
    pub greatest: Option<u32>,
}

impl Latencies {
    /// The summary of no latencies.
    pub fn new() -> Latencies
        ensures summary { AreSummedUp [] result }
        ensures small { AreSmall result }
        ensures none { result.count ≡ 0 }
    {
        Latencies {
            count: 0,
            sum: 0,
            least: None,
            greatest: None,
        }
    }

    /// Adds a latency, if there is one.
    pub fn add(&mut self, latency: Option<u32>)
        requires latency { IfSome latency (λ l. l ≤ 2 ^ 20) }
        requires small { AreSmall self.old }
        requires room { self.old.count < 2 ^ 32 - 1 }
        ensures summary { (xs : List ℕ) → AreSummedUp xs self.old →
            AreSummedUp (xs ++ option_to_list latency) self.new }
        ensures small { AreSmall self.new }
        ensures one { self.new.count ≤ self.old.count + 1 }
    {
        if let Some(latency) = latency {
            self.count += 1;
            self.sum += u64::from(latency);
            self.least = Some(lesser(self.least, latency));
            self.greatest = Some(greater(self.greatest, latency));
        }
    }
}

/// The lesser of a number, if there is one, and another.
fn lesser(one: Option<u32>, other: u32) -> u32
    ensures { result ≡ lesser_of one other }
{
    match one {
        Some(one) => one.min(other),
        None => other,
    }
}

/// The greater of a number, if there is one, and another.
fn greater(one: Option<u32>, other: u32) -> u32
    ensures { result ≡ greater_of one other }
{
    match one {
        Some(one) => one.max(other),
        None => other,
    }
}
