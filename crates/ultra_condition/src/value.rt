//! Values and terms, and how they are evaluated.

ghost use Rattle.std.specs.Prelude.{◌≡◌, ℕ, ◌+◌, ◌-◌, ◌*◌, ◌^◌, ◌<◌, ◌≤◌, SomeIff, length, take, drop};
ghost use Rattle.std.specs.List.{sum, count_by};
ghost use Rattle.ultra_isa.specs.Step.{Core};
ghost use Rattle.ultra_para.specs.{Para.Para, ParaState.cores_of};
ghost use Rattle.ultra_condition.specs.{Meaning.{is_counted, least as least_of, greatest as greatest_of, measure_of, words_from, value_in, term_in}, Limits.{most_word, most_measure, most_value, most_term, IsThere}, Naming.{value_names, value_is_of_cells}};

use ultra_isa::{Activity, Processor};
use ultra_msg::{Cell, Pe, Register, Word};

/// The greatest word.
const MOST_WORD: u64 = u32::MAX as u64;

/// Which processing elements are counted.
#[derive(Clone, Copy, Drop)]
pub enum Group {
    /// Those that run.
    Running,
    /// Those that have halted.
    Halted,
    /// Those that have faulted.
    Faulted,
    /// Those that run and are at one of the places from the first on and before the second.
    At(u16, u16),
}

impl Group {
    /// Whether the processing element is counted.
    fn has(self, processor: &Processor) -> bool
        ensures { result ≡ is_counted self processor.now.core }
    {
        match self {
            Group::Running => is_running(processor),
            Group::Halted => processor.activity() == Activity::Halted,
            Group::Faulted => matches!(processor.activity(), Activity::Faulted(_)),
            Group::At(from, to) => {
                let pc = processor.pc();
                is_running(processor) && usize::from(from) <= pc && pc < usize::from(to)
            }
        }
    }

    /// How many of these processing elements are counted.
    fn count(self, processors: &[Processor]) -> u64
        ensures value { result ≡ count_by (is_counted self) (cores_of processors.now) }
        ensures few { result ≤ length processors.now }
    {
        let mut count = 0;
        for processor in processors {
            if self.has(processor) {
                count += 1;
            }
        }
        count
    }
}

/// Whether the processing element runs.
fn is_running(processor: &Processor) -> bool
    ensures { result ≡ is_counted Group.Running processor.now.core }
{
    processor.activity() == Activity::Running
}

/// What is taken from several cells.
#[derive(Clone, Copy, Drop)]
pub enum Measure {
    /// The sum of their words.
    Total,
    /// The least of their words.
    Least,
    /// The greatest of their words.
    Greatest,
}

impl Measure {
    /// What is taken from these words.
    fn of(self, words: &[Word]) -> u64
        requires { length words.now ≤ 2 ^ 32 }
        ensures value { result ≡ measure_of self words.now }
        ensures small { result ≤ most_measure self (length words.now) }
    {
        match self {
            Measure::Total => total(words),
            Measure::Least => u64::from(least(words)),
            Measure::Greatest => u64::from(greatest(words)),
        }
    }
}

/// The sum of these words.
fn total(words: &[Word]) -> u64
    requires { length words.now ≤ 2 ^ 32 }
    ensures value { result ≡ sum words.now }
    ensures small { result ≤ length words.now * most_word }
{
    let mut total = 0;
    for word in words {
        total += u64::from(*word);
    }
    total
}

/// The least of these words, or 0 where there are none.
fn least(words: &[Word]) -> Word
    ensures { result ≡ least_of words.now }
{
    let [first, rest @ ..] = words else {
        return 0;
    };
    let mut least = *first;
    for word in rest {
        least = least.min(*word);
    }
    least
}

/// The greatest of these words, or 0 where there are none.
fn greatest(words: &[Word]) -> Word
    ensures { result ≡ greatest_of words.now }
{
    let [first, rest @ ..] = words else {
        return 0;
    };
    let mut greatest = *first;
    for word in rest {
        greatest = greatest.max(*word);
    }
    greatest
}

/// A value of a state.
#[derive(Clone, Copy, Drop)]
pub enum Value {
    /// The number 1.
    One,
    /// What is taken from the cells of the first address to the last.
    Cells(Measure, Cell, Cell),
    /// A register of a processing element.
    Register(Pe, Register),
    /// How many processing elements are in the group.
    Elements(Group),
}

impl Value {
    /// The value in a state of these cells and processing elements, which has to have all that is
    /// named.
    fn value(self, cells: &[Word], processors: &[Processor]) -> u64
        requires there { IsThere (length cells.now) (length processors.now) self }
        ensures value { result ≡
            value_in record { cells = cells.now; cores = cores_of processors.now } self }
        ensures small { result ≤ most_value (length processors.now) self }
    {
        match self {
            Value::One => 1,
            Value::Cells(measure, from, to) => measure.of(&cells[from as usize..=to as usize]),
            Value::Register(pe, register) => {
                u64::from(processors[pe as usize].register(register))
            }
            Value::Elements(group) => group.count(processors),
        }
    }

    /// The value's greatest value, with the greatest word in each cell and register and with this
    /// many processing elements.
    fn most(self, elements: u32) -> u64
        ensures { result ≡ most_value elements self }
    {
        match self {
            Value::One => 1,
            Value::Cells(Measure::Total, from, to) => {
                (u64::from(to) + 1).saturating_sub(u64::from(from)) * MOST_WORD
            }
            Value::Cells(_, _, _) | Value::Register(_, _) => MOST_WORD,
            Value::Elements(_) => u64::from(elements),
        }
    }

    /// Whether it is this register of this processing element.
    pub(crate) fn names(self, pe: Pe, register: Register) -> bool
        ensures { result ≡ value_names pe register self }
    {
        match self {
            Value::Register(of, named) => of == pe && named == register,
            _ => false,
        }
    }

    /// Whether it is one of cells alone.
    pub(crate) fn is_of_cells(self) -> bool
        ensures { result ≡ value_is_of_cells self }
    {
        matches!(self, Value::One | Value::Cells(_, _, _))
    }
}

/// A value as many times as the factor says.
#[derive(Clone, Copy, Drop)]
pub struct Term {
    /// How many times.
    pub factor: u32,
    /// The value.
    pub value: Value,
}

impl Term {
    /// The term's value in a state of these cells and processing elements.
    pub(crate) fn value(self, cells: &[Word], processors: &[Processor]) -> u64
        requires there { IsThere (length cells.now) (length processors.now) self.value }
        requires small { most_term (length processors.now) self < 2 ^ 64 }
        ensures value { result ≡
            term_in record { cells = cells.now; cores = cores_of processors.now } self }
        ensures small { result ≤ most_term (length processors.now) self }
    {
        u64::from(self.factor) * self.value.value(cells, processors)
    }

    /// The term's greatest value, with the greatest word in each cell and register and with this
    /// many processing elements, if it fits 64 bits.
    pub(crate) fn most(self, elements: u32) -> Option<u64>
        ensures { SomeIff result (most_term elements self < 2 ^ 64) (most_term elements self) }
    {
        u64::from(self.factor).checked_mul(self.value.most(elements))
    }
}
