//! The settings of a machine, and which of them are accepted. The keys and their ranges are this
//! project's profile.

ghost use Rattle.std.specs.Prelude.{◌≡◌, ◌≢◌, ℕ, ◌*◌, ◌^◌, ◌<◌, ◌≤◌, true, false, Some, All, AllPairs, IfOk, OnOk, IfErr, OnErr, IfSome, OnSome, IfNone};
ghost use Rattle.ultra_route.specs.declared.TheConstants.{MOST_STAGES};
ghost use Rattle.ultra_model.specs.Accepted.{name_of, natural, number_or_zero, is_below, is_within, is_cell, initial_cell, are_initial, cells_of, first_bad, settings_of, ExplainsConfigFault, ExplainsInitial};
ghost use Rattle.ultra_model.specs.Valid.{IsValid};

use std::alloc::{AllocError, AllocFailed, Global};
use std::fmt;
use std::marker::Model;
use thiserror::Error;
use ultra_mem::MOST_CELLS;
use ultra_msg::{Cell, Word};
use ultra_pni::MOST_OPEN;
use ultra_route::{MOST_STAGES, Net};
use ultra_switch::{MOST_REQUEST_PLACES, MOST_WAIT_PLACES};

/// The most places that a queue toward the processing elements can have.
pub const MOST_REPLY_PLACES: u32 = 64;

/// The most cycles of a run.
pub const MOST_CYCLES: u32 = 1_000_000;

/// The settings as they are given: the number of each key, or its default if the key is absent.
/// `None` is a value that is missing, or of another kind than wanted.
#[derive(Drop)]
pub struct RawSettings {
    /// The stages of the network: 1 to 6.
    pub stages: Option<i64>,
    /// The places of a queue toward memory: 2 to 32.
    pub request_places: Option<i64>,
    /// The places of a queue toward the processing elements: 4 to 64.
    pub reply_places: Option<i64>,
    /// The places of a wait buffer: 0 to 16.
    pub wait_places: Option<i64>,
    /// The maximum number of open cells of a processing element: 1 to 8.
    pub most_open: Option<i64>,
    /// The cells of a module: 1 to 4096.
    pub cells: Option<i64>,
    /// The most cycles of a run: 1 to 1,000,000.
    pub cycles: Option<i64>,
    /// Addresses of cells, each with the value that the cell has at first. The addresses are
    /// different and below the number of all cells, the values below `2^32`.
    pub initial: Option<Vec<(i64, i64)>>,
}

/// A key of the settings.
#[derive(Clone, Copy, PartialEq, Eq, Debug, Drop)]
pub enum Field {
    /// `stages`
    Stages,
    /// `request_places`
    RequestPlaces,
    /// `reply_places`
    ReplyPlaces,
    /// `wait_places`
    WaitPlaces,
    /// `open`
    MostOpen,
    /// `cells`
    Cells,
    /// `cycles`
    Cycles,
    /// `initial`
    Initial,
}

impl Field {
    /// The key as it is written.
    pub fn name(self) -> &'static str
        ensures { result.now ≡ name_of self }
    {
        match self {
            Field::Stages => "stages",
            Field::RequestPlaces => "request_places",
            Field::ReplyPlaces => "reply_places",
            Field::WaitPlaces => "wait_places",
            Field::MostOpen => "open",
            Field::Cells => "cells",
            Field::Cycles => "cycles",
            Field::Initial => "initial",
        }
    }
}

impl fmt::Display for Field {
    ghost output = { λ field. Some (name_of field) };

    fn fmt<W: fmt::Write>(&self, f: &mut fmt::Formatter<W>) -> fmt::Result {
        f.write_str(self.name())
    }
}

/// Why settings are refused.
#[derive(Clone, Copy, PartialEq, Eq, Debug, Drop, Error)]
pub enum ConfigFault {
    /// Memory for the initial cells was refused.
    #[error("no memory")]
    NoMemory,
    /// The first key, in the order of `Field`, whose value is missing, of another kind or out of
    /// range.
    #[error("bad {0}")]
    BadConfig(Field),
}

impl From<AllocError> for ConfigFault {
    ghost use Rattle.ultra_model.specs.declared.config.ConfigFault.TheVariants.{NoMemory};

    ghost from_gives = { λ _ fault. fault ≡ NoMemory };

    fn from(_: AllocError) -> ConfigFault {
        ConfigFault::NoMemory
    }
}

impl<T: Drop> From<AllocFailed<T>> for ConfigFault {
    ghost use Rattle.ultra_model.specs.declared.config.ConfigFault.TheVariants.{NoMemory};

    ghost from_gives = { λ _ fault. fault ≡ NoMemory };

    fn from(_: AllocFailed<T>) -> ConfigFault {
        ConfigFault::NoMemory
    }
}

/// Settings that are accepted: each is in its range, and no address is given two values.
#[derive(Drop)]
pub struct Config {
    stages: u32,
    request_places: u32,
    reply_places: u32,
    wait_places: u32,
    most_open: u32,
    cells: u32,
    cycles: u32,
    initial: Vec<(Cell, Word)>,
}

impl Model for Config {
    ghost use Rattle.ultra_model.specs.{Machine.Settings, Valid.IsValid};

    ghost Value = { Settings };

    ghost view = { λ c. record {
      stages = c.stages;
      request_places = c.request_places;
      reply_places = c.reply_places;
      wait_places = c.wait_places;
      most_open = c.most_open;
      cells = c.cells;
      cycles = c.cycles;
      initial = c.initial.items;
    } };

    ghost invariant = { λ c. IsValid (record {
      stages = c.stages;
      request_places = c.request_places;
      reply_places = c.reply_places;
      wait_places = c.wait_places;
      most_open = c.most_open;
      cells = c.cells;
      cycles = c.cycles;
      initial = c.initial.items;
    }) };
}

impl Config {
    /// The settings, if each is in its range and no address is given two values.
    ///
    /// `BadConfig` names the first that isn't, in the order of `Field`. `NoMemory` means that
    /// memory for the initial cells was refused.
    pub fn new(alloc: Global, raw: &RawSettings) -> Result<Config, ConfigFault>
        ensures accepted { OnOk result (first_bad raw.now ≡ None) }
        ensures value { IfOk result (λ c. c ≡ settings_of raw.now) }
        ensures refused { IfErr result (ExplainsConfigFault raw.now) }
    {
        let stages = number_within(raw.stages, 1, MOST_STAGES, Field::Stages)?;
        let request_places = number_within(
            raw.request_places,
            2,
            MOST_REQUEST_PLACES as u32,
            Field::RequestPlaces,
        )?;
        let reply_places = number_within(
            raw.reply_places,
            4,
            MOST_REPLY_PLACES,
            Field::ReplyPlaces,
        )?;
        let wait_places = number_within(
            raw.wait_places,
            0,
            MOST_WAIT_PLACES as u32,
            Field::WaitPlaces,
        )?;
        let most_open = number_within(raw.most_open, 1, MOST_OPEN as u32, Field::MostOpen)?;
        let cells = number_within(raw.cells, 1, MOST_CELLS, Field::Cells)?;
        let cycles = number_within(raw.cycles, 1, MOST_CYCLES, Field::Cycles)?;
        let Some(given) = &raw.initial else {
            return Err(ConfigFault::BadConfig(Field::Initial));
        };
        let initial = initial_within(alloc, all_cells(stages, cells), given)?;
        Ok(Config {
            stages,
            request_places,
            reply_places,
            wait_places,
            most_open,
            cells,
            cycles,
            initial,
        })
    }

    /// The stages of the network, from 1 to `MOST_STAGES`.
    pub fn stages(&self) -> u32
        ensures value { result ≡ self.now.stages }
        ensures range { (1 ≤ result) × (result ≤ MOST_STAGES) }
    {
        self.stages
    }

    /// The network.
    pub fn net(&self) -> Net
        ensures { result ≡ self.now.stages }
    {
        Net::new(self.stages).unwrap()
    }

    /// The places of a queue toward memory, from 2 to 32.
    pub fn request_places(&self) -> u32
        ensures value { result ≡ self.now.request_places }
        ensures range { (2 ≤ result) × (result ≤ MOST_REQUEST_PLACES) }
    {
        self.request_places
    }

    /// The places of a queue toward the processing elements, from 4 to 64.
    pub fn reply_places(&self) -> u32
        ensures value { result ≡ self.now.reply_places }
        ensures range { (4 ≤ result) × (result ≤ MOST_REPLY_PLACES) }
    {
        self.reply_places
    }

    /// The places of a wait buffer, from 0 to 16.
    pub fn wait_places(&self) -> u32
        ensures value { result ≡ self.now.wait_places }
        ensures range { result ≤ MOST_WAIT_PLACES }
    {
        self.wait_places
    }

    /// The most open cells of a processing element, from 1 to 8.
    pub fn most_open(&self) -> u32
        ensures value { result ≡ self.now.most_open }
        ensures range { (1 ≤ result) × (result ≤ MOST_OPEN) }
    {
        self.most_open
    }

    /// The cells of a module, from 1 to 4096.
    pub fn cells(&self) -> u32
        ensures value { result ≡ self.now.cells }
        ensures range { (1 ≤ result) × (result ≤ MOST_CELLS) }
    {
        self.cells
    }

    /// The cells of the whole memory, from 2 to 262,144.
    pub fn all_cells(&self) -> u32
        ensures value { result ≡ 2 ^ self.now.stages * self.now.cells }
        ensures small { result ≤ 262144 }
    {
        all_cells(self.stages, self.cells)
    }

    /// The most cycles, from 1 to 1,000,000.
    pub fn cycles(&self) -> u32
        ensures value { result ≡ self.now.cycles }
        ensures range { (1 ≤ result) × (result ≤ MOST_CYCLES) }
    {
        self.cycles
    }

    /// The cells that are given a value, each by its address; the others hold 0 at first. No
    /// address occurs twice.
    pub fn initial(&self) -> &[(Cell, Word)]
        ensures value { result.now ≡ self.now.initial }
        ensures valid { IsValid self.now }
    {
        self.initial.as_slice()
    }

    /// A copy, or an error where memory for the initial cells is refused.
    pub fn try_clone(&self) -> Result<Config, AllocError>
        ensures { IfOk result (λ c. c ≡ self.now) }
    {
        Ok(Config {
            stages: self.stages,
            request_places: self.request_places,
            reply_places: self.reply_places,
            wait_places: self.wait_places,
            most_open: self.most_open,
            cells: self.cells,
            cycles: self.cycles,
            initial: self.initial.clone()?,
        })
    }
}

/// The number, if it is there and from `least` to `most`; else the fault of its field.
fn number_within(
    given: Option<i64>,
    least: u32,
    most: u32,
    field: Field,
) -> Result<u32, ConfigFault>
    ensures within { OnOk result (is_within least most given ≡ true) }
    ensures value { IfOk result (λ n. number_or_zero given ≡ n) }
    ensures range { IfOk result (λ n. (least ≤ n) × (n ≤ most)) }
    ensures fault { IfErr result (λ e. e ≡ ConfigFault.BadConfig field) }
    ensures outside { OnErr result (is_within least most given ≡ false) }
{
    match given {
        Some(number) if i64::from(least) <= number && number <= i64::from(most) => {
            Ok(number as u32)
        }
        _ => Err(ConfigFault::BadConfig(field)),
    }
}

/// The number, if it is not negative and below the bound.
fn number_below(number: i64, bound: u64) -> Option<u32>
    requires { bound ≤ 2 ^ 32 }
    ensures below { OnSome result (is_below bound number ≡ true) }
    ensures value { IfSome result (λ n. natural number ≡ n) }
    ensures range { IfSome result (λ n. n < bound) }
    ensures outside { IfNone result (is_below bound number ≡ false) }
{
    match u64::try_from(number) {
        Ok(number) if number < bound => Some(number as u32),
        _ => None,
    }
}

/// How many cells the whole memory has.
fn all_cells(stages: u32, cells: u32) -> u32
    requires some_stages { 1 ≤ stages }
    requires most_stages { stages ≤ 6 }
    requires most_cells { cells ≤ MOST_CELLS }
    ensures value { result ≡ 2 ^ stages * cells }
    ensures small { result ≤ 262144 }
{
    Net::new(stages).unwrap().size() * cells
}

/// The initial cells, if each address is below the bound, has one word and occurs once.
fn initial_within(
    alloc: Global,
    all_cells: u32,
    given: &[(i64, i64)],
) -> Result<Vec<(Cell, Word)>, ConfigFault>
    ensures accepted { OnOk result (are_initial all_cells given.now ≡ true) }
    ensures value { IfOk result (λ v. v.items ≡ cells_of given.now) }
    ensures addresses { IfOk result (λ v. All (λ (i : ℕ × ℕ). i.0 < all_cells) v.items) }
    ensures words { IfOk result (λ v. All (λ (i : ℕ × ℕ). i.1 < 2 ^ 32) v.items) }
    ensures different { IfOk result (λ v. AllPairs (λ (i j : ℕ × ℕ). i.0 ≢ j.0) v.items) }
    ensures refused { IfErr result (ExplainsInitial all_cells given.now) }
{
    let mut is_given = vec![in alloc; false; all_cells as usize]?;
    let mut initial = Vec::new(alloc);
    for &pair in given {
        let Some(cell) = initial_cell(pair, all_cells) else {
            return Err(ConfigFault::BadConfig(Field::Initial));
        };
        if is_given[cell.0 as usize] {
            return Err(ConfigFault::BadConfig(Field::Initial));
        }
        is_given[cell.0 as usize] = true;
        initial.push(cell)?;
    }
    Ok(initial)
}

/// The address with its value, if it is below the bound and the value is a word.
fn initial_cell(pair: (i64, i64), all_cells: u32) -> Option<(Cell, Word)>
    ensures good { OnSome result (is_cell all_cells pair ≡ true) }
    ensures value { IfSome result (λ c. c ≡ initial_cell pair) }
    ensures address { IfSome result (λ c. c.0 < all_cells) }
    ensures word { IfSome result (λ c. c.1 < 2 ^ 32) }
    ensures refused { IfNone result (is_cell all_cells pair ≡ false) }
{
    let (address, value) = pair;
    let address = number_below(address, u64::from(all_cells))?;
    let value = number_below(value, 1 << 32)?;
    Some((address, value))
}
