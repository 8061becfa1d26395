//! The text of the settings of a machine, which is TOML. Keys, kinds and defaults are this
//! project's profile.

ghost use Rattle.std.specs.Prelude.{◌≡◌, false, not, None, IfOk, IfErr, option_map, string_bytes};
ghost use Rattle.std.specs.{List.list_any, BTreeMap.keys};
ghost use Rattle.toml.specs.View.{view, items_view, table_view};
ghost use Rattle.ultra_model.specs.{Accepted.{first_bad, settings_of}, declared.config.RawSettings.RawSettings};
ghost use Rattle.ultra_settings.specs.SettingsText.{given_integer, given_initial, integer_pair, pair_in, pairs_in, is_key, IsGiven, Gives, ExplainsSettingsFault};

use crate::lookup::value_at;
use std::alloc::{AllocError, AllocFailed, Global};
use thiserror::Error;
use toml::{Table, Value};
use ultra_model::{Config, ConfigFault, Field, RawSettings};

/// The keys that settings may have.
const FIELDS: [Field; 8] = [
    Field::Stages,
    Field::RequestPlaces,
    Field::ReplyPlaces,
    Field::WaitPlaces,
    Field::MostOpen,
    Field::Cells,
    Field::Cycles,
    Field::Initial,
];

/// Why a text gives no settings.
#[derive(Clone, Copy, PartialEq, Eq, Debug, Drop, Error)]
pub enum SettingsFault {
    /// Memory was refused.
    #[error("no memory")]
    NoMemory,
    /// The bytes aren't UTF-8, or the text isn't TOML.
    #[error("not toml")]
    NotToml,
    /// The first key, in the order of `Field`, whose value is missing, of another kind or out of
    /// range.
    #[error("bad {0}")]
    BadField(Field),
    /// The values of all keys are accepted, but the text has a key that is no setting.
    #[error("unknown key")]
    UnknownKey,
}

impl From<AllocError> for SettingsFault {
    ghost use Rattle.ultra_settings.specs.declared.settings.SettingsFault.TheVariants.{NoMemory};

    ghost from_gives = { λ _ fault. fault ≡ NoMemory };

    fn from(_: AllocError) -> SettingsFault {
        SettingsFault::NoMemory
    }
}

impl<T: Drop> From<AllocFailed<T>> for SettingsFault {
    ghost use Rattle.ultra_settings.specs.declared.settings.SettingsFault.TheVariants.{NoMemory};

    ghost from_gives = { λ _ fault. fault ≡ NoMemory };

    fn from(_: AllocFailed<T>) -> SettingsFault {
        SettingsFault::NoMemory
    }
}

/// The settings that a text gives, with the defaults of the keys that are absent.
#[derive(Drop)]
struct Given {
    raw: RawSettings,
    /// Whether the text has a key that is no setting.
    has_unknown_key: bool,
}

/// The settings that a text gives, before they are checked. The fault is `NoMemory` or `NotToml`.
fn given_settings(alloc: Global, bytes: &[u8]) -> Result<Given, SettingsFault>
    ensures ok { IfOk result (λ g. Gives bytes.now g.raw g.has_unknown_key) }
    ensures refused { IfErr result (ExplainsSettingsFault bytes.now) }
{
    let table = match toml::table_from_slice(alloc, bytes) {
        Ok(table) => table,
        Err(error) if error.is_memory() => return Err(SettingsFault::NoMemory),
        Err(_) => return Err(SettingsFault::NotToml),
    };
    Ok(Given {
        raw: raw_settings(alloc, &table)?,
        has_unknown_key: has_unknown_key(&table),
    })
}

/// The settings of a table.
fn raw_settings(alloc: Global, table: &Table) -> Result<RawSettings, AllocError>
    ensures { IfOk result (IsGiven (table_view table.now)) }
{
    Ok(RawSettings {
        stages: integer_at(table, Field::Stages, None),
        request_places: integer_at(table, Field::RequestPlaces, Some(4)),
        reply_places: integer_at(table, Field::ReplyPlaces, Some(8)),
        wait_places: integer_at(table, Field::WaitPlaces, Some(4)),
        most_open: integer_at(table, Field::MostOpen, Some(2)),
        cells: integer_at(table, Field::Cells, Some(16)),
        cycles: integer_at(table, Field::Cycles, Some(1000)),
        initial: initial_in(alloc, table)?,
    })
}

/// The integer at a key, or the default where the key is absent. `None` means that there is
/// neither, or that the value is of another kind.
fn integer_at(table: &Table, field: Field, default: Option<i64>) -> Option<i64>
    ensures { result ≡ given_integer (table_view table.now) field default }
{
    match value_at(table, field.name()) {
        Some(value) => value.as_integer(),
        None => default,
    }
}

/// The initial cells of a table: none where the key is absent, and `None` where its value isn't an
/// array of pairs of integers.
fn initial_in(alloc: Global, table: &Table) -> Result<Option<Vec<(i64, i64)>>, AllocError>
    ensures { IfOk result (λ o. option_map (λ v. v.items) o ≡ given_initial
        (table_view table.now)) }
{
    let Some(value) = value_at(table, Field::Initial.name()) else {
        return Ok(Some(Vec::new(alloc)));
    };
    match value.as_array() {
        Some(array) => pairs_in(alloc, array),
        None => Ok(None),
    }
}

/// The pairs of integers of an array that has nothing else.
fn pairs_in(alloc: Global, array: &[Value]) -> Result<Option<Vec<(i64, i64)>>, AllocError>
    ensures { IfOk result (λ o. option_map (λ v. v.items) o ≡ pairs_in (items_view array.now)) }
{
    let mut pairs = Vec::new(alloc);
    for value in array {
        let Some(pair) = integer_pair(value) else {
            return Ok(None);
        };
        pairs.push(pair)?;
    }
    Ok(Some(pairs))
}

/// The two integers of a value that is an array of just these.
fn integer_pair(value: &Value) -> Option<(i64, i64)>
    ensures { result ≡ integer_pair (view value.now) }
{
    pair_in(value.as_array()?)
}

/// The two integers of an array of just these.
#[tactic(auto, using(crate::proofs::Tables::too_few_values, crate::proofs::Tables::too_many_values))]
fn pair_in(array: &[Value]) -> Option<(i64, i64)>
    ensures { result ≡ pair_in (items_view array.now) }
{
    let [address, word] = array else {
        return None;
    };
    Some((address.as_integer()?, word.as_integer()?))
}

/// Whether the table has a key that is no setting.
fn has_unknown_key(table: &Table) -> bool
    ensures { result ≡ list_any (λ k. not (is_key (string_bytes k))) (keys table.now) }
{
    table.keys().any(|key| !is_key(key.as_str()))
}

/// Whether the text is the key of a setting.
fn is_key(text: &str) -> bool
    ensures { result ≡ is_key text.now }
{
    FIELDS.iter().any(|field| field.name() == text)
}

/// The settings of a text, once they are accepted. Keys that the text doesn't have get their
/// defaults; only `stages` has none.
///
/// `NotToml` says that the bytes aren't TOML. `BadField` names the first key whose value isn't
/// accepted; `UnknownKey` comes only if all are. `NoMemory` says that memory was refused.
pub fn settings_from(alloc: Global, bytes: &[u8]) -> Result<Config, SettingsFault>
    ensures ok { IfOk result (λ c. (r : RawSettings) × Gives bytes.now r false ×
        (first_bad r ≡ None) × (c ≡ settings_of r)) }
    ensures refused { IfErr result (ExplainsSettingsFault bytes.now) }
{
    let given = given_settings(alloc, bytes)?;
    let config = match Config::new(alloc, &given.raw) {
        Ok(config) => config,
        Err(ConfigFault::NoMemory) => return Err(SettingsFault::NoMemory),
        Err(ConfigFault::BadConfig(field)) => return Err(SettingsFault::BadField(field)),
    };
    if given.has_unknown_key {
        return Err(SettingsFault::UnknownKey);
    }
    Ok(config)
}
