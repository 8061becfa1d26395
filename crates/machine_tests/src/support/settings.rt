//! The settings of most machines in the tests.

use std::alloc::Global;
use std::test::Fail;
use ultra_model::{Config, RawSettings};

/// The default settings with n stages.
pub(crate) fn defaults(alloc: Global, stages: i64) -> RawSettings {
    RawSettings {
        stages: Some(stages),
        request_places: Some(4),
        reply_places: Some(8),
        wait_places: Some(4),
        most_open: Some(2),
        cells: Some(16),
        cycles: Some(1000),
        initial: Some(Vec::new(alloc)),
    }
}

/// The same, accepted.
pub(crate) fn config(alloc: Global, stages: i64) -> Result<Config, Fail> {
    Ok(Config::new(alloc, &defaults(alloc, stages))?)
}
