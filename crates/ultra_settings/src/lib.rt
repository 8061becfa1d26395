//! What a program is given in TOML: the settings of a machine, and files of jobs. Keys, kinds and
//! defaults are this project's profile.
#![tactic(auto)]

mod jobs;
mod lookup;
mod settings;

pub use jobs::{JobsFault, MOST_JOBS, jobs_from};
pub use settings::{SettingsFault, settings_from};
