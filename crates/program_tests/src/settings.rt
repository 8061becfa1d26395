//! Texts of settings.

use crate::equal::check_equal;
use std::test::Fail;
use ultra_model::Config;
use ultra_settings::settings_from;

/// The numbers of settings: stages, places for requests and replies and in wait buffers, most open
/// requests, cells of a module, and cycles.
fn numbers_of(config: &Config) -> [u32; 7] {
    [
        config.stages(),
        config.request_places(),
        config.reply_places(),
        config.wait_places(),
        config.most_open(),
        config.cells(),
        config.cycles(),
    ]
}

#[test]
fn absent_keys_have_defaults(rt: HostRuntime) -> Result<(), Fail> {
    let config = settings_from(rt.alloc(), b"stages = 3")?;
    check_equal(&rt, numbers_of(&config), [3, 4, 8, 4, 2, 16, 1000]);
    assert!(rt; config.initial().is_empty());
    Ok(())
}

/// Settings with all keys.
const ALL_KEYS: &str = "\
# all
stages = 0x1
request_places = 5
reply_places = 9
wait_places = 1
open = 3
cells = 0b100
cycles = 1_0
initial = [[0, 7], [3, 0xff]]
";

#[test]
fn settings_are_read(rt: HostRuntime) -> Result<(), Fail> {
    let config = settings_from(rt.alloc(), ALL_KEYS.as_bytes())?;
    check_equal(&rt, numbers_of(&config), [1, 5, 9, 1, 3, 4, 10]);
    check_equal(&rt, config.initial(), [(0, 7), (3, 255)].as_slice());
    Ok(())
}
