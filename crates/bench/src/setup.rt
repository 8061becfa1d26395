//! What a machine is made of: its settings and its program.

use anyhow::bail;
use std::alloc::Global;
use std::fs;
use std::rt::Files;
use ultra_asm::assemble;
use ultra_isa::Program;
use ultra_model::{Config, RawSettings};

/// The sizes of the parts of a machine.
#[derive(Clone, Copy, Drop)]
pub(crate) struct Sizes {
    request_places: i64,
    reply_places: i64,
    wait_places: i64,
    most_open: i64,
}

impl Sizes {
    /// The default sizes.
    pub(crate) const DEFAULT: Sizes = Sizes {
        request_places: 4,
        reply_places: 8,
        wait_places: 4,
        most_open: 2,
    };

    /// The least sizes.
    const NARROW: Sizes = Sizes {
        request_places: 2,
        reply_places: 4,
        wait_places: 0,
        most_open: 1,
    };

    /// The greatest sizes.
    const DEEP: Sizes = Sizes {
        request_places: 32,
        reply_places: 64,
        wait_places: 16,
        most_open: 8,
    };

    /// The sizes of this name.
    pub(crate) fn named(name: &str) -> anyhow::Result<Sizes> {
        match name {
            "default" => Ok(Sizes::DEFAULT),
            "narrow" => Ok(Sizes::NARROW),
            "deep" => Ok(Sizes::DEEP),
            _ => bail!("sizes are default, narrow or deep"),
        }
    }

    /// The settings of a machine with these parts.
    fn settings(self, alloc: Global, stages: i64) -> RawSettings {
        RawSettings {
            stages: Some(stages),
            request_places: Some(self.request_places),
            reply_places: Some(self.reply_places),
            wait_places: Some(self.wait_places),
            most_open: Some(self.most_open),
            cells: Some(16),
            cycles: Some(1),
            initial: Some(Vec::new(alloc)),
        }
    }
}

/// The settings and the program of a machine, and how many cycles it makes.
#[derive(Drop)]
pub(crate) struct Setup {
    pub(crate) config: Config,
    pub(crate) program: Program,
    pub(crate) cycles: u32,
}

impl Setup {
    /// Reads the program's text from the file at this path, and the other words as numbers.
    pub(crate) fn read(
        rt: &(impl AllocGlobal + Files),
        path: &String,
        stages: &String,
        cycles: &String,
        sizes: Sizes,
    ) -> anyhow::Result<Setup> {
        let (Ok(stages), Ok(cycles)) = (
            stages.as_str().parse::<i64>(),
            cycles.as_str().parse::<u32>(),
        ) else {
            bail!("stages and cycles are numbers");
        };
        let text = fs::read_to_string(rt, path.as_str())?;
        let program = assemble(rt.alloc(), text.as_str())?;
        let config = Config::new(rt.alloc(), &sizes.settings(rt.alloc(), stages))?;
        Ok(Setup {
            config,
            program,
            cycles,
        })
    }
}
