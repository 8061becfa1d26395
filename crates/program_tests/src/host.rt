//! What a test takes of the host.

use std::process::Abort;
use std::sync::Wait;
use std::thread::Threads;

/// What a test takes of the host.
pub(crate) trait Host: AllocGlobal + Abort + Threads + Wait + Sync {}

impl<R: AllocGlobal + Abort + Threads + Wait + Sync> Host for R {}
