//! What the tests need of the system.

use std::fs::File;
use std::net::Net;
use std::random::RandomSource;
use std::rt::{Clock, Env, Files};
use std::sync::Wait;
use std::thread::Threads;

/// The runtime of a test.
pub trait Host: Threads
    + Wait
    + Net
    + RandomSource
    + Files<File = File>
    + Env
    + Clock
    + AllocGlobal
    + Clone
    + Send
    + Sync
    + Drop
    + 'static {}

impl<
    H: Threads
        + Wait
        + Net
        + RandomSource
        + Files<File = File>
        + Env
        + Clock
        + AllocGlobal
        + Clone
        + Send
        + Sync
        + Drop
        + 'static,
> Host for H {}
