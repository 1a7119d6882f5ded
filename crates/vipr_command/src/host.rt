//! What the program has of the system.

use std::fs::File;
use std::random::RandomSource;
use std::rt::Files;

/// Memory, files and random bytes.
pub trait Host: AllocGlobal + Files<File = File> + RandomSource {}

impl<H: AllocGlobal + Files<File = File> + RandomSource> Host for H {}
