//! Connections one after another over one catalog, and a writer whose flush fails.

use crate::checks::OPTIONS;
use crate::checks::first_run::{PUT, PUT_ANSWER};
use anyhow::{Result, bail, ensure};
use flight_calls::{OneWorker, Setting, serve};
use flight_core::{Plain, PlainBackend};
use grpc_frame::{CountedEnd, MemoryInput, MemoryOutput, Output};
use scan_base::{Fault, HashSeed};
use std::alloc::Global;
use std::io;
use std::io::{ErrorKind, Write};

const TABLE_EXISTS: &[u8] = b"\x04\x06\x00\x0fF10 TableExists";

// What is written to a connection that puts the first run's rows, or none where it did not end
// well.
fn put_alone(alloc: Global, backend: &mut PlainBackend) -> MemoryOutput {
    let mut writer = MemoryOutput::new(alloc);
    let setting = Setting {
        alloc,
        executor: &OneWorker,
        options: OPTIONS,
    };
    match serve(&setting, &mut MemoryInput::new(PUT), &mut writer, backend) {
        Ok(()) => writer,
        Err(_) => MemoryOutput::new(alloc),
    }
}

fn two_connections(alloc: Global, seed: HashSeed) -> Result<()> {
    let mut backend = PlainBackend::new(Plain::new(alloc, seed)?);
    let first = put_alone(alloc, &mut backend);
    ensure!(first.as_slice() == PUT_ANSWER);
    let second = put_alone(alloc, &mut backend);
    ensure!(second.as_slice() == TABLE_EXISTS);
    Ok(())
}

// Takes what is written, and fails at one flush: so many go well before it.
#[derive(Drop)]
struct FailingFlush {
    flushes: u32,
}

impl Write for FailingFlush {
    fn write(&mut self, piece: &[u8]) -> io::Result<usize> {
        Ok(piece.len())
    }

    fn flush(&mut self) -> io::Result<()> {
        if self.flushes == 0 {
            return Err(io::Error::from(ErrorKind::BrokenPipe));
        }
        self.flushes -= 1;
        Ok(())
    }
}

// The put's answer is one write, which is flushed.
fn a_flush_that_fails(alloc: Global, seed: HashSeed) -> Result<()> {
    for flushes in 0..2u32 {
        let mut backend = PlainBackend::new(Plain::new(alloc, seed)?);
        let mut writer = CountedEnd::new(FailingFlush { flushes });
        let setting = Setting {
            alloc,
            executor: &OneWorker,
            options: OPTIONS,
        };
        let ended = serve(
            &setting,
            &mut MemoryInput::new(PUT),
            &mut writer,
            &mut backend,
        );
        let fails = flushes < 1;
        ensure!((ended == Err(Fault::Transport)) == fails);
        ensure!(writer.failures() == u64::from(fails));
    }
    Ok(())
}

/// What comes of the check of this name.
pub fn check(alloc: Global, seed: HashSeed, name: &str) -> Result<()> {
    match name {
        "two_connections" => two_connections(alloc, seed),
        "a_flush_that_fails" => a_flush_that_fails(alloc, seed),
        _ => bail!("no check"),
    }
}
