//! Workloads that a user waits for, as programs to be timed: a language server's day, an editor, a large file, spans of
//! a text, a buffer of pieces, awkward texts, positions on lines that go over chunks, buffers of few pieces, undo,
//! spans by an index, lines moved by cuts, and texts that come as bytes.
//!
//! Its words are the workload's name, a seed, and how many rounds it takes. It makes its own texts from the seed, and prints
//! the name and a digest of all answers, which is the same in each run of the same words.
#![tactic(auto)]

mod awkward;
mod awkward_positions;
mod cut_and_paste;
mod digest;
mod editor;
mod faults;
mod from_bytes;
mod index;
mod large;
mod library;
mod pieces;
mod random;
mod ropes;
mod server;
mod short_lists;
mod spans;
mod texts;
mod undo;

use digest::Digest;
use faults::Fault;
use random::Random;
use std::alloc::Global;
use std::env;

/// Runs a workload by its name.
fn run(
    alloc: Global,
    name: &str,
    random: &mut Random,
    rounds: usize,
    digest: &mut Digest,
) -> Result<(), Fault> {
    match name {
        "server" => server::run(alloc, random, rounds, digest),
        "editor" => editor::run(alloc, random, rounds, digest),
        "large" => large::run(alloc, random, rounds, digest),
        "spans" => spans::run(alloc, random, rounds, digest),
        "pieces" => pieces::run(alloc, random, rounds, digest),
        "awkward" => awkward::run(alloc, random, rounds, digest),
        "awkward_positions" => awkward_positions::run(alloc, random, rounds, digest),
        "short_lists" => short_lists::run(alloc, random, rounds, digest),
        "undo" => undo::run(alloc, random, 1_000_000, rounds, digest),
        "undo_large" => undo::run(alloc, random, 100_000_000, rounds, digest),
        "index" => index::run(alloc, random, rounds, digest),
        "index_large" => index::run_large(alloc, random, rounds, digest),
        "cut_and_paste" => cut_and_paste::run(alloc, random, rounds, digest),
        "from_bytes" => from_bytes::run(alloc, random, rounds, digest),
        "all" => run_each(alloc, random, rounds, digest),
        _ => Err(Fault::Words),
    }
}

/// Runs all of them.
fn run_each(
    alloc: Global,
    random: &mut Random,
    rounds: usize,
    digest: &mut Digest,
) -> Result<(), Fault> {
    server::run(alloc, random, rounds, digest)?;
    editor::run(alloc, random, rounds, digest)?;
    spans::run(alloc, random, rounds, digest)?;
    pieces::run(alloc, random, rounds, digest)?;
    awkward::run(alloc, random, rounds, digest)?;
    awkward_positions::run(alloc, random, rounds, digest)?;
    short_lists::run(alloc, random, rounds, digest)?;
    undo::run(alloc, random, 1_000_000, rounds, digest)?;
    index::run(alloc, random, rounds, digest)?;
    cut_and_paste::run(alloc, random, rounds, digest)?;
    from_bytes::run(alloc, random, rounds, digest)
}

fn number(word: &str) -> Result<u64, Fault> {
    match word.parse::<u64>() {
        Ok(number) => Ok(number),
        Err(_) => Err(Fault::Words),
    }
}

fn rounds_of(word: &str) -> Result<usize, Fault> {
    match word.parse::<usize>() {
        Ok(number) => Ok(number),
        Err(_) => Err(Fault::Words),
    }
}

fn words(rt: &HostRuntime) -> Result<Vec<String>, Fault> {
    match env::args(rt) {
        Ok(all) => Ok(all.skip(1).collect(rt.alloc())?),
        Err(_) => Err(Fault::Words),
    }
}

fn main(rt: HostRuntime) -> Result<(), Fault> {
    let words = words(&rt)?;
    match words.as_slice() {
        [name, seed, rounds] => {
            let mut random = Random::of(number(seed)?);
            let mut digest = Digest::new();
            run(
                rt.alloc(),
                name,
                &mut random,
                rounds_of(rounds)?,
                &mut digest,
            )?;
            println!(rt; "{} {}", name, digest.sum())?;
            Ok(())
        }
        _ => Err(Fault::Words),
    }
}
