//! Undo: a text is changed all over, each state of it is kept for a while, and old ones are read and come back to.

use crate::digest::Digest;
use crate::faults::Fault;
use crate::library::{Rope, Scheme, copy_of};
use crate::random::Random;
use crate::ropes::{random_place, read_all, read_lines, take_chars, tell_cursor};
use crate::texts::{Shape, front, letter, text_of};
use std::alloc::Global;

/// How many states are kept.
const KEPT: usize = 8;

/// Makes `rounds` changes of a text of `bytes` bytes.
pub(crate) fn run(
    alloc: Global,
    random: &mut Random,
    bytes: usize,
    rounds: usize,
    digest: &mut Digest,
) -> Result<(), Fault> {
    let shape = Shape::daily(random);
    let source = text_of(alloc, random, shape, bytes)?;
    let mut rope = Rope::from_str(alloc, source.as_str())?;
    let mut states = Vec::new(alloc);
    for i in 0..rounds {
        keep(&mut states, i, copy_of(alloc, &rope)?)?;
        change(&mut rope, source.as_str(), i, random, digest)?;
        look_back(&states, random, digest)?;
        if i % 4 == 3 {
            rope = come_back(alloc, &states, random)?;
        }
    }
    read_all(&rope, digest);
    Ok(())
}

/// Keeps a state, in the place of the oldest one where there is no room.
fn keep(states: &mut Vec<Rope>, i: usize, state: Rope) -> Result<(), Fault> {
    if states.len() >= KEPT {
        states[i % KEPT] = state;
        return Ok(());
    }
    match states.push(state) {
        Ok(()) => Ok(()),
        Err(_) => Err(Fault::NoMemory),
    }
}

/// Types a word, pastes or takes chars out, at a random place.
fn change(
    rope: &mut Rope,
    source: &str,
    i: usize,
    random: &mut Random,
    digest: &mut Digest,
) -> Result<(), Fault> {
    let mut at = random_place(rope, random);
    match i % 3 {
        0 => {
            for k in 0..12 {
                rope.insert(at, letter(k))?;
                at = at.saturating_add(1);
            }
        }
        1 => rope.insert(at, front(source, random.from(1, 2_000)))?,
        _ => take_chars(rope, at, random.from(1, 200))?,
    }
    tell_cursor(rope, Scheme::Lf, at, digest);
    Ok(())
}

/// Reads some lines of an old state.
fn look_back(states: &Vec<Rope>, random: &mut Random, digest: &mut Digest) -> Result<(), Fault> {
    if let Some(state) = states.get(random.below(states.len())) {
        let line = random.below(state.count(Scheme::Lf).saturating_add(1));
        read_lines(state, Scheme::Lf, line, 60, digest)?;
    }
    Ok(())
}

/// An old state, to go on from.
fn come_back(alloc: Global, states: &Vec<Rope>, random: &mut Random) -> Result<Rope, Fault> {
    match states.get(random.below(states.len())) {
        Some(state) => copy_of(alloc, state),
        None => Ok(Rope::new(alloc)),
    }
}
