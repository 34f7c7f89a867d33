//! Positions in ropes, as another crate makes them: tables of worked answers, and random changes beside a plain text.

mod answers;
mod kinds;
