//! The marks of a text, put into a room.
ghost use Rattle.std.specs.Prelude.{◌≡◌, ◌+◌, ◌/◌, ◌<◌, ◌≤◌, ◌*◌, chars, length, slice_index_or};
ghost use Rattle.str_indices.specs.Text.{size};
ghost use Rattle.text_index.specs.Marks.{AreMarks, IsMark, IsMarkAt, stretch_size};

use crate::mark::{BEGINNING, Mark};
use crate::places::mark_place;
use crate::queries::STRETCH;

/// Returns how many marks a text of `len` bytes takes, beside the one at its end.
pub fn marks_for(len: usize) -> usize
    ensures { result ≡ len / stretch_size }
{
    len / STRETCH
}

/// Puts the marks of a text into `room`, of `marks_for(text.len())` marks, and returns the one at the text's end. It goes over
/// the text once.
pub fn fill(text: &str, room: &mut [Mark]) -> Mark
    requires { length room.old ≡ length text.now / stretch_size }
    ensures { AreMarks (chars text.now) room.new result }
{
    let mut last = BEGINNING;
    'marks: for i in 0..room.len() {
        last = last.move_to(text, mark_place(text, (i + 1) * STRETCH));
        room[i] = last;
    }
    last.move_to(text, text.len())
}
