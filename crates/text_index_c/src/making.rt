// An index that is made of a text.
ghost use Rattle.std.specs.Prelude.{◌≡◌, ◌≢◌, ◌+◌, ◌*◌, ◌/◌, ◌^◌, ◌<◌, ◌≤◌, ◌↔◌, ◌⊎◌, IsUtf8, chars, length};
ghost use Rattle.text_index.specs.Marks.{stretch_size};
ghost use Rattle.text_index_c.specs.Handles.{IsIndex, text_of};
ghost use Rattle.text_index_c.specs.Statuses.{done, no_room, not_utf8};

use crate::handle::IndexHandle;
use c_values::utf8_of;
use std::mem::size_of;
use str_indices::is_utf8;
use text_index::{Mark, fill, marks_for};

/// How many bytes a handle takes, and a mark.
const HANDLE: usize = size_of::<IndexHandle<'static>>();

const MARK: usize = size_of::<Mark>();

/// The status of a call that did what it was asked.
const DONE: u32 = 0;

/// The status of bytes that are not UTF-8.
const NOT_UTF8: u32 = 2;

/// The status of a room for another number of marks.
const NO_ROOM: u32 = 3;

/// Returns how many bytes a handle takes with the marks of a text of `len` bytes, or 0 if `len` is above `isize::MAX`,
/// which no text's length is.
#[unsafe(no_mangle)]
pub extern "C" fn str_index_size(len: usize) -> usize
    ensures size { len < 2 ^ 63 → result ≡ 80 + 48 * (len / stretch_size) }
    ensures long { 2 ^ 63 ≤ len → result ≡ 0 }
{
    if len > isize::MAX as usize {
        return 0;
    }
    HANDLE + MARK * marks_for(len)
}

/// Returns how many marks a text of `len` bytes takes.
#[unsafe(no_mangle)]
pub extern "C" fn index_marks(len: usize) -> usize
    ensures { result ≡ len / stretch_size }
{
    marks_for(len)
}

/// Makes `handle` the handle of a text, and puts the marks of the text into `room`.
///
/// The status is `not_utf8` if the bytes are not UTF-8, and otherwise `no_room` if the room is for another number of
/// marks.
#[unsafe(no_mangle)]
pub extern "C" fn index_fill<'a>(
    text: &'a [u8],
    room: &'a mut [Mark],
    handle: &mut IndexHandle<'a>,
) -> u32
    ensures index { result ≡ done → IsIndex handle.new }
    ensures text { result ≡ done → text_of handle.new ≡ chars text.now }
    ensures refused { result ≢ done → handle.new ≡ handle.old }
    ensures not_utf8 { (result ≡ not_utf8) ↔ (¬ (IsUtf8 text.now)) }
    ensures no_room { (result ≡ no_room)
        ↔ (IsUtf8 text.now × (length room.old ≢ length text.now / stretch_size)) }
    ensures known { (result ≡ done) ⊎ ((result ≡ not_utf8) ⊎ (result ≡ no_room)) }
{
    if !is_utf8(text) {
        return NOT_UTF8;
    }
    index_fill_utf8(text, room, handle)
}

/// As `index_fill`, for bytes that are UTF-8.
#[unsafe(no_mangle)]
pub extern "C" fn index_fill_utf8<'a>(
    text: &'a [u8],
    room: &'a mut [Mark],
    handle: &mut IndexHandle<'a>,
) -> u32
    requires { IsUtf8 text.now }
    ensures index { result ≡ done → IsIndex handle.new }
    ensures text { result ≡ done → text_of handle.new ≡ chars text.now }
    ensures refused { result ≢ done → handle.new ≡ handle.old }
    ensures no_room { (result ≡ no_room) ↔ (length room.old ≢ length text.now / stretch_size) }
    ensures known { (result ≡ done) ⊎ (result ≡ no_room) }
{
    if room.len() != marks_for(text.len()) {
        return NO_ROOM;
    }
    let whole = fill(utf8_of(text), room);
    *handle = IndexHandle {
        text,
        marks: room,
        whole,
    };
    DONE
}
