//! The kernels over `Wide` beside a plain walk, wherever chunks and leading bytes may end.
use super::{assert_same, walk};
use crate::calls::Call;
use crate::kernels::{ChunkType, Kernel};
use crate::wide::Wide;
use byte_chunk::Probe;
use std::alloc::Global;
use std::process::Abort;
use std::test::Fail;
use str_indices::{Scheme, laws, lines_crlf, lines_lf, utf16};

/// Numbers of leading bytes, up to more than a chunk and the longest char have.
const LEADS: [usize; 41] = [
    0, 1, 2, 3, 4, 5, 6, 7, 8, 9, 10, 11, 12, 13, 14, 15, 16, 17, 18, 19, 20, 21, 22, 23, 24, 25,
    26, 27, 28, 29, 30, 31, 32, 33, 34, 35, 36, 37, 38, 39, 40,
];

/// The numbers of leading bytes that make a chunk begin or end elsewhere.
const FEW_LEADS: [usize; 14] = [0, 1, 2, 3, 5, 7, 8, 9, 10, 15, 16, 31, 32, 40];

const TEXTS: [&str; 6] = [
    "Hel🐸lo world! こん🐸にち🐸🐸は!",
    "Hello there!  How're you doing?\nIt's a fine day, isn't it?\nAren't you glad we're alive?\nこんにちは、みんなさん！",
    "\nHere\nare\nsome\nwords\n",
    "Here\r\nare\r\nsome\r\nwords",
    "\u{A}Hello\u{D}\u{A}\u{D}せ\u{B}か\u{C}い\u{85}. There\u{2028}is something.\u{2029}",
    "",
];

/// Texts that stand between letters: each break, and chars with similar bytes that are no break.
const MIDDLES: [&str; 16] = [
    "\n",
    "\r",
    "\r\n",
    "\n\r",
    "\u{B}",
    "\u{C}",
    "\u{85}",
    "\u{2028}",
    "\u{2029}",
    "\u{84}",
    "\u{C5}",
    "\u{1028}",
    "\u{2027}",
    "\u{202A}",
    "\u{2068}",
    "\u{1F438}",
];

/// Chars, and how often each is repeated, so that they fill all lanes of many rounds.
const REPEATED: [(&str, usize); 6] = [
    ("\n", 4097),
    ("\r", 4097),
    ("\r\n", 4097),
    ("é", 4097),
    ("\u{2028}", 4097),
    ("\u{1F438}", 1025),
];

/// Counts the text before `end` by the kernel of the call, or answers `None` if it does not take that end.
fn count_before(call: Call, text: &str, end: usize, lead: usize) -> Option<usize> {
    match call {
        Call::Count(Scheme::Lf | Scheme::Crlf) => count_at_byte(call, text, end, lead),
        _ => count_at_boundary(call, text, end, lead),
    }
}

/// The count of a kernel that takes any byte as an end.
fn count_at_byte(call: Call, text: &str, end: usize, lead: usize) -> Option<usize> {
    let probe = &mut Probe::<Wide>::of(text);
    if end > probe.len() {
        return None;
    }
    match call {
        Call::Count(Scheme::Lf) => Some(lines_lf::count_breaks_impl(probe, end, lead)),
        _ => Some(lines_crlf::count_breaks_impl(probe, end, lead)),
    }
}

/// The count of a kernel that takes an end at a char alone.
fn count_at_boundary(call: Call, text: &str, end: usize, lead: usize) -> Option<usize> {
    if !text.is_char_boundary(end) {
        return None;
    }
    laws::boundaries(text, end);
    let probe = &mut Probe::<Wide>::of(text);
    match call {
        Call::Count(scheme) => Some(scheme.count_impl(probe, end, lead)),
        Call::Surrogates => Some(utf16::count_surrogates_impl(probe, end, lead)),
        _ => None,
    }
}

/// Compares the kernel of the call with the walk for all of the text.
fn compare_whole(rt: &impl Abort, call: Call, text: &str, index: usize, leads: &[usize]) {
    let wanted = walk::answer(call, text);
    for &lead in leads {
        let chunk = ChunkType::Wide;
        let found = Kernel { chunk, lead }.answer(call, text);
        assert_same(rt, found, wanted, &(text.len(), index, lead));
    }
}

/// Compares the kernel of the call, where it counts, with the walk for the chars before `end`.
fn compare_front(rt: &impl Abort, call: Call, text: &str, end: usize, leads: &[usize]) {
    let Some(front) = text.get(..text.floor_char_boundary(end)) else {
        return;
    };
    let wanted = walk::answer(call, front);
    for &lead in leads {
        if let Some(found) = count_before(call, text, end, lead) {
            assert_same(rt, found, wanted, &(front.len(), end, lead));
        }
    }
}

/// Compares the counts of all of the text.
fn compare_counts(rt: &impl Abort, text: &str, leads: &[usize]) {
    compare_whole(rt, Call::Surrogates, text, text.len(), leads);
    for scheme in Scheme::ALL {
        compare_whole(rt, Call::Count(scheme), text, text.len(), leads);
    }
}

/// Compares what is answered at an index, and counted before it.
fn compare(rt: &impl Abort, text: &str, index: usize, leads: &[usize]) {
    compare_front(rt, Call::Surrogates, text, index, leads);
    for scheme in Scheme::ALL {
        compare_front(rt, Call::Count(scheme), text, index, leads);
        compare_whole(rt, Call::From(scheme, index), text, index, leads);
        compare_whole(rt, Call::To(scheme, index), text, index, leads);
    }
}

/// Compares the kernels with the walk at every index up to past the text's end, and at the greatest.
fn compare_everywhere(rt: &impl Abort, text: &str, leads: &[usize]) {
    compare_counts(rt, text, leads);
    for index in 0..usize::max(4, text.len() + 2) {
        compare(rt, text, index, leads);
    }
    compare(rt, text, usize::MAX, leads);
}

#[test]
fn thirty_two_lanes_answer_as_the_walk(rt: HostRuntime) {
    for text in TEXTS {
        compare_everywhere(&rt, text, &LEADS);
    }
}

/// Compares them for a text that has this between letters.
fn compare_around(
    rt: &impl Abort,
    alloc: Global,
    letters: usize,
    middle: &str,
) -> Result<(), Fail> {
    let front = "a".repeat(alloc, letters)?;
    let text = [front.as_str(), middle, "b"].concat(alloc)?;
    compare_everywhere(rt, &text, &FEW_LEADS);
    Ok(())
}

#[test]
fn thirty_two_lanes_see_each_break_at_every_edge(rt: HostRuntime) -> Result<(), Fail> {
    for letters in 0..41 {
        for middle in MIDDLES {
            compare_around(&rt, rt.alloc(), letters, middle)?;
        }
    }
    Ok(())
}

/// Compares them for a char repeated, where as many as these are counted or have as many bytes.
fn compare_repeated(rt: &impl Abort, alloc: Global, unit: &str, times: usize) -> Result<(), Fail> {
    let text = unit.repeat(alloc, times)?;
    compare_counts(rt, &text, &FEW_LEADS);
    for index in [
        1,
        1024,
        1025,
        4096,
        4097,
        4098,
        8193,
        12290,
        text.len(),
        usize::MAX,
    ] {
        compare(rt, &text, index, &FEW_LEADS);
    }
    Ok(())
}

#[test]
fn thirty_two_lanes_are_filled(rt: HostRuntime) -> Result<(), Fail> {
    for (unit, times) in REPEATED {
        compare_repeated(&rt, rt.alloc(), unit, times)?;
    }
    Ok(())
}
