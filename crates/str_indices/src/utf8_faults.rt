//! The first byte that may not follow the three before it.
//!
//! The bytes before a chunk are handed on as the last lanes of three chunks, from which its lanes are shifted: so no
//! byte is loaded twice, and a chunk of any type will do.
ghost use Rattle.std.specs.Prelude.{◌≡◌, ℕ, ◌+◌, ◌-◌, ◌*◌, ◌/◌, ◌<◌, ◌≤◌, ◌≢◌, ◌↔◌, ◌++◌, true, false, bit_or, IsTrue, IsFalse, IfSome, IfNone, IfOk, IfErr, OnOk, length, replicate, slice_index, take, drop};
ghost use Rattle.std.specs.Simd.Lanes.{zip2};
ghost use Rattle.str_indices.specs.Prelude.{AllFollow, AreAscii, AreBefore, AreBytes, AreFour, IsFault, IsWindow, Reads, after_zeros, follows, is_open, leading_bytes, may_follow, open_start};

use crate::utf8_lanes::Utf8Chunk;
use byte_chunk::ByteProbe;

/// The most lanes that a chunk has.
const MOST_LANES: usize = 64;

/// A byte with all bits set for each lane that is kept, and then 0 for each that is left out.
static KEPT_AND_LEFT_OUT: [[u8; MOST_LANES]; 2] = [[0xFF; MOST_LANES], [0; MOST_LANES]];

/// Where the first byte is that may not follow the three before it.
#[derive(Clone, Copy)]
pub(crate) struct Fault {
    pub(crate) at: usize,
}

/// Chunks whose last lanes are the three bytes before a place.
#[derive(Clone, Copy)]
struct Before<T> {
    one_back: T,
    two_back: T,
    three_back: T,
}

/// Four chunks of neighbouring bytes.
#[derive(Clone, Copy)]
struct Group<T> {
    first: T,
    second: T,
    third: T,
    fourth: T,
}

/// Where the next group begins that is not ASCII, that group, and what is before it. There is no group where fewer than four
/// chunks are left.
#[derive(Clone, Copy)]
struct NextGroup<T> {
    at: usize,
    group: Option<Group<T>>,
    before: Before<T>,
}

/// Finds the first byte that may not follow the three before it.
///
/// It walks `lead` bytes one by one, then takes chunks by fours, then single chunks, and at last the chunk that ends
/// where the bytes end.
pub(crate) fn first_fault<T: Utf8Chunk>(
    probe: &mut ByteProbe<'_, T>,
    lead: usize,
) -> Result<(), Fault>
    ensures ok { OnOk result (AllFollow probe.old.text 0 (length probe.old.text)) }
    ensures err { IfErr result (λ fault. IsFault probe.old.text fault.at) }
    ensures reads { let n = length probe.old.text in let first = leading_bytes lead n in
        Reads probe.old probe.new first (first + T.SIZE) ((n - first) / T.SIZE) 3 }
    ensures loads { IfErr result (λ fault. probe.new.loads ≤ probe.old.loads + fault.at / T.SIZE + 4) }
{
    let len = probe.len();
    if len < T::SIZE {
        return walk(probe, len);
    }
    let first_chunk = lead.min(len);
    if let Err(fault) = walk(probe, first_chunk) {
        return Err(fault);
    }
    let after_groups = match check_groups(probe, first_chunk) {
        Ok(at) => at,
        Err(fault) => return Err(fault),
    };
    let after_chunks = match check_chunks(probe, after_groups) {
        Ok(at) => at,
        Err(fault) => return Err(fault),
    };
    if after_chunks == len {
        return Ok(());
    }
    check_rest(probe)
}

/// Checks the first `to` bytes one by one.
fn walk<T: Utf8Chunk>(probe: &mut ByteProbe<'_, T>, to: usize) -> Result<(), Fault>
    requires { to ≤ length probe.old.text }
    ensures ok { OnOk result (AllFollow probe.old.text 0 to) }
    ensures err { IfErr result (λ fault. IsFault probe.old.text fault.at) }
    ensures reads { Reads probe.old probe.new 0 to 0 0 }
{
    prove!(to <= probe.len());
    let (mut x, mut y, mut z) = (0, 0, 0);
    for i in 0..to {
        let byte = probe.turn(i);
        if !may_follow(x, y, z, byte) {
            return Err(Fault { at: i });
        }
        (x, y, z) = (y, z, byte);
    }
    Ok(())
}

/// Whether a byte may follow the three before it.
fn may_follow(x: u8, y: u8, z: u8, byte: u8) -> bool
    ensures { result ≡ may_follow x y z byte }
{
    let trails = matches!(byte, 0x80..=0xBF);
    if x >= 0xF0 || y >= 0xE0 {
        return matches!(z, 0x80..=0xBF) && trails;
    }
    match z {
        ..0xC0 => !trails,
        0xE0 => matches!(byte, 0xA0..=0xBF),
        0xED => matches!(byte, 0x80..=0x9F),
        0xF0 => matches!(byte, 0x90..=0xBF),
        0xF4 => matches!(byte, 0x80..=0x8F),
        0xC2..=0xF4 => trails,
        _ => false,
    }
}

/// Checks the bytes from `from` on, four chunks at a time, and returns where fewer than four are left.
#[inline(always)]
fn check_groups<T: Utf8Chunk>(probe: &mut ByteProbe<'_, T>, from: usize) -> Result<usize, Fault>
    requires within { from ≤ length probe.old.text }
    requires follow { AllFollow probe.old.text 0 from }
    ensures ok { IfOk result (λ at. (from ≤ at) × (at ≤ length probe.old.text) × AllFollow probe.old.text 0 at) }
    ensures few { IfOk result (λ at. length probe.old.text < at + 4 * T.SIZE) }
    ensures err { IfErr result (λ fault. IsFault probe.old.text fault.at) }
    ensures reads { Reads probe.old probe.new from 0 ((length probe.old.text - from) / T.SIZE) 3 }
    ensures ok_reads { IfOk result (λ at. Reads probe.old probe.new from 0 ((at - from) / T.SIZE) 3) }
    ensures err_reads { IfErr result (λ fault. Reads probe.old probe.new from 0 ((fault.at - from) / T.SIZE + 4) 3) }
{
    let len = probe.len();
    let mut at = from;
    let mut before = bytes_before(probe, from);
    'groups: while 4 * T::SIZE <= len - at {
        let next = match next_group(probe, at, before) {
            Ok(next) => next,
            Err(fault) => return Err(fault),
        };
        let NextGroup {
            at: start,
            group,
            before: before_group,
        } = next;
        let Some(group) = group else {
            return Ok(start);
        };
        match check_group(probe, group, start, before_group) {
            Ok(after) => before = after,
            Err(fault) => return Err(fault),
        }
        at = start + 4 * T::SIZE;
    }
    Ok(at)
}

/// Finds the first group from `at` on that is not ASCII, or where fewer than four chunks are left.
///
/// Fails at `at` if a char goes on there and four chunks of ASCII follow.
#[inline(always)]
fn next_group<T: Utf8Chunk>(
    probe: &mut ByteProbe<'_, T>,
    at: usize,
    before: Before<T>,
) -> Result<NextGroup<T>, Fault>
    requires within { at + 4 * T.SIZE ≤ length probe.old.text }
    requires follow { AllFollow probe.old.text 0 at }
    requires before { AreBefore T.SIZE probe.old.text at (T.lanes before.one_back) (T.lanes before.two_back)
        (T.lanes before.three_back) }
    ensures ok { IfOk result (λ next. (at ≤ next.at) × (next.at ≤ length probe.old.text) × AllFollow probe.old.text 0 next.at) }
    ensures before { IfOk result (λ next. AreBefore T.SIZE probe.old.text next.at (T.lanes next.before.one_back)
        (T.lanes next.before.two_back) (T.lanes next.before.three_back)) }
    ensures some { IfOk result (λ next. IfSome next.group (λ group. AreFour T.SIZE probe.old.text next.at
        (T.lanes group.first) (T.lanes group.second) (T.lanes group.third) (T.lanes group.fourth)
        × Reads probe.old probe.new at 0 ((next.at - at) / T.SIZE + 4) 0)) }
    ensures none { IfOk result (λ next. IfNone next.group (Reads probe.old probe.new at 0 ((next.at - at) / T.SIZE) 0)) }
    ensures stops { IfOk result (λ next. IfSome next.group (λ group. ¬ (AreAscii T.SIZE (T.lanes group.first)
        (T.lanes group.second) (T.lanes group.third) (T.lanes group.fourth)))) }
    ensures few { IfOk result (λ next. IfNone next.group (length probe.old.text < next.at + 4 * T.SIZE)) }
    ensures err { IfErr result (λ fault. IsFault probe.old.text fault.at × Reads probe.old probe.new at 0 4 0) }
{
    prove!(4 * T::SIZE <= probe.len() - at);
    let group = load_group(probe, at);
    if !is_ascii(group) {
        return Ok(NextGroup {
            at,
            group: Some(group),
            before,
        });
    }
    if is_open(probe, at) {
        return Err(Fault { at });
    }
    let (at, group) = skip_ascii(probe, at + 4 * T::SIZE);
    Ok(NextGroup {
        at,
        group,
        before: bytes_before(probe, at),
    })
}

/// Skips ASCII from `from` on, four chunks at a time, and returns where it stops and the group there, which is not ASCII.
#[inline(always)]
fn skip_ascii<T: Utf8Chunk>(probe: &mut ByteProbe<'_, T>, from: usize) -> (usize, Option<Group<T>>)
    requires within { (4 * T.SIZE ≤ from) × (from ≤ length probe.old.text) }
    requires follow { AllFollow probe.old.text 0 from }
    requires shut { IsFalse (is_open probe.old.text from) }
    ensures within { (from ≤ result.0) × (result.0 ≤ length probe.old.text) }
    ensures follow { AllFollow probe.old.text 0 result.0 }
    ensures some { IfSome result.1 (λ group. AreFour T.SIZE probe.old.text result.0 (T.lanes group.first)
        (T.lanes group.second) (T.lanes group.third) (T.lanes group.fourth)
        × Reads probe.old probe.new from 0 ((result.0 - from) / T.SIZE + 4) 0) }
    ensures none { IfNone result.1 (Reads probe.old probe.new from 0 ((result.0 - from) / T.SIZE) 0) }
    ensures stops { IfSome result.1 (λ group. ¬ (AreAscii T.SIZE (T.lanes group.first) (T.lanes group.second)
        (T.lanes group.third) (T.lanes group.fourth))) }
    ensures few { IfNone result.1 (length probe.old.text < result.0 + 4 * T.SIZE) }
{
    let last = probe.len() - 4 * T::SIZE;
    let mut at = from;
    'groups: while at <= last {
        let group = load_group(probe, at);
        if !is_ascii(group) {
            return (at, Some(group));
        }
        at += 4 * T::SIZE;
    }
    (at, None)
}

/// Checks the bytes from `from` on, chunk by chunk, and returns where less than a chunk is left.
#[inline(always)]
fn check_chunks<T: Utf8Chunk>(probe: &mut ByteProbe<'_, T>, from: usize) -> Result<usize, Fault>
    requires within { from ≤ length probe.old.text }
    requires follow { AllFollow probe.old.text 0 from }
    ensures ok { IfOk result (λ at. (from ≤ at) × (at ≤ length probe.old.text) × AllFollow probe.old.text 0 at
        × (length probe.old.text < at + T.SIZE)) }
    ensures err { IfErr result (λ fault. IsFault probe.old.text fault.at) }
    ensures reads { Reads probe.old probe.new from 0 ((length probe.old.text - from) / T.SIZE) 0 }
    ensures err_reads { IfErr result (λ fault. Reads probe.old probe.new from 0 ((fault.at - from) / T.SIZE + 1) 0) }
{
    let len = probe.len();
    let mut at = from;
    let mut after_ascii = false;
    'chunks: while T::SIZE <= len - at {
        let chunk = probe.load(at);
        match check_alone(probe, chunk, at, after_ascii) {
            Ok(is_ascii) => after_ascii = is_ascii,
            Err(fault) => return Err(fault),
        }
        at += T::SIZE;
    }
    Ok(at)
}

/// Checks the last `T::SIZE` bytes.
#[inline(always)]
fn check_rest<T: Utf8Chunk>(probe: &mut ByteProbe<'_, T>) -> Result<(), Fault>
    requires long { T.SIZE ≤ length probe.old.text }
    requires follow { AllFollow probe.old.text 0 (length probe.old.text - T.SIZE) }
    ensures ok { OnOk result (AllFollow probe.old.text 0 (length probe.old.text)) }
    ensures err { IfErr result (λ fault. IsFault probe.old.text fault.at) }
    ensures reads { Reads probe.old probe.new 0 T.SIZE 0 0 }
{
    let at = probe.len() - T::SIZE;
    let chunk = chunk_by_turns(probe, at);
    check_alone(probe, chunk, at, false)?;
    Ok(())
}

/// Checks a chunk with no group around it, and returns whether it is ASCII.
#[inline(always)]
fn check_alone<T: Utf8Chunk>(
    probe: &mut ByteProbe<'_, T>,
    chunk: T,
    at: usize,
    after_ascii: bool,
) -> Result<bool, Fault>
    requires within { at + T.SIZE ≤ length probe.old.text }
    requires follow { AllFollow probe.old.text 0 at }
    requires chunk { IsWindow T.SIZE probe.old.text (at + 3) (T.lanes chunk) }
    requires shut { after_ascii ≡ true → IsFalse (is_open probe.old.text at) }
    ensures ok { IfOk result (λ is_ascii. AllFollow probe.old.text 0 (at + T.SIZE)
        × (is_ascii ≡ true → IsFalse (is_open probe.old.text (at + T.SIZE)))) }
    ensures err { IfErr result (λ fault. IsFault probe.old.text fault.at) }
    ensures reads { Reads probe.old probe.new 0 0 0 3 }
{
    if chunk.is_ascii() {
        if goes_on(probe, at, after_ascii) {
            return Err(Fault { at });
        }
        return Ok(true);
    }
    let before = bytes_before(probe, at);
    check_chunk(probe, chunk, at, before)?;
    Ok(false)
}

/// Reads the chunk at `at`, with one turn a byte.
#[inline(always)]
fn chunk_by_turns<T: Utf8Chunk>(probe: &mut ByteProbe<'_, T>, at: usize) -> T
    requires { at + T.SIZE ≤ length probe.old.text }
    ensures lanes { T.lanes result ≡ take T.SIZE (drop at probe.old.text) }
    ensures turns { probe.new ≡ record probe.old { turns = probe.old.turns + T.SIZE } }
{
    prove!(T::SIZE <= probe.len() - at);
    let mut bytes = [0; MOST_LANES];
    for i in 0..T::SIZE {
        bytes[i] = probe.turn(at + i);
    }
    T::load(&bytes)
}

/// The four chunks from `at` on.
#[inline(always)]
fn load_group<T: Utf8Chunk>(probe: &mut ByteProbe<'_, T>, at: usize) -> Group<T>
    requires { at + 4 * T.SIZE ≤ length probe.old.text }
    ensures four { AreFour T.SIZE probe.old.text at (T.lanes result.first) (T.lanes result.second)
        (T.lanes result.third) (T.lanes result.fourth) }
    ensures reads { Reads probe.old probe.new at 0 4 0 }
    ensures loads { probe.new.loads ≡ probe.old.loads + 4 }
    ensures peeks { probe.new.peeks ≡ probe.old.peeks }
{
    prove!(4 * T::SIZE <= probe.len() - at);
    Group {
        first: probe.load(at),
        second: probe.load(at + T::SIZE),
        third: probe.load(at + 2 * T::SIZE),
        fourth: probe.load(at + 3 * T::SIZE),
    }
}

/// Whether all lanes are ASCII.
#[inline(always)]
fn is_ascii<T: Utf8Chunk>(group: Group<T>) -> bool
    requires first { AreBytes T.SIZE (T.lanes group.first) }
    requires second { AreBytes T.SIZE (T.lanes group.second) }
    requires third { AreBytes T.SIZE (T.lanes group.third) }
    requires fourth { AreBytes T.SIZE (T.lanes group.fourth) }
    ensures { IsTrue result ↔ AreAscii T.SIZE (T.lanes group.first) (T.lanes group.second) (T.lanes group.third)
        (T.lanes group.fourth) }
{
    let front = either(group.first, group.second);
    let back = either(group.third, group.fourth);
    either(front, back).is_ascii()
}

/// Returns the bits that are set in one of the two, lane by lane.
#[inline(always)]
fn either<T: Utf8Chunk>(a: T, b: T) -> T
    requires a { AreBytes T.SIZE (T.lanes a) }
    requires b { AreBytes T.SIZE (T.lanes b) }
    ensures bytes { AreBytes T.SIZE (T.lanes result) }
    ensures lanes { T.lanes result ≡ zip2 bit_or (T.lanes a) (T.lanes b) }
{
    a.sub(a.bitand(b)).add(b)
}

/// Checks four chunks, and returns what is before the next one.
#[inline(always)]
fn check_group<T: Utf8Chunk>(
    probe: &ByteProbe<'_, T>,
    group: Group<T>,
    at: usize,
    before: Before<T>,
) -> Result<Before<T>, Fault>
    requires follow { AllFollow probe.now.text 0 at }
    requires four { AreFour T.SIZE probe.now.text at (T.lanes group.first) (T.lanes group.second)
        (T.lanes group.third) (T.lanes group.fourth) }
    requires before { AreBefore T.SIZE probe.now.text at (T.lanes before.one_back) (T.lanes before.two_back)
        (T.lanes before.three_back) }
    ensures ok { IfOk result (λ next. AllFollow probe.now.text 0 (at + 4 * T.SIZE)
        × AreBefore T.SIZE probe.now.text (at + 4 * T.SIZE) (T.lanes next.one_back) (T.lanes next.two_back)
        (T.lanes next.three_back)) }
    ensures err { IfErr result (λ fault. IsFault probe.now.text fault.at) }
{
    let size = T::SIZE;
    prove!(4 * size <= probe.len() - at);
    let after_first = check_chunk(probe, group.first, at, before)?;
    let after_second = check_chunk(probe, group.second, at + size, after_first)?;
    let after_third = check_chunk(probe, group.third, at + 2 * size, after_second)?;
    check_chunk(probe, group.fourth, at + 3 * size, after_third)
}

/// Checks a chunk, and returns what is before the next one.
#[inline(always)]
fn check_chunk<T: Utf8Chunk>(
    probe: &ByteProbe<'_, T>,
    chunk: T,
    at: usize,
    before: Before<T>,
) -> Result<Before<T>, Fault>
    requires within { at + T.SIZE ≤ length probe.now.text }
    requires follow { AllFollow probe.now.text 0 at }
    requires chunk { IsWindow T.SIZE probe.now.text (at + 3) (T.lanes chunk) }
    requires before { AreBefore T.SIZE probe.now.text at (T.lanes before.one_back) (T.lanes before.two_back)
        (T.lanes before.three_back) }
    ensures ok { IfOk result (λ next. AllFollow probe.now.text 0 (at + T.SIZE)
        × AreBefore T.SIZE probe.now.text (at + T.SIZE) (T.lanes next.one_back) (T.lanes next.two_back)
        (T.lanes next.three_back)) }
    ensures err { IfErr result (λ fault. IsFault probe.now.text fault.at) }
{
    prove!(T::SIZE <= probe.len() - at);
    let one_back = before.one_back.shift_across(chunk);
    let two_back = before.two_back.shift_across(one_back);
    let three_back = before.three_back.shift_across(two_back);
    let faults = T::faults(three_back, two_back, one_back, chunk);
    if faults.is_zero() {
        return Ok(Before {
            one_back: chunk,
            two_back: one_back,
            three_back: two_back,
        });
    }
    Err(Fault {
        at: at + first_lane(faults),
    })
}

/// The first lane that is not 0, of lanes that are not all 0.
fn first_lane<T: Utf8Chunk>(lanes: T) -> usize
    requires bytes { AreBytes T.SIZE (T.lanes lanes) }
    requires some { T.lanes lanes ≢ replicate T.SIZE 0 }
    ensures within { result < T.SIZE }
    ensures zeros { (j : ℕ) → j < result → slice_index (T.lanes lanes) j ≡ 0 }
    ensures first { slice_index (T.lanes lanes) result ≢ 0 }
{
    let last = T::SIZE - 1;
    for lane in 0..last {
        if !lanes.bitand(first_kept(lane + 1)).is_zero() {
            return lane;
        }
    }
    last
}

/// A byte with all bits set in each of the first `kept` lanes, and 0 in the others.
fn first_kept<T: Utf8Chunk>(kept: usize) -> T
    requires { kept ≤ T.SIZE }
    ensures { T.lanes result ≡ replicate kept 0xFF ++ replicate (T.SIZE - kept) 0 }
{
    T::load(&KEPT_AND_LEFT_OUT.as_flattened()[MOST_LANES - kept..])
}

/// Chunks whose last lanes are the three bytes before `at`, or 0 before the first.
#[inline(always)]
fn bytes_before<T: Utf8Chunk>(probe: &mut ByteProbe<'_, T>, at: usize) -> Before<T>
    requires { at ≤ length probe.old.text }
    ensures before { AreBefore T.SIZE probe.old.text at (T.lanes result.one_back) (T.lanes result.two_back)
        (T.lanes result.three_back) }
    ensures reads { Reads probe.old probe.new 0 0 0 3 }
{
    Before {
        one_back: T::splat(byte_back(probe, at, 1)),
        two_back: T::splat(byte_back(probe, at, 2)),
        three_back: T::splat(byte_back(probe, at, 3)),
    }
}

/// The byte `back` places before `at`, or 0 if there is none.
#[inline(always)]
fn byte_back<T: Utf8Chunk>(probe: &mut ByteProbe<'_, T>, at: usize, back: usize) -> u8
    requires near { (0 < back) × (back ≤ 3) }
    requires within { at ≤ length probe.old.text }
    ensures byte { result ≡ slice_index (after_zeros probe.old.text) (at + 3 - back) }
    ensures reads { Reads probe.old probe.new 0 0 0 1 }
{
    if at < back {
        return 0;
    }
    probe.peek(at - back)
}

/// Whether a char goes on at `at`. After ASCII none does.
#[inline(always)]
fn goes_on<T: Utf8Chunk>(probe: &mut ByteProbe<'_, T>, at: usize, after_ascii: bool) -> bool
    requires within { at ≤ length probe.old.text }
    requires shut { after_ascii ≡ true → IsFalse (is_open probe.old.text at) }
    ensures open { result ≡ is_open probe.old.text at }
    ensures reads { Reads probe.old probe.new 0 0 0 3 }
{
    if after_ascii {
        return false;
    }
    is_open(probe, at)
}

/// Whether a char goes on at `at`.
#[inline(always)]
pub(crate) fn is_open<T: Utf8Chunk>(probe: &mut ByteProbe<'_, T>, at: usize) -> bool
    requires { at ≤ length probe.old.text }
    ensures open { result ≡ is_open probe.old.text at }
    ensures reads { Reads probe.old probe.new 0 0 0 3 }
{
    byte_back(probe, at, 3) >= 0xF0
        || byte_back(probe, at, 2) >= 0xE0
        || byte_back(probe, at, 1) >= 0xC0
}

/// Where the char begins that goes on at `at`, or else `at`.
pub(crate) fn open_start<T: Utf8Chunk>(probe: &mut ByteProbe<'_, T>, at: usize) -> usize
    requires { at ≤ length probe.old.text }
    ensures start { result ≡ open_start probe.old.text at }
    ensures reads { Reads probe.old probe.new 0 0 0 3 }
{
    if byte_back(probe, at, 1) >= 0xC0 {
        return at - 1;
    }
    if byte_back(probe, at, 2) >= 0xE0 {
        return at - 2;
    }
    if byte_back(probe, at, 3) >= 0xF0 {
        return at - 3;
    }
    at
}
