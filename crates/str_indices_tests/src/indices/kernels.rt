//! The kernels of a scheme, over chunks of one type.
use byte_chunk::{ByteChunk, Probe};
use str_indices::{Scheme, laws, lines_crlf, lines_lf, utf16};

/// The scheme's count before `end`, or `None` where its kernel does not take that end.
pub fn count<T: ByteChunk>(scheme: Scheme, text: &str, end: usize, lead: usize) -> Option<usize> {
    match scheme {
        Scheme::Lf | Scheme::Crlf => count_at_byte::<T>(scheme, text, end, lead),
        _ => count_at_boundary::<T>(scheme, text, end, lead),
    }
}

/// The count of a scheme whose kernel takes any byte as an end.
fn count_at_byte<T: ByteChunk>(
    scheme: Scheme,
    text: &str,
    end: usize,
    lead: usize,
) -> Option<usize> {
    let probe = &mut Probe::<T>::of(text);
    if end > probe.len() {
        return None;
    }
    if scheme == Scheme::Lf {
        Some(lines_lf::count_breaks_impl(probe, end, lead))
    } else {
        Some(lines_crlf::count_breaks_impl(probe, end, lead))
    }
}

/// The count of a scheme whose kernel takes an end at a char alone.
fn count_at_boundary<T: ByteChunk>(
    scheme: Scheme,
    text: &str,
    end: usize,
    lead: usize,
) -> Option<usize> {
    if !text.is_char_boundary(end) {
        return None;
    }
    laws::boundaries(text, end);
    let probe = &mut Probe::<T>::of(text);
    Some(scheme.count_impl(probe, end, lead))
}

/// The surrogate pairs before `end`, or `None` where the kernel does not take that end.
pub fn count_surrogates<T: ByteChunk>(text: &str, end: usize, lead: usize) -> Option<usize> {
    if !text.is_char_boundary(end) {
        return None;
    }
    laws::boundaries(text, end);
    let mut probe = Probe::<T>::of(text);
    Some(utf16::count_surrogates_impl(&mut probe, end, lead))
}

pub fn from_byte_idx<T: ByteChunk>(
    scheme: Scheme,
    text: &str,
    byte_idx: usize,
    lead: usize,
) -> usize {
    let probe = &mut Probe::<T>::of(text);
    scheme.from_byte_idx_impl(probe, byte_idx, lead)
}

pub fn to_byte_idx<T: ByteChunk>(scheme: Scheme, text: &str, idx: usize, lead: usize) -> usize {
    let probe = &mut Probe::<T>::of(text);
    scheme.to_byte_idx_impl(probe, idx, lead)
}
