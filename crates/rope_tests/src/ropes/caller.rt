//! A caller, proved from the public contracts.
ghost use Rattle.std.specs.Prelude.{◌≡◌, ◌++◌, chars, IfOk};
ghost use Rattle.str_indices.specs.Schemes.{count};
ghost use Rattle.str_indices.specs.declared.Scheme.TheVariants.{Crlf};

use std::alloc::Global;
use std::process::Abort;
use text_rope::{Refusal, Rope, Scheme};

/// How many line breaks two texts have, one after the other.
pub fn breaks_of(alloc: Global, first: &str, second: &str) -> Result<usize, Refusal>
    ensures { IfOk result (λ breaks. breaks ≡ count Crlf (chars first.now ++ chars second.now)) }
{
    let mut text = Rope::from_str(alloc, first)?;
    let mut rest = Rope::from_str(alloc, second)?;
    text.append(&mut rest)?;
    Ok(text.count(Scheme::Crlf))
}

fn assert_breaks(rt: &impl Abort, alloc: Global, first: &str, second: &str, wanted: usize) {
    let found = breaks_of(alloc, first, second);
    assert!(rt; found == Ok(wanted), "{first:?} {second:?} {found:?}");
}

#[test]
fn a_break_of_two_texts_is_one(rt: HostRuntime) {
    let rows = [
        ("", "", 0),
        ("a\r", "\nb\r\n", 2),
        ("a\r", "b\n", 2),
        ("\n", "\r", 2),
        ("\r\n", "", 1),
    ];
    for (first, second, breaks) in rows {
        assert_breaks(&rt, rt.alloc(), first, second, breaks);
    }
}
