//! A caller that counts as it changes, proved from the law of counts.
ghost use Rattle.std.specs.Prelude.{◌≡◌, IfOk};
ghost use Rattle.str_indices.specs.Schemes.{count};
ghost use Rattle.str_indices.specs.declared.Scheme.TheVariants.{Lf};

use str_indices::lines_lf;
use text_rope::{Refusal, Rope, Scheme};

/// Puts a text in, and answers how many LFs there are then, by how many there were: the rope is not asked.
pub fn insert_counted(
    rope: &mut Rope,
    breaks: usize,
    at: usize,
    text: &str,
) -> Result<usize, Refusal>
    requires { breaks ≡ count Lf rope.old }
    ensures { IfOk result (λ after. after ≡ count Lf rope.new) }
{
    rope.insert(at, text)?;
    let _short = rope.len();
    Ok(breaks + lines_lf::count_breaks(text))
}

#[test]
fn breaks_are_counted_as_they_come(rt: HostRuntime) {
    let mut rope = match Rope::from_str(rt.alloc(), "one\r\ntwo\n") {
        Ok(rope) => rope,
        Err(refusal) => panic!(rt; "{refusal:?}"),
    };
    let before = rope.count(Scheme::Lf);
    let breaks = insert_counted(&mut rope, before, 4, "\n\r");
    assert!(rt; breaks == Ok(3), "{breaks:?}");
}
