// The rope of a handle: lent to a question, taken out, and put in.
ghost use Rattle.std.specs.Prelude.{◌≡◌, ◌≢◌, [], IfSome, IfNone, IsErr, IsOkUnless, OnOk, OnErr};
ghost use Rattle.std.specs.Fn.{FnOnceReturnsAt};
ghost use Rattle.text_rope.specs.declared.refusals.Refusal.TheVariants.{NoMemory};
ghost use Rattle.text_rope_c.specs.Kept.{null};

use crate::loose::Loose;
use crate::slot::Slot;
use std::alloc::Global;
use std::mem;
use text_rope::{Refusal, Rope};

/// Takes the rope out of a handle, which is then null; `None` if it was null already.
pub(crate) fn take_rope(alloc: Global, rope: &mut Slot) -> Option<Box<Rope>>
    ensures some { IfSome result (λ inner. inner.value ≡ rope.old.text) }
    ensures none { IfNone result (rope.old.text ≡ []) }
    ensures empty { rope.new.text ≡ [] }
{
    match mem::replace(rope, Slot::none()).into_loose(alloc) {
        None => None,
        Some(loose) => Some(loose.into_box()),
    }
}

/// Frees a text.
fn free_rope(alloc: Global, rope: Slot) {
    match rope.into_loose(alloc) {
        None => {}
        Some(loose) => {
            let _freed = loose.into_box();
        }
    }
}

/// Frees the text of a handle, which is then null.
pub(crate) fn empty_handle(alloc: Global, rope: &mut Slot)
    ensures text { rope.new.text ≡ [] }
    ensures null { rope.new.at ≡ null }
{
    free_rope(alloc, mem::replace(rope, Slot::none()));
}

/// Puts a rope into a handle, and frees what was there.
pub(crate) fn put_rope(alloc: Global, rope: &mut Slot, inner: Box<Rope>)
    ensures { rope.new.text ≡ inner.value }
{
    free_rope(alloc, mem::replace(rope, Slot::of(Loose::of(inner))));
}

/// Puts a text into a handle, and frees what was there. An empty text takes no memory.
pub(crate) fn store(alloc: Global, rope: &mut Slot, whole: Rope) -> Result<(), Refusal>
    ensures ok { OnOk result (rope.new.text ≡ whole) }
    ensures err { OnErr result (rope.new.text ≡ rope.old.text) }
    ensures some { IsErr result → whole ≢ [] }
    ensures no_other { IsOkUnless result NoMemory }
{
    if whole.is_empty() {
        empty_handle(alloc, rope);
        return Ok(());
    }
    let Ok(inner) = Box::new(alloc, whole) else {
        return Err(Refusal::NoMemory);
    };
    put_rope(alloc, rope, inner);
    Ok(())
}

/// Answers a question about the text. The handle stays as it is, and so does its pointer.
pub(crate) fn ask<A, F: FnOnce(&Rope) -> A>(alloc: Global, rope: &mut Slot, question: F) -> A
    requires { F.IsAlwaysCallable question }
    ensures answer { FnOnceReturnsAt F.FnOnce question rope.old.text result }
    ensures same { rope.new ≡ rope.old }
{
    if rope.is_null() {
        return question(&Rope::new(alloc));
    }
    question(rope.as_mut())
}
