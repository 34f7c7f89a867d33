//! What counts the looks and reads of a question, and the work of a change. A permit to take a node's parts, to read a chunk's
//! text or to change a chunk comes only from a call that counts it.
ghost use Rattle.std.specs.Prelude.{◌≡◌, ◌+◌};
ghost use Rattle.text_rope.specs.States.{AskedState};
ghost use Rattle.text_rope.specs.Work.{WorkState};

use byte_chunk::Counter;
use std::marker::Model;

/// The permission to take one node's parts. Only this module makes one. It takes no memory.
#[derive(Drop)]
pub(crate) struct LookPermit(());

/// The permission to read one chunk's text. Only this module makes one. It takes no memory.
#[derive(Drop)]
pub(crate) struct ReadPermit(());

/// The permission to change one chunk in place. Only this module makes one. It takes no memory.
#[derive(Drop)]
pub(crate) struct ChangePermit(());

/// How many nodes a view has looked at, and how often it has read a chunk. It takes no memory.
#[derive(Drop)]
pub(in crate::rope) struct Asked {
    looks: Counter,
    reads: Counter,
}

impl Model for Asked {
    ghost use Rattle.text_rope.specs.States.{AskedState};

    ghost Value = { AskedState };

    ghost view = { λ a. record { looks = a.looks; reads = a.reads } };
}

impl Asked {
    /// Nothing was asked yet. A new view alone begins so.
    pub(in crate::rope) fn none() -> Asked
        ensures { result ≡ record { looks = 0; reads = 0 } }
    {
        Asked {
            looks: Counter::zero(),
            reads: Counter::zero(),
        }
    }

    /// The permit to take a node's parts, for one look.
    pub(in crate::rope) fn look(&mut self) -> LookPermit
        ensures looks { self.new.looks ≡ self.old.looks + 1 }
        ensures reads { self.new.reads ≡ self.old.reads }
    {
        self.looks.tick();
        LookPermit(())
    }

    /// The permit to read a chunk's text, for one read.
    pub(in crate::rope) fn read(&mut self) -> ReadPermit
        ensures looks { self.new.looks ≡ self.old.looks }
        ensures reads { self.new.reads ≡ self.old.reads + 1 }
    {
        self.reads.tick();
        ReadPermit(())
    }
}

/// How many nodes a change has looked at, made or changed, and how many chunks it has put into another node or changed. It
/// takes no memory.
#[derive(Drop)]
pub(crate) struct Work {
    nodes: Counter,
    chunks: Counter,
}

impl Model for Work {
    ghost use Rattle.text_rope.specs.Work.{WorkState};

    ghost Value = { WorkState };

    ghost view = { λ w. record { nodes = w.nodes; chunks = w.chunks } };
}

impl Work {
    /// Nothing was done yet. A public method of a rope alone begins a change.
    pub(in crate::rope) fn none() -> Work
        ensures { result ≡ record { nodes = 0; chunks = 0 } }
    {
        Work {
            nodes: Counter::zero(),
            chunks: Counter::zero(),
        }
    }

    /// A node is looked at, made, or changed in place: the permit to take its parts, for one node.
    pub(crate) fn make(&mut self) -> LookPermit
        ensures nodes { self.new.nodes ≡ self.old.nodes + 1 }
        ensures chunks { self.new.chunks ≡ self.old.chunks }
    {
        self.nodes.tick();
        LookPermit(())
    }

    /// A chunk is put into another node, or changed in place: the permit to change it, for one chunk.
    pub(crate) fn change(&mut self) -> ChangePermit
        ensures nodes { self.new.nodes ≡ self.old.nodes }
        ensures chunks { self.new.chunks ≡ self.old.chunks + 1 }
    {
        self.chunks.tick();
        ChangePermit(())
    }
}
