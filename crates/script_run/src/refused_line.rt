//! The line that a run refused.

ghost use Rattle.std.specs.Prelude.{◌≡◌, ◌≢◌, ◌⊎◌, ◌<◌, ◌+◌, ◌++◌, [], length};
ghost use Rattle.std.proofs.Props.{props};
ghost use Rattle.script_text.specs.Command.{SaysNothing};

use std::alloc::Global;

/// The bytes of the line that ended a run with `BadLine`, without its LF.
///
/// There are none if no line was bad, or if memory ran out for them. Of a line above 1,048,576 bytes there are
/// those that were read, more than 1,048,576.
#[derive(Drop)]
pub struct RefusedLine {
    bytes: Vec<u8>,
    ghost bad: { bytes.items ≢ [] → SaysNothing bytes.items } by { Prim.hlevel props },
}

impl RefusedLine {
    /// No line.
    pub fn none(alloc: Global) -> RefusedLine
        ensures { result.bytes.items ≡ [] }
    {
        RefusedLine {
            bytes: Vec::new(alloc),
        }
    }

    /// The bytes of the line.
    pub fn bytes(&self) -> &[u8]
        ensures bytes { result.now ≡ self.now.bytes.items }
        ensures bad { result.now ≢ [] → SaysNothing result.now }
    {
        &self.bytes
    }

    /// Keeps this line.
    #[cold]
    #[inline(never)]
    pub(crate) fn keep(&mut self, line: &[u8])
        requires { SaysNothing line.now }
        ensures { (self.new.bytes.items ≡ []) ⊎ (self.new.bytes.items ≡ line.now) }
    {
        self.bytes.clear();
        let _ = self.bytes.extend_from_slice(line);
    }

    /// Keeps a line that is too long, whose front was read before these bytes.
    #[cold]
    #[inline(never)]
    pub(crate) fn keep_long(&mut self, front: &[u8], behind: &[u8])
        requires { 1048576 < length front.now + length behind.now }
        ensures { (self.new.bytes.items ≡ []) ⊎ (self.new.bytes.items ≡ front.now ++ behind.now) }
    {
        self.bytes.clear();
        if self.bytes.extend_from_slice(front).is_err() {
            return;
        }
        if self.bytes.extend_from_slice(behind).is_err() {
            self.bytes.clear();
        }
    }
}
