ghost use Rattle.std.specs.Prelude.{◌≡◌, ◌<◌, ◌≤◌, length, OnOk, OnErr, IsErrOf, IfErr};
ghost use Rattle.std.specs.Io.{ReadsAtMost};
ghost use Rattle.std.specs.Io.KnownBytes.{ReadConsumes, Appends};
ghost use Rattle.tool_io.specs.Causes.{Rose, AppendsFront};
ghost use Rattle.tool_io.specs.Ends.{End};

use std::alloc::AllocError;

/// Why a read or a write gave nothing.
#[derive(Clone, Copy, Debug, PartialEq, Eq)]
pub enum Fault {
    /// There was no memory. A read never answers it.
    NoMemory,
    /// The outside failed, and the count of faults rose.
    Failed,
}

impl From<AllocError> for Fault {
    ghost use Rattle.tool_io.specs.declared.ends.Fault.TheVariants.{NoMemory};

    ghost from_gives = { λ _ e. e ≡ NoMemory };

    fn from(_e: AllocError) -> Fault {
        Fault::NoMemory
    }
}

/// Something to read bytes from.
pub trait Source {
    /// The bytes not yet read, where they are known, and how often a read failed. The count never falls, and stands still at
    /// the last number of 64 bits.
    ghost end: { Self → End };

    /// Takes the next bytes into the front of the buffer and tells how many: at the end of the input, and only there, none.
    /// Where it fails it takes nothing.
    fn read(&mut self, buf: &mut [u8]) -> Result<usize, Fault>
        requires { 0 < length buf.old }
        ensures bound { ReadsAtMost result buf.new }
        ensures bytes { ReadConsumes (end self.old).bytes (end self.new).bytes result buf.new }
        ensures later { (end self.old).faults ≤ (end self.new).faults }
        ensures cause { IfErr result (λ e. (e ≡ Fault.Failed) × Rose (end self.old).faults (end self.new).faults) };
}

/// Something to write bytes to.
pub trait Sink {
    /// The bytes written so far, where they are known, and how often a write failed. The count never falls, and stands still at
    /// the last number of 64 bits.
    ghost end: { Self → End };

    /// Writes the whole piece. Where it fails, some front of the piece was written.
    fn write(&mut self, piece: &[u8]) -> Result<(), Fault>
        ensures ok { OnOk result (Appends (end self.old).bytes (end self.new).bytes piece.now) }
        ensures err { OnErr result (AppendsFront (end self.old).bytes (end self.new).bytes piece.now) }
        ensures later { (end self.old).faults ≤ (end self.new).faults }
        ensures cause { IsErrOf result Fault.Failed → Rose (end self.old).faults (end self.new).faults };
}
