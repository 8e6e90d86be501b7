//! Who is given what an archive holds.
ghost use Rattle.std.specs.Prelude.{◌≡◌, ℕ, List, [], ◌∷◌, Bool, true, Option, None, OnOk, OnErr, IsErrOf};
ghost use Rattle.tool_io.specs.Causes.{Rose};
ghost use Rattle.archive_format.specs.Archive.{Taking, meta as meta_taking, doc as doc_taking, end as end_taking, fault_in};
ghost use Rattle.demux.specs.Takes.{Took};

use bson_value::NsName;

/// Why a taking wasn't taken.
#[derive(Clone, Copy, Debug, PartialEq, Eq)]
pub enum Halt {
    /// There was no memory.
    NoMemory,
    /// Nothing more is wanted.
    Stopped,
}

/// Takes metadata texts, documents and ends, in order of the bytes. It is called only while both of its counts are 0,
/// so they never fall. A taking that it refuses adds nothing to what it knows.
pub trait DocTaker {
    /// What it can know of what it took: a list of takings, say, or what they make.
    ghost Known: { Type 0 };
    /// What a taking adds to what was known. No taking changes this.
    ghost adds: { Self → Self.Known → Taking → Self.Known };
    /// What it knows of what it took, where it tells.
    ghost known: { Self → Option Self.Known };
    /// How often it stopped.
    ghost stops: { Self → ℕ };
    /// How often it found no memory.
    ghost starved: { Self → ℕ };
    /// What it tells, once it stopped, of the taking at which it did.
    ghost halted: { Self → Taking → Bool };

    /// The metadata text of a namespace that isn't the oplog.
    fn meta(&mut self, ns: &NsName, text: &str) -> Result<(), Halt>
        requires fresh { (stops self.old ≡ 0) × (starved self.old ≡ 0) }
        ensures ok { OnOk result (Took (adds self.old) (known self.old) (known self.new) (meta_taking ns.now text.now ∷ [])) }
        ensures err { OnErr result (Took (adds self.old) (known self.old) (known self.new) []) }
        ensures same { adds self.new ≡ adds self.old }
        ensures fresh { OnOk result ((stops self.new ≡ 0) × (starved self.new ≡ 0)) }
        ensures stopped { IsErrOf result Halt.Stopped → Rose (stops self.old) (stops self.new) }
        ensures halted { IsErrOf result Halt.Stopped → halted self.new (meta_taking ns.now text.now) ≡ true }
        ensures starved { IsErrOf result Halt.NoMemory → Rose (starved self.old) (starved self.new) };

    /// The bytes of a document of at most 16,793,600 bytes and 200 levels, as they lie in the window.
    fn doc(&mut self, ns: &NsName, bytes: &[u8]) -> Result<(), Halt>
        requires fresh { (stops self.old ≡ 0) × (starved self.old ≡ 0) }
        requires document { fault_in bytes.now ≡ None }
        ensures ok { OnOk result (Took (adds self.old) (known self.old) (known self.new) (doc_taking ns.now bytes.now ∷ [])) }
        ensures err { OnErr result (Took (adds self.old) (known self.old) (known self.new) []) }
        ensures same { adds self.new ≡ adds self.old }
        ensures fresh { OnOk result ((stops self.new ≡ 0) × (starved self.new ≡ 0)) }
        ensures stopped { IsErrOf result Halt.Stopped → Rose (stops self.old) (stops self.new) }
        ensures halted { IsErrOf result Halt.Stopped → halted self.new (doc_taking ns.now bytes.now) ≡ true }
        ensures starved { IsErrOf result Halt.NoMemory → Rose (starved self.old) (starved self.new) };

    /// The end of a namespace, whose documents were all given.
    fn end(&mut self, ns: &NsName) -> Result<(), Halt>
        requires fresh { (stops self.old ≡ 0) × (starved self.old ≡ 0) }
        ensures ok { OnOk result (Took (adds self.old) (known self.old) (known self.new) (end_taking ns.now ∷ [])) }
        ensures err { OnErr result (Took (adds self.old) (known self.old) (known self.new) []) }
        ensures same { adds self.new ≡ adds self.old }
        ensures fresh { OnOk result ((stops self.new ≡ 0) × (starved self.new ≡ 0)) }
        ensures stopped { IsErrOf result Halt.Stopped → Rose (stops self.old) (stops self.new) }
        ensures halted { IsErrOf result Halt.Stopped → halted self.new (end_taking ns.now) ≡ true }
        ensures starved { IsErrOf result Halt.NoMemory → Rose (starved self.old) (starved self.new) };
}
