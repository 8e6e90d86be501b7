//! The item at the front of the window.
ghost use Rattle.std.specs.Prelude.{◌≡◌, ◌⊎◌, OnOk, IsErrOf, slice_get};
ghost use Rattle.tool_io.specs.Causes.{Rose};
ghost use Rattle.archive_format.specs.Archive.{terminator, document, sound, meta_step, doc_step, end_step, metadata_in, fault_in, step, item_of, next, Asks};
ghost use Rattle.demux.specs.Steps.{stage_of, Stepped, Turned, AsksFirst};

use crate::fault::DemuxFault;
use crate::progress::Progress;
use crate::steps::{early, is_magic, is_stop, size_of};
use crate::taker::DocTaker;
use archive_format::{FormatFault, Place};

impl Progress {
    fn metadata<T: DocTaker>(
        &mut self,
        at: u64,
        bytes: &[u8],
        taker: &mut T,
    ) -> Result<(), DemuxFault>
        requires fresh { (T.stops taker.old ≡ 0) × (T.starved taker.old ≡ 0) }
        ensures steps { Stepped result (stage_of self.new) (sound at (meta_step (stage_of self.old) at (metadata_in bytes.now)) (fault_in bytes.now)) (T.adds taker.old) (T.known taker.old) (T.known taker.new) (T.halted taker.new) }
        ensures same { T.adds taker.new ≡ T.adds taker.old }
        ensures fresh { OnOk result ((T.stops taker.new ≡ 0) × (T.starved taker.new ≡ 0)) }
        ensures stopped { IsErrOf result DemuxFault.Stopped → Rose (T.stops taker.old) (T.stops taker.new) }
    {
        match self.note_metadata(at, bytes)? {
            None => Ok(()),
            Some(meta) => Ok(taker.meta(&meta.ns, meta.text.as_str())?),
        }
    }

    fn block_document<T: DocTaker>(
        &mut self,
        at: u64,
        i: usize,
        bytes: &[u8],
        taker: &mut T,
    ) -> Result<(), DemuxFault>
        requires fresh { (T.stops taker.old ≡ 0) × (T.starved taker.old ≡ 0) }
        ensures steps { Stepped result (stage_of self.new) (sound at (doc_step (stage_of self.old) at i bytes.now (slice_get self.old.seen i)) (fault_in bytes.now)) (T.adds taker.old) (T.known taker.old) (T.known taker.new) (T.halted taker.new) }
        ensures same { T.adds taker.new ≡ T.adds taker.old }
        ensures fresh { OnOk result ((T.stops taker.new ≡ 0) × (T.starved taker.new ≡ 0)) }
        ensures stopped { IsErrOf result DemuxFault.Stopped → Rose (T.stops taker.old) (T.stops taker.new) }
        ensures starved { IsErrOf result DemuxFault.NoMemory → Rose (T.starved taker.old) (T.starved taker.new) }
    {
        self.add_document(at, i, bytes)?;
        match self.name_of(i) {
            None => Err(DemuxFault::Format(FormatFault::BadHeader { at })),
            Some(ns) => Ok(taker.doc(ns, bytes)?),
        }
    }

    fn block_end<T: DocTaker>(
        &mut self,
        at: u64,
        i: usize,
        said: Option<u64>,
        taker: &mut T,
    ) -> Result<(), DemuxFault>
        requires fresh { (T.stops taker.old ≡ 0) × (T.starved taker.old ≡ 0) }
        ensures steps { Stepped result (stage_of self.new) (end_step (stage_of self.old) at i said (slice_get self.old.seen i)) (T.adds taker.old) (T.known taker.old) (T.known taker.new) (T.halted taker.new) }
        ensures same { T.adds taker.new ≡ T.adds taker.old }
        ensures fresh { OnOk result ((T.stops taker.new ≡ 0) × (T.starved taker.new ≡ 0)) }
        ensures stopped { IsErrOf result DemuxFault.Stopped → Rose (T.stops taker.old) (T.stops taker.new) }
        ensures starved { IsErrOf result DemuxFault.NoMemory → Rose (T.starved taker.old) (T.starved taker.new) }
    {
        self.mark_ended(at, i, said)?;
        match self.name_of(i) {
            None => Err(DemuxFault::Format(FormatFault::BadHeader { at })),
            Some(ns) => Ok(taker.end(ns)?),
        }
    }

    #[tactic(auto, unfolding(archive_format::specs::Archive::step_at))]
    fn document<T: DocTaker>(
        &mut self,
        at: u64,
        bytes: &[u8],
        taker: &mut T,
    ) -> Result<(), DemuxFault>
        requires fresh { (T.stops taker.old ≡ 0) × (T.starved taker.old ≡ 0) }
        ensures steps { Stepped result (stage_of self.new) (step (stage_of self.old) at (document bytes.now)) (T.adds taker.old) (T.known taker.old) (T.known taker.new) (T.halted taker.new) }
        ensures same { T.adds taker.new ≡ T.adds taker.old }
        ensures fresh { OnOk result ((T.stops taker.new ≡ 0) × (T.starved taker.new ≡ 0)) }
        ensures stopped { IsErrOf result DemuxFault.Stopped → Rose (T.stops taker.old) (T.stops taker.new) }
        ensures starved { IsErrOf result DemuxFault.NoMemory → Rose (T.starved taker.old) (T.starved taker.new) ⊎ Asks (stage_of self.old) (document bytes.now) }
    {
        match self.place {
            Place::Front => Err(DemuxFault::Format(FormatFault::BadMagic)),
            Place::Header => self.header(at, bytes),
            Place::Metas => self.metadata(at, bytes, taker),
            Place::Blocks => self.head(at, bytes),
            Place::Inside(i) => self.block_document(at, i, bytes, taker),
            Place::Ending(_, _) => Err(DemuxFault::Format(FormatFault::DocsInEnd { at })),
        }
    }

    #[tactic(auto, unfolding(archive_format::specs::Archive::step_at))]
    fn terminator<T: DocTaker>(&mut self, at: u64, taker: &mut T) -> Result<(), DemuxFault>
        requires fresh { (T.stops taker.old ≡ 0) × (T.starved taker.old ≡ 0) }
        ensures steps { Stepped result (stage_of self.new) (step (stage_of self.old) at terminator) (T.adds taker.old) (T.known taker.old) (T.known taker.new) (T.halted taker.new) }
        ensures same { T.adds taker.new ≡ T.adds taker.old }
        ensures fresh { OnOk result ((T.stops taker.new ≡ 0) × (T.starved taker.new ≡ 0)) }
        ensures stopped { IsErrOf result DemuxFault.Stopped → Rose (T.stops taker.old) (T.stops taker.new) }
        ensures starved { IsErrOf result DemuxFault.NoMemory → Rose (T.starved taker.old) (T.starved taker.new) }
    {
        match self.place {
            Place::Front => Err(DemuxFault::Format(FormatFault::BadMagic)),
            Place::Header => Err(DemuxFault::Format(FormatFault::BadPrelude { at })),
            Place::Metas => {
                self.place = Place::Blocks;
                Ok(())
            }
            Place::Blocks => Err(DemuxFault::Format(FormatFault::BadHeader { at })),
            Place::Inside(_) => {
                self.place = Place::Blocks;
                Ok(())
            }
            Place::Ending(i, said) => self.block_end(at, i, said, taker),
        }
    }

    // An item that is held whole.
    #[tactic(auto, unfolding(archive_format::specs::Archive::item_of))]
    fn whole<T: DocTaker>(
        &mut self,
        at: u64,
        word: &[u8],
        bytes: &[u8],
        taker: &mut T,
    ) -> Result<(), DemuxFault>
        requires fresh { (T.stops taker.old ≡ 0) × (T.starved taker.old ≡ 0) }
        ensures steps { Stepped result (stage_of self.new) (step (stage_of self.old) at (item_of word.now bytes.now)) (T.adds taker.old) (T.known taker.old) (T.known taker.new) (T.halted taker.new) }
        ensures same { T.adds taker.new ≡ T.adds taker.old }
        ensures fresh { OnOk result ((T.stops taker.new ≡ 0) × (T.starved taker.new ≡ 0)) }
        ensures stopped { IsErrOf result DemuxFault.Stopped → Rose (T.stops taker.old) (T.stops taker.new) }
        ensures starved { IsErrOf result DemuxFault.NoMemory → Rose (T.starved taker.old) (T.starved taker.new) ⊎ Asks (stage_of self.old) (item_of word.now bytes.now) }
    {
        if is_stop(word) {
            return self.terminator(at, taker);
        }
        if is_magic(word) {
            return Ok(self.magic(at)?);
        }
        self.document(at, bytes, taker)
    }

    /// The item at the front of what is held, if it is there whole. It is handed to the taker.
    #[tactic(auto, unfolding(archive_format::specs::Archive::next))]
    pub fn item<T: DocTaker>(
        &mut self,
        at: u64,
        held: &[u8],
        taker: &mut T,
    ) -> Result<Option<usize>, DemuxFault>
        requires fresh { (T.stops taker.old ≡ 0) × (T.starved taker.old ≡ 0) }
        ensures turned { Turned result (stage_of self.new) (next (stage_of self.old) at held.now) (T.adds taker.old) (T.known taker.old) (T.known taker.new) (stage_of self.old) (T.halted taker.new) }
        ensures same { T.adds taker.new ≡ T.adds taker.old }
        ensures fresh { OnOk result ((T.stops taker.new ≡ 0) × (T.starved taker.new ≡ 0)) }
        ensures stopped { IsErrOf result DemuxFault.Stopped → Rose (T.stops taker.old) (T.stops taker.new) }
        ensures starved { IsErrOf result DemuxFault.NoMemory → Rose (T.starved taker.old) (T.starved taker.new) ⊎ AsksFirst (stage_of self.old) held.now }
    {
        if held.len() < 4 {
            return Ok(None);
        }
        let word = &held[..4];
        if let Some(fault) = early(self.place, at, word) {
            return Err(DemuxFault::Format(fault));
        }
        let size = size_of(word);
        if held.len() < size {
            return Ok(None);
        }
        match self.whole(at, word, &held[..size], taker) {
            Ok(()) => Ok(Some(size)),
            Err(fault) => Err(fault),
        }
    }
}
