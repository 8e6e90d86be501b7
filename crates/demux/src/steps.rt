//! The steps of the grammar, one item at a time.
ghost use Rattle.std.specs.Prelude.{◌≡◌, ◌∷◌, [], true, Some, ◌<◌, length, is_some, None, IsErrOf, IfErr, IfSome, OnOk, slice_get, option_map};
ghost use Rattle.std.specs.Option.{option_copied};
ghost use Rattle.archive_format.specs.Shapes.{named};
ghost use Rattle.archive_format.specs.Archive.{Seen as Entry, goes, closed_entry, magic, document, step_at, sound, header_step, meta_step, head_step, doc_step, end_step, early, lengthy, size_of, number, is_stop, is_magic, meta_place, seat_of, opened, opened_entry, behind, header_in, metadata_in, head_in, fault_in, IsNew, doc, end};
ghost use Rattle.demux.specs.Steps.{stage_of, Passes, Quiet, Notes, Names};

use crate::documents::{checked, head, is_header, metadata};
use crate::fault::DemuxFault;
use crate::progress::Progress;
use archive_format::{FormatFault, MAGIC, Place, TERMINATOR, is_oplog};
use archive_prelude::Meta;
use bson_check::BsonKind;
use bson_value::NsName;

pub fn is_magic(word: &[u8]) -> bool
    ensures { result ≡ is_magic word.now }
{
    word == MAGIC.as_slice()
}

pub fn is_stop(word: &[u8]) -> bool
    ensures { result ≡ is_stop word.now }
{
    word == TERMINATOR.as_slice()
}

// The number that four bytes spell.
#[tactic(auto, unfolding(archive_format::specs::Archive::number))]
fn number(word: &[u8]) -> u32
    requires { length word.now ≡ 4 }
    ensures { result ≡ number word.now }
{
    u32::from_le_bytes([word[0], word[1], word[2], word[3]])
}

#[tactic(auto, unfolding(archive_format::specs::Archive::lengthy))]
fn lengthy(at: u64, count: u32) -> Option<FormatFault>
    ensures value { result ≡ lengthy at count }
{
    if count < 5 || 2147483647 < count {
        return Some(FormatFault::BadBson {
            at,
            kind: BsonKind::Length,
        });
    }
    if 16793600 < count {
        return Some(FormatFault::BadBson {
            at,
            kind: BsonKind::TooLong,
        });
    }
    None
}

/// The fault that the first four bytes show by themselves.
#[tactic(auto, unfolding(archive_format::specs::Archive::early))]
pub fn early(place: Place, at: u64, word: &[u8]) -> Option<FormatFault>
    requires { length word.now ≡ 4 }
    ensures value { result ≡ early place at word.now }
{
    match place {
        Place::Front => {
            if is_magic(word) {
                None
            } else {
                Some(FormatFault::BadMagic)
            }
        }
        Place::Header => {
            if is_stop(word) {
                Some(FormatFault::BadPrelude { at })
            } else {
                lengthy(at, number(word))
            }
        }
        Place::Blocks => {
            if is_stop(word) {
                Some(FormatFault::BadHeader { at })
            } else {
                lengthy(at, number(word))
            }
        }
        Place::Metas | Place::Inside(_) => {
            if is_stop(word) {
                None
            } else {
                lengthy(at, number(word))
            }
        }
        Place::Ending(_, _) => {
            if is_stop(word) {
                None
            } else {
                Some(FormatFault::DocsInEnd { at })
            }
        }
    }
}

#[tactic(auto, unfolding(archive_format::specs::Archive::size_of))]
pub fn size_of(word: &[u8]) -> usize
    requires { length word.now ≡ 4 }
    ensures { result ≡ size_of word.now }
{
    if is_stop(word) || is_magic(word) {
        return 4;
    }
    number(word) as usize
}

fn behind(eof: bool, crc: Option<i64>, i: usize) -> Place
    ensures { result ≡ behind eof crc i }
{
    if !eof {
        return Place::Inside(i);
    }
    match crc {
        None => Place::Ending(i, None),
        Some(z) => Place::Ending(i, Some(z.cast_unsigned())),
    }
}

impl Progress {
    #[tactic(auto, unfolding(archive_format::specs::Archive::step_at))]
    pub fn magic(&mut self, at: u64) -> Result<(), FormatFault>
        ensures { Passes result (stage_of self.new) (step_at self.old.place (stage_of self.old) at magic) }
    {
        match self.place {
            Place::Front => {
                self.place = Place::Header;
                Ok(())
            }
            Place::Ending(_, _) => Err(FormatFault::DocsInEnd { at }),
            _ => Err(FormatFault::BadBson {
                at,
                kind: BsonKind::Length,
            }),
        }
    }

    #[tactic(auto, unfolding(archive_format::specs::Archive::header_step))]
    pub fn header(&mut self, at: u64, bytes: &[u8]) -> Result<(), DemuxFault>
        ensures { Quiet result (stage_of self.new) (sound at (header_step (stage_of self.old) at (header_in bytes.now)) (fault_in bytes.now)) }
    {
        match is_header(self.alloc, at, bytes) {
            Err(fault) => Err(fault),
            Ok(false) => Err(DemuxFault::Format(FormatFault::BadPrelude { at })),
            Ok(true) => {
                self.place = Place::Metas;
                Ok(())
            }
        }
    }

    /// The namespace and the text that are to be handed out.
    #[tactic(auto, unfolding(archive_format::specs::Archive::meta_step))]
    pub fn note_metadata(&mut self, at: u64, bytes: &[u8]) -> Result<Option<Meta>, DemuxFault>
        ensures { Notes result (stage_of self.new) (sound at (meta_step (stage_of self.old) at (metadata_in bytes.now)) (fault_in bytes.now)) }
    {
        match metadata(self.alloc, at, bytes) {
            Err(fault) => Err(fault),
            Ok(None) => Err(DemuxFault::Format(FormatFault::BadPrelude { at })),
            Ok(Some(meta)) => {
                if is_oplog(&meta.ns) {
                    return Ok(None);
                }
                if self.metas.contains(&meta.ns) {
                    return Err(DemuxFault::Format(FormatFault::BadPrelude { at }));
                }
                self.metas.push(&meta.ns)?;
                Ok(Some(meta))
            }
        }
    }

    #[tactic(auto, unfolding(archive_format::specs::Archive::head_step))]
    pub fn head(&mut self, at: u64, bytes: &[u8]) -> Result<(), DemuxFault>
        ensures steps { Quiet result (stage_of self.new) (sound at (head_step (stage_of self.old) at (head_in bytes.now)) (fault_in bytes.now)) }
        ensures starved { IsErrOf result DemuxFault.NoMemory → IsNew (stage_of self.old) (head_in bytes.now) }
    {
        match head(at, bytes) {
            Err(fault) => Err(DemuxFault::Format(fault)),
            Ok(None) => Err(DemuxFault::Format(FormatFault::BadHeader { at })),
            Ok(Some(head)) => match self.seen.seat_of(head.db, head.coll) {
                None => self.new_seat(head.db, head.coll, head.eof, head.crc),
                Some(i) => Ok(self.old_seat(at, i, behind(head.eof, head.crc, i))?),
            },
        }
    }

    fn new_seat(
        &mut self,
        db: &str,
        coll: &str,
        eof: bool,
        crc: Option<i64>,
    ) -> Result<(), DemuxFault>
        requires { seat_of (named db.now coll.now) self.old.seen ≡ None }
        ensures { Quiet result (stage_of self.new) (opened (stage_of self.old) 0 (record { ns = named db.now coll.now; eof = eof; crc = crc }) None) }
    {
        let i = self.seen.len();
        self.seen.push(db, coll)?;
        self.place = behind(eof, crc, i);
        Ok(())
    }

    fn old_seat(&mut self, at: u64, i: usize, next: Place) -> Result<(), FormatFault>
        ensures { Passes result (stage_of self.new) (opened_entry (stage_of self.old) at next (slice_get self.old.seen i)) }
    {
        match self.seen.get(i) {
            None => Err(FormatFault::BadHeader { at }),
            Some(entry) if entry.has_ended() => Err(FormatFault::AfterEnd {
                ns: self.seen.take_name(i),
                at,
            }),
            Some(_) => {
                self.place = next;
                Ok(())
            }
        }
    }

    #[tactic(auto, unfolding(archive_format::specs::Archive::doc_step))]
    pub fn add_document(&mut self, at: u64, i: usize, bytes: &[u8]) -> Result<(), FormatFault>
        ensures names { Names result (stage_of self.new) (sound at (doc_step (stage_of self.old) at i bytes.now (slice_get self.old.seen i)) (fault_in bytes.now)) i (λ n. doc n bytes.now) }
        ensures document { OnOk result (fault_in bytes.now ≡ None) }
    {
        match checked(at, bytes) {
            Err(fault) => Err(fault),
            Ok(()) => {
                if self.seen.len() <= i {
                    return Err(FormatFault::BadHeader { at });
                }
                self.seen.add(i, bytes);
                Ok(())
            }
        }
    }

    fn close(&mut self, i: usize)
        requires { i < length self.old.seen }
        ensures { (e : Entry) → slice_get self.old.seen i ≡ Some e → (closed_entry (stage_of self.old) i e ≡ goes (stage_of self.new) (end e.ns ∷ [])) × (slice_get self.new.seen i ≡ Some (record e { ended = true })) }
    {
        self.seen.end(i);
        self.place = Place::Blocks;
    }

    #[tactic(auto, unfolding(archive_format::specs::Archive::end_step))]
    pub fn mark_ended(&mut self, at: u64, i: usize, said: Option<u64>) -> Result<(), FormatFault>
        ensures { Names result (stage_of self.new) (end_step (stage_of self.old) at i said (slice_get self.old.seen i)) i (λ n. end n) }
    {
        let Some(entry) = self.seen.get(i) else {
            return Err(FormatFault::BadHeader { at });
        };
        let found = entry.sum();
        match said {
            Some(said) if said != found => Err(FormatFault::Crc {
                ns: self.seen.take_name(i),
                said,
                found,
            }),
            Some(_) => {
                self.close(i);
                Ok(())
            }
            None => {
                self.close(i);
                Ok(())
            }
        }
    }

    /// The name of the namespace with this number.
    pub fn name_of(&self, i: usize) -> Option<&NsName>
        ensures { option_copied result ≡ option_map (λ e. e.ns) (slice_get self.now.seen i) }
    {
        self.seen.get(i).map(|e| e.ns())
    }
}
