//! Strings of which short ones lie in the value itself.
ghost use Rattle.std.specs.Prelude.{◌≡◌, ◌++◌, [], length, IfOk, OnOk, OnErr, encode_utf8, string_bytes};

use crate::inline::{INLINE_BYTES, InlineString};
use std::alloc::{AllocError, Global};
use std::marker::Model;

#[derive(Drop)]
enum Storage {
    Inline(Global, InlineString),
    Heap(Box<String>),
}

/// A string in UTF-8. One of at most 22 bytes takes no memory of its own.
#[derive(Drop)]
pub(crate) struct SmallString {
    storage: Storage,
}

impl Model for SmallString {
    ghost use Rattle.std.specs.Prelude.{List, ℕ};
    ghost use Rattle.containers.specs.Small.{stored_bytes};

    ghost Value = { List ℕ };

    ghost view = { λ s. stored_bytes s.storage };
}

impl SmallString {
    pub(crate) fn new(alloc: Global) -> SmallString
        ensures { result ≡ [] }
    {
        SmallString {
            storage: Storage::Inline(alloc, InlineString::of("")),
        }
    }

    fn boxed(alloc: Global, text: String) -> Result<SmallString, AllocError>
        ensures { IfOk result (λ s. s ≡ string_bytes text) }
    {
        Ok(SmallString {
            storage: Storage::Heap(Box::new(alloc, text)?),
        })
    }

    /// A copy of the text.
    pub(crate) fn of(alloc: Global, text: &str) -> Result<SmallString, AllocError>
        ensures { IfOk result (λ s. s ≡ text.now) }
    {
        if text.len() <= INLINE_BYTES {
            return Ok(SmallString {
                storage: Storage::Inline(alloc, InlineString::of(text)),
            });
        }
        SmallString::boxed(alloc, String::from_str(alloc, text)?)
    }

    /// The string. A long one stays in its own memory.
    pub(crate) fn from_string(alloc: Global, text: String) -> Result<SmallString, AllocError>
        ensures { IfOk result (λ s. s ≡ string_bytes text) }
    {
        if text.len() <= INLINE_BYTES {
            return SmallString::of(alloc, text.as_str());
        }
        SmallString::boxed(alloc, text)
    }

    /// The string, in its own memory where it is a long one.
    pub(crate) fn into_string(self) -> Result<String, AllocError>
        ensures { IfOk result (λ text. string_bytes text ≡ self) }
    {
        match self.storage {
            Storage::Inline(alloc, text) => String::from_str(alloc, text.as_str()),
            Storage::Heap(text) => Ok(Box::into_inner(text)),
        }
    }

    pub(crate) fn as_str(&self) -> &str
        ensures { result.now ≡ self.now }
    {
        match &self.storage {
            Storage::Inline(_, text) => text.as_str(),
            Storage::Heap(text) => text.as_str(),
        }
    }

    pub(crate) fn push_str(&mut self, more: &str) -> Result<(), AllocError>
        ensures ok { OnOk result (self.new ≡ self.old ++ more.now) }
        ensures err { OnErr result (self.new ≡ self.old) }
    {
        match &mut self.storage {
            Storage::Heap(text) => text.push_str(more),
            Storage::Inline(alloc, text) => {
                if text.as_str().len() + more.len() <= INLINE_BYTES {
                    let joined = InlineString::joined(text.as_str(), more);
                    *text = joined;
                    return Ok(());
                }
                let mut whole = String::from_str(*alloc, text.as_str())?;
                whole.push_str(more)?;
                *self = SmallString::boxed(*alloc, whole)?;
                Ok(())
            }
        }
    }

    pub(crate) fn push(&mut self, c: char) -> Result<(), AllocError>
        ensures ok { OnOk result (self.new ≡ self.old ++ encode_utf8 c) }
        ensures err { OnErr result (self.new ≡ self.old) }
    {
        let mut buffer = [0; 4];
        self.push_str(c.encode_utf8(&mut buffer))
    }
}
