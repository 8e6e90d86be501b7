//! A set of texts of which none begins with another.
ghost use Rattle.std.specs.Prelude.{◌≡◌, ◌||◌, ℕ, List, [], Bool, not, false, IfOk, IfSome, IfNone, OnOk, OnErr, if◌then◌else◌};
ghost use Rattle.std.specs.List.{list_any};
ghost use Rattle.std.specs.Ordering.{nat_cmp};
ghost use Rattle.std.specs.Cmp.Lexicographic.{slice_cmp};
ghost use Rattle.std.specs.BTreeSet.{insert_key};
ghost use Rattle.update_ops.specs.Prefixes.{starts, clash, has_front, IsBehind};

use bson_value::Bytes;
use std::alloc::{AllocError, Global};
use std::collections::BTreeSet;
use std::marker::Model;

/// Texts of which none begins with another, in their order.
#[derive(Drop)]
pub struct PrefixSet {
    texts: BTreeSet<Bytes>,
}

impl Model for PrefixSet {
    ghost use Rattle.std.specs.Prelude.{List, ℕ};
    ghost use Rattle.std.specs.Coded.{coded_list, coded_ℕ};
    ghost use Rattle.update_ops.specs.Prefixes.{IsPrefixFree};

    ghost Value = { List (List ℕ) };

    ghost coded = { coded_list (coded_list coded_ℕ) };

    ghost view = { λ s. s.texts.keys };

    ghost invariant = { λ s. IsPrefixFree s.texts.keys };
}

impl PrefixSet {
    pub fn new(alloc: Global) -> PrefixSet
        ensures { result ≡ [] }
    {
        PrefixSet {
            texts: BTreeSet::new(alloc),
        }
    }

    // Whether a text begins with this one: the first that isn't below it does, if any does.
    fn goes_on(&self, text: &Bytes) -> bool
        ensures { result ≡ list_any (starts text.now) self.now }
    {
        match self.texts.range(text..).next() {
            Some(next) => next.as_slice().starts_with(text.as_slice()),
            None => false,
        }
    }

    // Whether this text begins with one: the last that isn't above it is that one, if any is.
    pub fn has_front(&self, text: &Bytes) -> bool
        ensures { result ≡ has_front self.now text.now }
    {
        match self.texts.range(..=text).next_back() {
            Some(front) => text.as_slice().starts_with(front.as_slice()),
            None => false,
        }
    }

    /// Puts the text in, unless it begins with one of the others, or one of them with it. Whether it did.
    pub fn claim(&mut self, text: Bytes) -> Result<bool, AllocError>
        ensures answer { IfOk result (λ put. put ≡ not (list_any (clash text) self.old)) }
        ensures set { IfOk result (λ put. self.new ≡ (if put then insert_key (slice_cmp nat_cmp) self.old text else self.old)) }
        ensures err { OnErr result (self.new ≡ self.old) }
    {
        if self.goes_on(&text) || self.has_front(&text) {
            return Ok(false);
        }
        let _ = self.texts.insert(text)?;
        Ok(true)
    }

    // The first text that begins with this one.
    fn next_behind(&self, alloc: Global, text: &Bytes) -> Result<Option<Bytes>, AllocError>
        ensures some { IfOk result (λ o. IfSome o (λ next. IsBehind text.now next self.now)) }
        ensures none { IfOk result (λ o. IfNone o (list_any (starts text.now) self.now ≡ false)) }
    {
        if !self.goes_on(text) {
            return Ok(None);
        }
        match self.texts.range(text..).next() {
            Some(next) => Ok(Some(next.copy(alloc)?)),
            None => Ok(None),
        }
    }

    // Takes out the texts that begin with this one.
    fn drop_behind(&mut self, alloc: Global, text: &Bytes) -> Result<(), AllocError>
        ensures none { OnOk result (list_any (starts text.now) self.new ≡ false) }
        ensures fewer { OnOk result ((p : List ℕ → Bool) → list_any p self.old ≡ false → list_any p self.new ≡ false) }
        ensures covers { OnOk result ((t : List ℕ) → starts text.now t || has_front self.new t ≡ starts text.now t || has_front self.old t) }
    {
        'behind: while let Some(next) = self.next_behind(alloc, text)? {
            let _ = self.texts.remove(&next);
        }
        Ok(())
    }

    /// Puts the text in, so that it and what is there already are the fronts. Those that begin with it
    /// are taken out, and where one of the others is its front nothing changes.
    pub fn cover(&mut self, alloc: Global, text: Bytes) -> Result<(), AllocError>
        ensures { OnOk result ((t : List ℕ) → has_front self.new t ≡ starts text t || has_front self.old t) }
    {
        if self.has_front(&text) {
            return Ok(());
        }
        self.drop_behind(alloc, &text)?;
        let _ = self.texts.insert(text)?;
        Ok(())
    }
}
