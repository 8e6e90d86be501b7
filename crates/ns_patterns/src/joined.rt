//! Bytes in parts, searched as if they stood in one.
ghost use Rattle.std.specs.Prelude.{◌≡◌, ◌≢◌, [], ◌∷◌, ◌++◌, List, ℕ, IsTrue, MatchOption, ◌↔◌};
ghost use Rattle.ns_patterns.specs.Search.{whole, IsFirst};

/// Bytes that follow each other in three parts.
#[derive(Clone, Copy)]
pub struct Joined<'a> {
    pub front: &'a [u8],
    pub middle: &'a [u8],
    pub back: &'a [u8],
}

impl<'a> Joined<'a> {
    // The first byte, and what follows it.
    fn split_first(self) -> Option<(u8, Joined<'a>)>
        ensures { MatchOption result (whole self.entry ≡ []) (λ x. whole self.entry ≡ x.0 ∷ whole x.1) }
    {
        if let Some((byte, front)) = self.front.split_first() {
            return Some((*byte, Joined { front, ..self }));
        }
        if let Some((byte, middle)) = self.middle.split_first() {
            return Some((*byte, Joined { middle, ..self }));
        }
        let (byte, back) = self.back.split_first()?;
        Some((*byte, Joined { back, ..self }))
    }

    pub fn is_empty(self) -> bool
        ensures { IsTrue result ↔ (whole self.entry ≡ []) }
    {
        self.split_first().is_none()
    }

    /// What follows this text, where it stands first.
    pub fn strip_prefix(self, text: &[u8]) -> Option<Joined<'a>>
        ensures { MatchOption result ((rest : List ℕ) → whole self.entry ≢ text.now ++ rest) (λ after. whole self.entry ≡ text.now ++ whole after) }
    {
        let mut rest = self;
        'bytes: for byte in text {
            let Some((first, next)) = rest.split_first() else {
                return None;
            };
            if first != *byte {
                return None;
            }
            rest = next;
        }
        Some(rest)
    }

    /// What follows the first place of this text.
    pub fn behind_first(self, text: &[u8]) -> Option<Joined<'a>>
        ensures { MatchOption result ((t rest : List ℕ) → whole self.entry ≢ t ++ (text.now ++ rest)) (λ after. (t : List ℕ) × IsFirst text.now (whole self.entry) t (whole after)) }
    {
        let mut rest = self;
        'places: loop {
            if let Some(after) = rest.strip_prefix(text) {
                return Some(after);
            }
            let Some((_, next)) = rest.split_first() else {
                return None;
            };
            rest = next;
        }
    }

    // The same, sought from the front.
    fn ends_behind(self, text: &[u8]) -> bool
        ensures { IsTrue result ↔ ((t : List ℕ) × (whole self.entry ≡ t ++ text.now)) }
    {
        let mut rest = self;
        'places: loop {
            if let Some(after) = rest.strip_prefix(text) {
                if after.is_empty() {
                    return true;
                }
            }
            let Some((_, next)) = rest.split_first() else {
                return false;
            };
            rest = next;
        }
    }

    /// Whether this text stands last.
    #[tactic(auto, using(crate::proofs::Search::empty_last))]
    pub fn ends_with(self, text: &[u8]) -> bool
        ensures { IsTrue result ↔ ((t : List ℕ) × (whole self.entry ≡ t ++ text.now)) }
    {
        match text {
            [] => true,
            _ => self.ends_behind(text),
        }
    }
}
