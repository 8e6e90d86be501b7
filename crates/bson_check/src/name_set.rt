//! A set of the names that a walk has passed, with a few bits for each name.
ghost use Rattle.std.specs.Prelude.{◌≡◌, ◌≤◌, [], ◌∷◌, ◌++◌, length, List, ℕ};
ghost use Rattle.bson_check.specs.Passing.{Path, repeat_at};
ghost use Rattle.bson_check.specs.NameSet.{Holds, outline};
ghost use Rattle.bson_check.specs.Slots.{slot_of};

use crate::repeats::first_repeat;
use crate::slots::{FACTOR, mixed, put_slot};

/// The names that a walk has passed, each by three bits of one of four words. Of a document of ten names the set
/// nearly always tells that none stands twice, and then they needn't be walked once more.
#[derive(Drop)]
pub struct NameSet {
    words: [u64; 4],
    may_repeat: bool,
}

// The slot of four bytes that tell most names apart.
#[tactic(auto, unfolding(crate::specs::Slots::slot_of))]
fn outline_slot(name: &[u8]) -> u64
    ensures { result ≡ slot_of 11400714819323198485 (outline name.now) }
{
    if name.is_empty() {
        return 0;
    }
    let first = mixed(FACTOR, 0, name[0]);
    let middle = mixed(FACTOR, first, name[name.len() / 2]);
    let last = mixed(FACTOR, middle, name[name.len() - 1]);
    mixed(FACTOR, last, (name.len() % 256) as u8)
}

impl NameSet {
    /// The set without a name.
    #[tactic(auto, unfolding(crate::specs::NameSet::Holds))]
    pub fn new() -> NameSet
        ensures { Holds result [] }
    {
        NameSet {
            words: [0; 4],
            may_repeat: false,
        }
    }

    /// Puts the next name of the walk into the set.
    #[tactic(auto, unfolding(crate::specs::NameSet::Holds))]
    pub fn insert(&mut self, name: &[u8])
        ensures { (ns : List (List ℕ)) → Holds self.old ns → Holds self.new (ns ++ name.now ∷ []) }
    {
        if !self.may_repeat {
            self.may_repeat = put_slot(outline_slot(name), &mut self.words);
        }
    }

    /// The first name of the whole body that stands before it too, by its place, where the set holds the names of the body. They are walked once more only where one may stand twice.
    #[tactic(auto, unfolding(crate::specs::NameSet::Holds))]
    pub fn first_repeat(&self, end: usize, body: &[u8]) -> Option<usize>
        requires { length body.now ≤ end }
        ensures { (ns : List (List ℕ)) → Holds self.now ns → (to : List ℕ) → Path ns body.now to → length to ≡ 0 → repeat_at end [] ns body.now ≡ result }
    {
        if self.may_repeat {
            first_repeat(end, body, 0)
        } else {
            None
        }
    }
}
