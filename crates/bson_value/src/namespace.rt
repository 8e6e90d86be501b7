//! Names of collections.
ghost use Rattle.std.specs.Prelude.{◌≡◌, List, ℕ, IfOk, IfSome, IfNone};
ghost use Rattle.std.specs.Prelude.{Some};
ghost use Rattle.std.proofs.Common.{refl, rules};
ghost use Rattle.std.specs.Cmp.Rules.{comparing};
ghost use Rattle.std.specs.Cmp.{partial_order_from_own_ties};
ghost use Rattle.bson_value.specs.Namespace.{IsSplit};
ghost use Rattle.bson_value.specs.NamespaceOrder.{namespace_cmp};

use byte_order::order;
use containers::Text;
use std::alloc::{AllocError, Global};
use std::cmp::Ordering;

/// A namespace: the name of a database, and that of a collection in it.
///
/// Namespaces are ordered by the bytes of the database, and then by those of the collection.
#[derive(Debug, Drop, PartialEq, Eq)]
pub struct NsName {
    pub db: Text,
    pub coll: Text,
}

impl NsName {
    /// The namespace that a text names, which is parted at its first dot. `None` exactly where it has
    /// no dot, or nothing stands before or behind the first one.
    pub fn split(alloc: Global, text: &str) -> Result<Option<NsName>, AllocError>
        ensures some { IfOk result (λ o. IfSome o (λ name. IsSplit text.now name.db name.coll)) }
        ensures none { IfOk result (λ o. IfNone o ((db coll : List ℕ) → IsSplit text.now db coll → ⊥)) }
    {
        let Some((db, coll)) = text.split_once('.') else {
            return Ok(None);
        };
        if db.is_empty() || coll.is_empty() {
            return Ok(None);
        }
        Ok(Some(NsName {
            db: Text::of(alloc, db)?,
            coll: Text::of(alloc, coll)?,
        }))
    }

    /// An equal name.
    pub fn copy(&self, alloc: Global) -> Result<NsName, AllocError>
        ensures { IfOk result (λ name. name ≡ self.now) }
    {
        Ok(NsName {
            db: self.db.copy(alloc)?,
            coll: self.coll.copy(alloc)?,
        })
    }
}

impl Ord for NsName {
    ghost cmp = { namespace_cmp };

    ghost total = { Prim.search (comparing, rules) };

    ghost matches_partial_cmp = { λ a b. refl };

    ghost matches_eq = { Prim.search (comparing, rules) };

    fn cmp(&self, other: &NsName) -> Ordering {
        let by_db = order(self.db.as_str().as_bytes(), other.db.as_str().as_bytes());
        if by_db != Ordering::Equal {
            return by_db;
        }
        order(
            self.coll.as_str().as_bytes(),
            other.coll.as_str().as_bytes(),
        )
    }
}

impl PartialOrd for NsName {
    ghost partial_cmp = { λ a b. Some (namespace_cmp a b) };

    ghost laws = { partial_order_from_own_ties (Prim.search (comparing, rules)) (Prim.search (comparing, rules)) };

    fn partial_cmp(&self, other: &NsName) -> Option<Ordering> {
        Some(self.cmp(other))
    }
}
