//! The namespaces of the metadata.
ghost use Rattle.std.specs.Prelude.{◌≡◌, ◌∷◌, [], ◌++◌, None, OnOk, is_some};
ghost use Rattle.archive_format.specs.Archive.{meta_place};

use crate::index::Index;
use bson_value::NsName;
use std::alloc::{AllocError, Global};
use std::marker::Model;

/// They stand in order of the metadata, and are found by their names.
#[derive(Drop)]
pub struct Metas {
    alloc: Global,
    names: Vec<NsName>,
    index: Index,
}

impl Model for Metas {
    ghost use Rattle.std.specs.Prelude.{List};
    ghost use Rattle.bson_value.specs.declared.namespace.NsName.{NsName};
    ghost use Rattle.demux.specs.Names.{FindsMetas};

    ghost Value = { List NsName };

    ghost view = { λ s. s.names.items };

    ghost invariant = { λ s. FindsMetas s.index.databases s.names.items };
}

impl Metas {
    pub fn new(alloc: Global) -> Metas
        ensures { result ≡ [] }
    {
        Metas {
            alloc,
            names: Vec::new(alloc),
            index: Index::new(alloc),
        }
    }

    pub fn contains(&self, ns: &NsName) -> bool
        ensures { result ≡ is_some (meta_place ns.now self.now) }
    {
        self.index.place(ns.db.as_str(), ns.coll.as_str()).is_some()
    }

    /// One that is new comes last.
    pub fn push(&mut self, ns: &NsName) -> Result<(), AllocError>
        requires { meta_place ns.now self.old ≡ None }
        ensures { OnOk result (self.new ≡ self.old ++ ns.now ∷ []) }
    {
        let i = self.names.len();
        self.names.push(ns.copy(self.alloc)?)?;
        match self
            .index
            .insert(self.alloc, ns.db.as_str(), ns.coll.as_str(), i)
        {
            Ok(()) => Ok(()),
            Err(AllocError) => {
                self.names.truncate(i);
                Err(AllocError)
            }
        }
    }
}
