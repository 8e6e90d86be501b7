//! Names of namespaces.
ghost use Rattle.std.specs.Prelude.{◌≡◌};
ghost use Rattle.archive_format.specs.Shapes.{named, is_namespace, is_oplog};

use bson_value::NsName;

/// Whether these are the names of a namespace: a database without a dot and a collection, neither of them empty; or no
/// database and the collection "oplog".
#[tactic(auto, unfolding(crate::specs::Shapes::is_namespace))]
pub fn is_namespace(db: &str, coll: &str) -> bool
    ensures { result ≡ is_namespace (named db.now coll.now) }
{
    (db == "" && coll == "oplog") || (db != "" && !db.as_bytes().contains(&b'.') && coll != "")
}

/// Whether this is the oplog: no database, and the collection "oplog".
pub fn is_oplog(ns: &NsName) -> bool
    ensures { result ≡ is_oplog ns.now }
{
    ns.db.as_str() == "" && ns.coll.as_str() == "oplog"
}
