//! That documents are well-formed, spelled or built, which their types keep.
ghost use Rattle.bson_value.specs.WellFormed.{AreBytes, IsWellFormedDocument};
ghost use Rattle.bson_view.specs.Held.{held_document};
ghost use Rattle.bson_view.specs.Views.{document};

use bson_view::{Held, View};

// Does nothing. Its caller learns that a byte has eight bits.
fn are_bytes(bytes: &[u8])
    ensures { AreBytes bytes.now }
{}

#[tactic(auto, using(crate::proofs::Spelled::spelled_formed))]
fn view_is_well_formed(view: View<'_>)
    ensures { IsWellFormedDocument (document view.entry) }
{
    are_bytes(view.bytes());
}

/// Does nothing, in time linear in the number of values where the document was built. Its caller learns
/// that the document is well-formed, which `one_text` asks of it.
pub fn held_is_well_formed(doc: Held<'_>)
    ensures { IsWellFormedDocument (held_document doc.entry) }
{
    match doc {
        Held::Spelled(view) => view_is_well_formed(view),
        Held::Built(doc) => doc.is_well_formed(),
    }
}
