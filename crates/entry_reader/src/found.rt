//! The elements that say which entry a document is.
ghost use Rattle.bson_view.specs.Views.{document};

use bson_view::{Elem, View};

/// The elements of a document that say which entry it is, the first of each name.
#[derive(Clone, Copy)]
pub(crate) struct Found<'a> {
    pub(crate) ts: Option<Elem<'a>>,
    pub(crate) ns: Option<Elem<'a>>,
    pub(crate) op: Option<Elem<'a>>,
    pub(crate) o: Option<Elem<'a>>,
    pub(crate) o2: Option<Elem<'a>>,
}

impl<'a> Found<'a> {
    ghost use Rattle.entry_reader.specs.Found.{AreFound, IsAdded, IsNothing};

    fn none() -> Found<'a>
        ensures { IsNothing result }
    {
        Found {
            ts: None,
            ns: None,
            op: None,
            o: None,
            o2: None,
        }
    }

    // Takes the element, where it is the first of one of the names.
    fn add(&mut self, elem: Elem<'a>)
        ensures { IsAdded elem.entry self.old self.new }
    {
        match elem.name {
            [b't', b's'] => self.ts = self.ts.or(Some(elem)),
            [b'n', b's'] => self.ns = self.ns.or(Some(elem)),
            [b'o', b'p'] => self.op = self.op.or(Some(elem)),
            [b'o'] => self.o = self.o.or(Some(elem)),
            [b'o', b'2'] => self.o2 = self.o2.or(Some(elem)),
            _ => {}
        }
    }

    /// Those of this document, in one walk over its elements.
    pub(crate) fn of(view: &View<'a>) -> Found<'a>
        ensures { AreFound result (document view.now) }
    {
        let mut found = Found::none();
        for elem in view.elements() {
            found.add(elem);
        }
        found
    }
}
