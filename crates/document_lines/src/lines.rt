//! The line of a document.
ghost use Rattle.std.specs.Prelude.{◌≡◌, ◌++◌, IfOk, OnOk};
ghost use Rattle.bson_view.specs.Views.{document};
ghost use Rattle.bson_view.specs.Held.{held_document};
ghost use Rattle.document_lines.specs.declared.form.ListForm.TheVariants.{Hex};
ghost use Rattle.document_lines.specs.Lines.{document_line, in_order, shown};

use crate::digits::put_hex;
use crate::form::ListForm;
use crate::json::put_json;
use crate::plain::is_in_order;
use crate::spelling::put_ordered;
use bson_encode::encode_into;
use bson_value::{Doc, Value};
use bson_view::{Held, View};
use extjson::tree_of;
use json_text::print;
use std::alloc::{AllocError, Global};

/// Makes lines of documents, one after the other, in memory that it keeps.
///
/// A document that is spelled is listed from its bytes: it takes time linear in them, but for the sorting of the fields of each
/// level, and memory for its line, in hexadecimal for its bytes once more where they aren't seen to lie in order, and for each
/// level a list of its elements. A document that is built is copied.
#[derive(Drop)]
pub struct Lines {
    alloc: Global,
    spelling: Vec<u8>,
    line: Vec<u8>,
}

impl Lines {
    pub fn new(alloc: Global) -> Lines {
        Lines {
            alloc,
            spelling: Vec::new(alloc),
            line: Vec::new(alloc),
        }
    }

    // A document that lies as it is spelled in order is listed from where it lies.
    fn put_hexadecimal(&mut self, view: &View<'_>) -> Result<(), AllocError>
        ensures { OnOk result (self.new.line.items ≡ self.old.line.items ++ shown Hex (in_order (document view.now))) }
    {
        if is_in_order(view) {
            return put_hex(&mut self.line, view.bytes());
        }
        self.spelling.clear();
        put_ordered(self.alloc, &mut self.spelling, view)?;
        put_hex(&mut self.line, self.spelling.as_slice())
    }

    fn put_spelled(&mut self, view: &View<'_>, form: ListForm) -> Result<(), AllocError>
        ensures { OnOk result (self.new.line.items ≡ self.old.line.items ++ shown form (in_order (document view.now))) }
    {
        match form {
            ListForm::Hex => self.put_hexadecimal(view),
            ListForm::Json => put_json(self.alloc, &mut self.line, view),
        }
    }

    fn put_built(&mut self, doc: &Doc, form: ListForm) -> Result<(), AllocError>
        ensures { OnOk result (self.new.line.items ≡ self.old.line.items ++ shown form (in_order doc.now)) }
    {
        let doc = doc.copy(self.alloc)?.into_ordered();
        match form {
            ListForm::Hex => {
                self.spelling.clear();
                encode_into(&mut self.spelling, &doc)?;
                put_hex(&mut self.line, self.spelling.as_slice())
            }
            ListForm::Json => {
                let tree = tree_of(self.alloc, &Value::Object(doc))?;
                let text = print(self.alloc, &tree)?;
                self.line.extend_from_slice(text.as_str().as_bytes())
            }
        }
    }

    /// The line of the document. On want of memory nothing is lent.
    pub fn line(&mut self, document: Held<'_>, form: ListForm) -> Result<&[u8], AllocError>
        ensures { IfOk result (λ text. text.now ≡ document_line form (held_document document.entry)) }
    {
        self.line.clear();
        self.line.extend_from_slice(b"doc ")?;
        match document {
            Held::Spelled(view) => self.put_spelled(&view, form)?,
            Held::Built(doc) => self.put_built(doc, form)?,
        }
        self.line.push(10)?;
        Ok(self.line.as_slice())
    }
}
