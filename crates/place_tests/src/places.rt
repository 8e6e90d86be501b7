//! Worked paths and places.
use bson_value::{BoxedText, CText, Doc, List, Value};
use doc_path::{
    Change, Form, Part, Path, PathFault, Place, at, change_document, resize, set, unset,
};
use std::alloc::Global;
use std::test::Fail;

// A text, and why it is no path.
const PATHS: [(&str, Option<PathFault>); 10] = [
    ("a", None),
    ("a.0.b$", None),
    ("", Some(PathFault::Empty)),
    ("a..b", Some(PathFault::EmptyPart)),
    (".", Some(PathFault::EmptyPart)),
    ("a.", Some(PathFault::EmptyPart)),
    ("a.$x", Some(PathFault::Dollar)),
    ("a\0", Some(PathFault::Zero)),
    ("a.$\0", Some(PathFault::Dollar)),
    ("a\0.$", Some(PathFault::Zero)),
];

#[test]
fn path_refusals(rt: HostRuntime) -> Result<(), Fail> {
    for (text, fault) in PATHS {
        match Path::read(rt.alloc(), text) {
            Ok(path) => {
                assert!(rt; fault.is_none());
                assert!(rt; !path.names().is_empty());
            }
            Err(e) => assert_eq!(rt; Some(e), fault),
        }
    }
    Ok(())
}

fn name(alloc: Global, text: &str) -> Result<CText, Fail> {
    let mut name = CText::new(alloc);
    for c in text.chars() {
        if c != '\0' {
            name.push(c)?;
        }
    }
    Ok(name)
}

// A part, of which an index is written with a number sign in front.
fn part(alloc: Global, text: &str) -> Result<Part, Fail> {
    match text.strip_prefix('#') {
        Some(digits) => Ok(Part::Index(digits.parse::<u32>().unwrap_or(0))),
        None => Ok(Part::Name(name(alloc, text)?)),
    }
}

// A place, with dots between its parts.
fn place(alloc: Global, text: &str) -> Result<Place, Fail> {
    let mut parts = text.split('.');
    let mut place = Place::new(alloc, part(alloc, parts.next().unwrap_or(""))?)?;
    for text in parts {
        place.push(part(alloc, text)?)?;
    }
    Ok(place)
}

// A document of one field.
fn one(alloc: Global, text: &str, value: Value) -> Result<Doc, Fail> {
    let mut doc = Doc::new(alloc);
    doc.set(name(alloc, text)?, value)?;
    Ok(doc)
}

// {o: {b: 1}, a: [7, {c: 2}], s: a code with the scope {b: 3}}
fn worked(alloc: Global) -> Result<Doc, Fail> {
    let mut items = List::new(alloc);
    items.push(Value::Int(7))?;
    items.push(Value::Object(one(alloc, "c", Value::Int(2))?))?;
    let mut doc = one(alloc, "a", Value::Array(items))?;
    let inner = one(alloc, "b", Value::Int(1))?;
    doc.set(name(alloc, "o")?, Value::Object(inner))?;
    let scope = one(alloc, "b", Value::Int(3))?;
    let code = BoxedText::of(alloc, "")?;
    doc.set(name(alloc, "s")?, Value::ScopedCode { code, scope })?;
    Ok(doc)
}

// The number at the place; or -1 for another value, and none where nothing is there.
fn number(doc: &Doc, place: &Place) -> Option<i32> {
    match at(doc, place)? {
        Value::Int(n) => Some(*n),
        _ => Some(-1),
    }
}

// Places of the worked document, and what stands there.
const PLACES: [(&str, Option<i32>); 13] = [
    ("o", Some(-1)),
    ("o.b", Some(1)),
    ("o.c", None),
    ("o.b.c", None),
    ("o.#0", None),
    ("#0", None),
    ("a.#0", Some(7)),
    ("a.#1", Some(-1)),
    ("a.#1.c", Some(2)),
    ("a.#2", None),
    ("a.0", None),
    ("s", Some(-1)),
    ("s.b", None),
];

#[test]
fn values_at_places(rt: HostRuntime) -> Result<(), Fail> {
    let doc = worked(rt.alloc())?;
    for (text, value) in PLACES {
        assert_eq!(rt; number(&doc, &place(rt.alloc(), text)?), value);
    }
    Ok(())
}

// A place of the worked document that is unset, whether it was there, and what stands there then.
const UNSET: [(&str, bool, Option<i32>); 5] = [
    ("o.b", true, None),
    ("o.c", false, None),
    ("a.#0", true, Some(-1)),
    ("a.#2", false, None),
    ("s.b", false, None),
];

#[test]
fn values_that_are_unset(rt: HostRuntime) -> Result<(), Fail> {
    for (text, there, after) in UNSET {
        let mut doc = worked(rt.alloc())?;
        let at = place(rt.alloc(), text)?;
        assert_eq!(rt; unset(&mut doc, &at), there);
        assert_eq!(rt; number(&doc, &at), after);
        assert_eq!(rt; number(&doc, &place(rt.alloc(), "a.#1.c")?), Some(2));
    }
    Ok(())
}

#[test]
fn sets_and_resizes(rt: HostRuntime) -> Result<(), Fail> {
    let alloc = rt.alloc();
    let mut doc = Doc::new(alloc);
    let field = Place::new(alloc, Part::Name(name(alloc, "a")?))?;
    set(&mut doc, &field, Value::Array(List::new(alloc)))?;
    resize(&mut doc, &field, 2)?;
    assert_eq!(rt; number(&doc, &place(alloc, "a.#1")?), Some(-1));
    assert_eq!(rt; number(&doc, &place(alloc, "a.#2")?), None);
    Ok(())
}

// A place of the worked document at which 5 is set in each form, and what stands there then.
const PLAYED: [(&str, Option<i32>, Option<i32>); 8] = [
    ("o.b", Some(5), Some(5)),
    ("n", Some(5), Some(5)),
    ("n.b", Some(5), None),
    ("a.#0", Some(5), Some(5)),
    ("a.#4", Some(5), Some(5)),
    ("a.#2097152", None, None),
    ("o.b.c", None, None),
    ("s.b", None, None),
];

#[test]
fn changes_in_both_forms(rt: HostRuntime) -> Result<(), Fail> {
    let alloc = rt.alloc();
    for (text, first, second) in PLAYED {
        for (form, after) in [(Form::V1, first), (Form::V2, second)] {
            let mut doc = worked(alloc)?;
            let at = place(alloc, text)?;
            if let Some((last, way)) = at.parts().as_slice().split_last() {
                let five = Change::Put(Value::Int(5));
                change_document(&mut doc, form, way, last, five)?;
            }
            assert_eq!(rt; number(&doc, &at), after);
        }
    }
    Ok(())
}

// Two places, whether they are one, and whether the first is above the second.
const PAIRS: [(&str, &str, bool, bool); 8] = [
    ("a", "a", true, false),
    ("a", "b", false, false),
    ("a", "a.b", false, true),
    ("a.b", "a", false, false),
    ("a.#10", "a.10", true, false),
    ("a.#1", "a.#10", false, false),
    ("a.01", "a.#1", false, false),
    ("a.#1", "a.1.b.c", false, true),
];

#[test]
fn places_compared(rt: HostRuntime) -> Result<(), Fail> {
    for (first, second, same, above) in PAIRS {
        let first = place(rt.alloc(), first)?.copy(rt.alloc())?;
        let second = place(rt.alloc(), second)?;
        assert_eq!(rt; first.same(&second), same);
        assert_eq!(rt; first.is_above(&second), above);
    }
    Ok(())
}
