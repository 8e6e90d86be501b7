//! Documents that are told to be plain, and texts that are left to the reading by trees.
use plain_json::plain_document;
use std::test::Fail;

const PLAIN: &str = r#"
{}
{"_id":3,"a":[1,2,3],"b":{"x":8},"q":"yyyyyyyyyyyyyyyyyy"}
{"_id":9,"$set":{"b.x":27}}
{"$inc":{"n":-28}}
{"a":999999999,"b":-0,"c":0,"":"","d":[[],[{}]]}
 { "a" : [ ] , "b" : [ { } , null , true , false ] , "ü" : "ü" }
"#;

const OTHER: &str = r#"
[]
{"a":1} {}
{"a":1,}
{"a":1
{"a":1,"b":2,"a":3}
{"a":01}
{"a":-}
{"a":1.5}
{"a":1e3}
{"a":1000000000}
{"a":tru}
{"a":"\n"}
{"_id":{"$oid":"0123456789abcdef01234567"}}
{"$code":"f","$scope":{}}
"#;

#[test]
fn plain_documents_are_told(rt: HostRuntime) -> Result<(), Fail> {
    for text in PLAIN.lines().skip(1) {
        assert!(rt; plain_document(rt.alloc(), text)?.is_some(), "{text}");
    }
    Ok(())
}

#[test]
fn other_texts_are_left(rt: HostRuntime) -> Result<(), Fail> {
    for text in OTHER.lines().skip(1) {
        assert!(rt; plain_document(rt.alloc(), text)?.is_none(), "{text}");
    }
    Ok(())
}
