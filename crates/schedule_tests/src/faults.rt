//! Lines that are none of a schedule.
use schedule_text::{LineFault, LineKind, Schedule};
use std::test::Fail;

// The line that is bad, its kind, and the text within the brackets, where ` / ` stands for a line end.
const BAD: &str = r#"
1 Command <dumps> another word
1 Command < dump> a space in front
1 Command <Dump> another letter
2 Command <dump / insertt s.c {"_id":1}> a word that begins as one
1 Words <dump > a space behind
1 Words <commit x> too many words before a place that is wrong
1 Words <record v3> no form
1 Words <record> no form named
1 Words <record  v1> two spaces
1 Words <at> no second
1 Words <at 1 2> two seconds
1 Words <oplog> no cap
1 Words <oplog 1 2 3> three numbers
1 Words <oplog  1> an empty word
1 Words <create> no namespace
1 Words <create s.c > nothing behind the space
1 Words <drop s.c s.d> two namespaces
1 Words <dropDatabase> no database
1 Words <dropDatabase s d> two databases
1 Words <rename s.c> one namespace
1 Words <rename s.c s.d s.e> three namespaces
1 Words <insert s.c> no document
1 Words <insert s.c > nothing behind the space
1 Words <insert  {"_id":1}> an empty namespace
1 Words <dropIndex s.c> no name
1 Words <dropIndex s.c a b> two names
1 Words <copy s.c> no number
1 Words <copy 1> no namespace
1 Words <tail> no number
1 Words <begin x> a word more
2 Words <begin / record v3> in a transaction too
1 Place <commit> no transaction is open
1 Place <abort> no transaction is open
3 Place <begin / commit / commit> it is closed
2 Place <begin / begin> one in another
2 Place <begin / at 1> the clock
2 Place <begin / record v1> a form
2 Place <begin / create s.c> a creation
2 Place <begin / drop s> before the name
2 Place <begin / oplog 5> a cap
2 Place <insert s.c {"_id":1} / oplog 5> a cap too late
2 Place <oplog 5 / oplog 5> a second cap
2 Place <dump / oplog 0> before the number
1 Number <oplog 0> below the range
1 Number <oplog 1000001> above the range
1 Number <oplog 1 0> below the range of bytes
1 Number <oplog 1 1073741825> above the range of bytes
1 Number <oplog 01> a leading zero
1 Number <oplog +1> a sign
1 Number <at -1> a sign
1 Number <at 00> two zeros
1 Number <at 4294967296> above the range
1 Number <at 1x> a letter
1 Number <copy s 0> before the name
1 Number <copy s.c 1000001> above the range
1 Number <tail 0> below the range
1 Name <create s> no dot
1 Name <create .c> no database
1 Name <create s.> no collection
1 Name <copy s 1> no dot
1 Name <drop s> no dot
1 Name <rename s.c s> no dot behind
1 Name <insert s {> before the JSON
1 Name <dropIndex s i> no dot
1 Json <insert s.c {"_id":1> no end
1 Json <insert s.c {"_id":1,"_id":2}> a name twice
1 Json <create s.c {}{}> two texts
2 Json <dump / update s.c x> no JSON
1 Extended <insert s.c {"_id":1.5}> a double
1 Extended <insert s.c 1.5> before the shape
1 Extended <delete s.c {"_id":{"$oid":"0"}}> a wrapper of another form
1 Extended <update s.c {"a":99999999999999999999}> out of range
1 Shape <insert s.c [1]> an array
1 Shape <insert s.c {"$oid":"0102030405060708090a0b0c"}> a value that is no document
1 Shape <create s.c null> no document
1 Shape <update s.c {"$set":{"a":1}}> no _id
1 Shape <delete s.c {}> no _id
1 Shape <delete s.c {"_id":1,"a":1}> another field
1 Shape <createIndex s.c "a"> a text
4 Shape < / #x / begin / delete s.c {"a":1}> lines that are passed over count
"#;

#[test]
fn the_first_bad_line_is_told(rt: HostRuntime) -> Result<(), Fail> {
    for row in BAD.lines().skip(1) {
        let (told, row) = row.split_once(" <").ok_or("no bracket")?;
        let (text, why) = row.rsplit_once("> ").ok_or("no end")?;
        let text = text.replace(rt.alloc(), " / ", "\n")?;
        match Schedule::read(rt.alloc(), text.as_bytes()) {
            Err(LineFault::Bad { line, kind }) => {
                let found = format!(in rt.alloc(); "{line} {kind:?}")?;
                assert_eq!(rt; found.as_str(), told, "{why}");
            }
            _ => return Err(Fail::from("no bad line")),
        }
    }
    Ok(())
}

#[test]
fn lines_that_are_passed_over_are_no_texts(rt: HostRuntime) -> Result<(), Fail> {
    let bad = Schedule::read(rt.alloc(), b"#\xff\n\r\ndump\r\nmark\xff");
    assert_eq!(rt;
        bad.err(),
        Some(LineFault::Bad {
            line: 4,
            kind: LineKind::Utf8
        })
    );
    let bad = Schedule::read(rt.alloc(), b"dump\r");
    assert_eq!(rt;
        bad.err(),
        Some(LineFault::Bad {
            line: 1,
            kind: LineKind::Command
        })
    );
    Ok(())
}

#[test]
fn the_longest_schedule_has_so_many_lines(rt: HostRuntime) -> Result<(), Fail> {
    let mut lines = vec![in rt.alloc(); b'\n'; 1048576]?;
    assert_eq!(rt;
        Schedule::read(rt.alloc(), lines.as_slice())?.lines.len(),
        0
    );
    lines.push(b'\n')?;
    let bad = Schedule::read(rt.alloc(), lines.as_slice());
    assert_eq!(rt;
        bad.err(),
        Some(LineFault::Bad {
            line: 1048577,
            kind: LineKind::Limit
        })
    );
    Ok(())
}
