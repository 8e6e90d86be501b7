//! The text of the drill.
use schedule_text::{Schedule, drill};
use std::test::Fail;

// As another program draws them.
const DRILL_OF_1: &str = r#"oplog 1000000
create d.c0
create d.c1
create d.c2
create d.c3
dump
update d.c1 {"_id":0,"$set":{"b.x":1}}
"#;

const DRILL_OF_12: &str = r#"oplog 1000000
create d.c0
create d.c1
create d.c2
create d.c3
update d.c0 {"_id":10,"$push":{"a":1}}
insert d.c3 {"_id":7,"a":[2],"b":{"x":2},"p":"xxxxxxxxxxxxxxxxxxxxxxxxxxxxxxxxxxxxxxxxxxxxxxxxxxxxxxxxxxxxxxxxxxxxxxxxxxxxxxxxxxxxxxxxxxxxxxxxxxxx"}
copy d.c2 7
insert d.c3 {"_id":3,"a":[4],"b":{"x":4},"p":"xxxxxxxxxxxxxxxxxxxxxxxxxxxxxxxxxxxxxxxxxxxxxxxxxxxxxxxxxxxxxxxxxxxxxxxxxxxxxxxxxxxxxxxxxxxxxxxxxxxx"}
delete d.c2 {"_id":3}
replace d.c0 {"_id":1,"a":[],"b":{"x":0}}
dump
replace d.c3 {"_id":4,"a":[],"b":{"x":0}}
replace d.c3 {"_id":10,"a":[],"b":{"x":0}}
update d.c3 {"_id":5,"$set":{"b.x":9}}
copy d.c2 7
update d.c3 {"_id":3,"$push":{"a":11}}
update d.c3 {"_id":5,"$set":{"b.x":12}}
"#;

#[test]
fn worked_drills_are_written(rt: HostRuntime) -> Result<(), Fail> {
    for (n, text) in [(1, DRILL_OF_1), (12, DRILL_OF_12)] {
        assert_eq!(rt; drill(rt.alloc(), n)?.as_slice(), text.as_bytes(), "{n}");
    }
    Ok(())
}

#[test]
fn drills_are_schedules(rt: HostRuntime) -> Result<(), Fail> {
    for n in [1, 2, 3, 1000] {
        let text = drill(rt.alloc(), n)?;
        let schedule = Schedule::read(rt.alloc(), text.as_slice())?;
        assert_eq!(rt; schedule.cap, 1000000);
        assert_eq!(rt; schedule.lines.len(), n as usize + 5);
    }
    Ok(())
}
