//! Archives as they are read, and the fault of inputs that are none.
ghost use Rattle.std.specs.Prelude.{◌≡◌, ◌<◌, OnOk, IsErrOf};
ghost use Rattle.tool_io.specs.Causes.{Rose};

use archive_format::FormatFault;
use bson_value::NsName;
use demux::{Demux, DemuxFault, DocTaker, Halt};
use std::alloc::{AllocError, Global};
use std::test::Fail;
use tool_io::{MemSource, Source};

// The words of an input, its answer, and what it shows. A word is the name of an item, or hexadecimal digits.
const ANSWERS: &str = "\
nothing => Err(Format(Truncated { at: 0 })) -- no bytes
magic 05 => Err(Format(Truncated { at: 5 })) -- a magic number alone
6ee29981 header stop => Err(Format(BadMagic)) -- another magic number
P0 => Ok(()) -- a prelude alone
magic 04000000 fields stop => Err(Format(BadBson { at: 4, kind: Length })) -- a length below five
magic 01400001 fields stop => Err(Format(BadBson { at: 4, kind: TooLong })) -- a length above the limit
magic 65000000 fields stop => Err(Format(BadBson { at: 4, kind: Tag })) -- a length that is one too great
magic stop => Err(Format(BadPrelude { at: 4 })) -- a terminator for the header
magic newer stop => Err(Format(BadPrelude { at: 4 })) -- another version
magic header meta meta stop => Err(Format(BadPrelude { at: 183 })) -- metadata twice
P0 stop => Err(Format(BadHeader { at: 108 })) -- a terminator for the header of a block
P0 one => Err(Format(BadHeader { at: 108 })) -- a document for the header of a block
P0 end one => Err(Format(DocsInEnd { at: 160 })) -- a document behind an end
P0 end stop end stop => Err(Format(AfterEnd { ns: NsName { db: \"a\", coll: \"b\" }, at: 164 })) -- two ends
P0 wrong stop => Err(Format(Crc { ns: NsName { db: \"a\", coll: \"b\" }, said: 1, found: 0 })) -- another checksum
P0 open one stop unsummed stop => Ok(()) -- an end without a checksum
P0 open one stop => Err(Format(NotEnded { ns: NsName { db: \"a\", coll: \"b\" } })) -- no end
";

const INTERLEAVED: &str =
    "P0 open one stop open-cd one stop open two stop open-cd two stop end-both-cd stop end-both stop";

// What is given of it.
const GIVEN: &str = "doc a.b 1;doc c.d 1;doc a.b 2;doc c.d 2;end c.d;end a.b;";

const P0: &str =
    "6de299816400000010636f6e63757272656e745f636f6c6c656374696f6e7300010000000276657273696f6e0004000000302e3100027365727665725f76657273696f6e0006000000302e302e300002746f6f6c5f76657273696f6e0006000000302e302e300000ffffffff";

// The hexadecimal digits of an item.
fn digits_of(word: &str) -> &str {
    match word {
        "nothing" => "",
        "P0" => P0,
        "magic" => "6de29981",
        "stop" => "ffffffff",
        "header" => {
            "6400000010636f6e63757272656e745f636f6c6c656374696f6e7300010000000276657273696f6e0004000000302e3100027365727665725f76657273696f6e0006000000302e302e300002746f6f6c5f76657273696f6e0006000000302e302e300000"
        }
        // The header behind its length.
        "fields" => {
            "10636f6e63757272656e745f636f6c6c656374696f6e7300010000000276657273696f6e0004000000302e3100027365727665725f76657273696f6e0006000000302e302e300002746f6f6c5f76657273696f6e0006000000302e302e300000"
        }
        "newer" => {
            "6400000010636f6e63757272656e745f636f6c6c656374696f6e7300010000000276657273696f6e0004000000302e3200027365727665725f76657273696f6e0006000000302e302e300002746f6f6c5f76657273696f6e0006000000302e302e300000"
        }
        // The metadata of a.b, with an empty text.
        "meta" => {
            "4f0000000264620002000000610002636f6c6c656374696f6e00020000006200026d657461646174610001000000001073697a6500000000000274797065000b000000636f6c6c656374696f6e0000"
        }
        "open" => {
            "340000000264620002000000610002636f6c6c656374696f6e0002000000620008454f4600001243524300000000000000000000"
        }
        "open-cd" => {
            "340000000264620002000000630002636f6c6c656374696f6e0002000000640008454f4600001243524300000000000000000000"
        }
        // {_id: 1} and {_id: 2}
        "one" => "0e000000105f6964000100000000",
        "two" => "0e000000105f6964000200000000",
        "end" => {
            "340000000264620002000000610002636f6c6c656374696f6e0002000000620008454f4600011243524300000000000000000000"
        }
        "wrong" => {
            "340000000264620002000000610002636f6c6c656374696f6e0002000000620008454f4600011243524300010000000000000000"
        }
        "unsummed" => {
            "270000000264620002000000610002636f6c6c656374696f6e0002000000620008454f46000100"
        }
        // The ends of a.b and c.d behind these two documents.
        "end-both" => {
            "340000000264620002000000610002636f6c6c656374696f6e0002000000620008454f46000112435243007d2ee49e24dd510f00"
        }
        "end-both-cd" => {
            "340000000264620002000000630002636f6c6c656374696f6e0002000000640008454f46000112435243007d2ee49e24dd510f00"
        }
        _ => word,
    }
}

fn bytes_of(alloc: Global, words: &str) -> Result<Vec<u8>, Fail> {
    let mut bytes = Vec::new(alloc);
    for word in words.split(' ') {
        bytes.extend_from_slice(&hex::decode(alloc, digits_of(word))?)?;
    }
    Ok(bytes)
}

// A taker that writes a line for each taking, and stops at the one of this number.
#[derive(Drop)]
struct Notes {
    text: String,
    takings: u64,
    stop_at: u64,
    stops: u64,
    starved: u64,
}

impl Notes {
    fn new(alloc: Global, stop_at: u64) -> Notes
        ensures { (result.stops ≡ 0) × (result.starved ≡ 0) }
    {
        Notes {
            text: String::new(alloc),
            takings: 0,
            stop_at,
            stops: 0,
            starved: 0,
        }
    }

    fn write(&mut self, kind: &str, ns: &NsName, number: usize) -> Result<(), AllocError>
        ensures { (self.new.stops ≡ self.old.stops) × (self.new.starved ≡ self.old.starved) }
    {
        self.text.push_str(kind)?;
        self.text.push_str(ns.db.as_str())?;
        self.text.push('.')?;
        self.text.push_str(ns.coll.as_str())?;
        if number > 0 {
            self.text.push(' ')?;
            self.text.push(char::from(b'0' + (number % 10) as u8))?;
        }
        self.text.push(';')
    }

    fn take(&mut self, kind: &str, ns: &NsName, number: usize) -> Result<(), Halt>
        requires { (self.old.stops ≡ 0) × (self.old.starved ≡ 0) }
        ensures fresh { OnOk result ((self.new.stops ≡ 0) × (self.new.starved ≡ 0)) }
        ensures stopped { IsErrOf result Halt.Stopped → Rose self.old.stops self.new.stops }
        ensures starved { IsErrOf result Halt.NoMemory → Rose self.old.starved self.new.starved }
    {
        if self.takings == self.stop_at {
            self.stops = 1;
            return Err(Halt::Stopped);
        }
        self.takings = self.takings.saturating_add(1);
        match self.write(kind, ns, number) {
            Ok(()) => Ok(()),
            Err(AllocError) => {
                self.starved = 1;
                Err(Halt::NoMemory)
            }
        }
    }
}

impl DocTaker for Notes {
    ghost use Rattle.std.specs.Prelude.{ℕ, true, None};

    ghost Known = { ℕ };

    ghost adds = { λ _ known _. known };

    ghost known = { λ _. None };

    ghost stops = { λ n. n.stops };

    ghost starved = { λ n. n.starved };

    ghost halted = { λ _ _. true };

    fn meta(&mut self, ns: &NsName, text: &str) -> Result<(), Halt> {
        self.take("meta ", ns, text.len())
    }

    // Of a document {_id: 1} the number is noted, which is its tenth byte.
    fn doc(&mut self, ns: &NsName, bytes: &[u8]) -> Result<(), Halt> {
        let number = if bytes.len() == 14 { bytes[9] } else { 0 };
        self.take("doc ", ns, usize::from(number))
    }

    fn end(&mut self, ns: &NsName) -> Result<(), Halt> {
        self.take("end ", ns, 0)
    }
}

// What was taken, and the answer, where the source gives so many bytes at a time.
fn told(
    alloc: Global,
    bytes: Vec<u8>,
    piece: usize,
    fails: Vec<u64>,
    stop_at: u64,
) -> Result<(String, String), AllocError> {
    let pieces = [piece.max(1)].to_vec(alloc)?;
    let mut notes = Notes::new(alloc, stop_at);
    let mut source = MemSource::new(bytes, pieces, fails);
    let answer = Demux::new(alloc)?.run(&mut source, &mut notes);
    Ok((notes.text, format!(in alloc; "{answer:?}")?))
}

#[test]
fn the_answer_of_each_input(rt: HostRuntime) -> Result<(), Fail> {
    let alloc = rt.alloc();
    for line in ANSWERS.lines() {
        let (words, rest) = line.split_once(" => ").ok_or("no answer")?;
        let (answer, what) = rest.split_once(" -- ").ok_or("no name")?;
        let bytes = bytes_of(alloc, words)?;
        let (_, found) = told(alloc, bytes, 1000, Vec::new(alloc), 99)?;
        assert_eq!(rt; found.as_str(), answer, "{what}");
    }
    Ok(())
}

#[test]
fn interleaved_blocks_in_pieces(rt: HostRuntime) -> Result<(), Fail> {
    let alloc = rt.alloc();
    for piece in [1, 2, 3, 7, 1000] {
        let bytes = bytes_of(alloc, INTERLEAVED)?;
        let (given, answer) = told(alloc, bytes, piece, Vec::new(alloc), 99)?;
        assert_eq!(rt; given.as_str(), GIVEN, "{piece}");
        assert_eq!(rt; answer.as_str(), "Ok(())", "{piece}");
    }
    Ok(())
}

// The third taking is refused, and read 200 of one byte fails.
#[test]
fn a_stop_and_a_failing_read(rt: HostRuntime) -> Result<(), Fail> {
    let alloc = rt.alloc();
    let bytes = bytes_of(alloc, INTERLEAVED)?;
    let (given, answer) = told(alloc, bytes, 1000, Vec::new(alloc), 2)?;
    assert_eq!(rt; given.as_str(), "doc a.b 1;doc c.d 1;");
    assert_eq!(rt; answer.as_str(), "Err(Stopped)");
    let bytes = bytes_of(alloc, INTERLEAVED)?;
    let (given, answer) = told(alloc, bytes, 1, [200].to_vec(alloc)?, 99)?;
    assert_eq!(rt; given.as_str(), "doc a.b 1;");
    assert_eq!(rt; answer.as_str(), "Err(ReadFault)");
    Ok(())
}

// A namespace of no documents, cut behind each of its bytes.
#[test]
fn an_archive_that_is_cut_at_each_byte(rt: HostRuntime) -> Result<(), Fail> {
    let alloc = rt.alloc();
    let whole = bytes_of(alloc, "P0 end stop")?;
    for cut in 0..whole.len() {
        let bytes = whole[..cut].to_vec(alloc)?;
        let (_, answer) = told(alloc, bytes, 1000, Vec::new(alloc), 99)?;
        let truncated = format!(in alloc; "Err(Format(Truncated {{ at: {cut} }}))")?;
        let expected = if cut == 108 {
            "Ok(())"
        } else {
            truncated.as_str()
        };
        assert_eq!(rt; answer.as_str(), expected, "{cut}");
    }
    Ok(())
}

#[test]
fn a_bad_magic_number_reads_no_further(rt: HostRuntime) -> Result<(), Fail> {
    let alloc = rt.alloc();
    let mut bytes = bytes_of(alloc, "6ee29981 header stop")?;
    bytes.resize(40_000_108, 0u8)?;
    let mut notes = Notes::new(alloc, 99);
    let mut source = MemSource::new(bytes, Vec::new(alloc), Vec::new(alloc));
    let answer = Demux::new(alloc)?.run(&mut source, &mut notes);
    assert!(rt; matches!(answer, Err(DemuxFault::Format(FormatFault::BadMagic))));
    let mut rest = Vec::new(alloc);
    rest.resize(40_000_108, 0u8)?;
    let left = match rest.is_empty() {
        true => 0,
        false => source.read(&mut rest).unwrap_or(0),
    };
    assert!(rt; left >= 23_206_508, "{left}");
    Ok(())
}

// A document of so many levels, each in the field "a" of the one above.
fn nested(alloc: Global, levels: u32) -> Result<Vec<u8>, AllocError> {
    let mut bytes = Vec::new(alloc);
    for inner in (0..levels).rev() {
        let count = inner.wrapping_mul(8).wrapping_add(5);
        bytes.extend_from_slice(&count.to_le_bytes())?;
        if inner > 0 {
            bytes.extend_from_slice(b"\x03a\0")?;
        }
    }
    for _ in 0..levels {
        bytes.push(0)?;
    }
    Ok(bytes)
}

#[test]
fn as_deep_as_allowed_and_deeper(rt: HostRuntime) -> Result<(), Fail> {
    let alloc = rt.alloc();
    let deep = "Err(Format(BadBson { at: 160, kind: Deep }))";
    for (levels, expected) in [(200u32, "Ok(())"), (201, deep)] {
        let mut bytes = bytes_of(alloc, "P0 open")?;
        bytes.extend_from_slice(&nested(alloc, levels)?)?;
        bytes.extend_from_slice(&bytes_of(alloc, "stop unsummed stop")?)?;
        let (_, answer) = told(alloc, bytes, 1000, Vec::new(alloc), 99)?;
        assert_eq!(rt; answer.as_str(), expected, "{levels}");
    }
    Ok(())
}

// A document of 16,777,216 bytes, which has one binary field, behind a small one.
#[test]
fn the_largest_stored_document(rt: HostRuntime) -> Result<(), Fail> {
    let alloc = rt.alloc();
    let mut bytes = bytes_of(alloc, "P0 open one 00000001 056200 f3ffff00 00")?;
    let end = bytes.len().saturating_add(16_777_204);
    bytes.resize(end, 0u8)?;
    bytes.extend_from_slice(&bytes_of(alloc, "stop unsummed stop")?)?;
    let (given, answer) = told(alloc, bytes, 65536, Vec::new(alloc), 99)?;
    assert_eq!(rt; answer.as_str(), "Ok(())");
    assert_eq!(rt; given.as_str(), "doc a.b 1;doc a.b;end a.b;");
    Ok(())
}
