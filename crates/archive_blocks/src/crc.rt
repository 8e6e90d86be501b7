//! The sum that ends a namespace's documents: CRC-64 with the reflected ECMA polynomial.
ghost use Rattle.std.specs.Prelude.{◌≡◌, ◌+◌, ◌*◌, ◌%◌, ◌<◌, ◌≤◌, ◌++◌, ◌^◌, length};
ghost use Rattle.archive_format.specs.Crc.{crc_step, crc_start, crc_on, crc_end};
ghost use Rattle.archive_blocks.specs.Shifts.{shifts, IsFilled};
ghost use Rattle.std.specs.Int.{from_le_bytes, w64};

use std::alloc::{AllocError, Global};
use std::marker::Model;

/// What each half of a byte adds to the sum: the row says how many further halves stand behind it, and
/// the place which half it is.
static HALVES: [[u64; 16]; 16] = [
    [
        0x0000000000000000,
        0x7d9ba13851336649,
        0xfb374270a266cc92,
        0x86ace348f355aadb,
        0x64b62bcaebc387a1,
        0x192d8af2baf0e1e8,
        0x9f8169ba49a54b33,
        0xe21ac88218962d7a,
        0xc96c5795d7870f42,
        0xb4f7f6ad86b4690b,
        0x325b15e575e1c3d0,
        0x4fc0b4dd24d2a599,
        0xadda7c5f3c4488e3,
        0xd041dd676d77eeaa,
        0x56ed3e2f9e224471,
        0x2b769f17cf112238,
    ],
    [
        0x0000000000000000,
        0xb32e4cbe03a75f6f,
        0xf4843657a840a05b,
        0x47aa7ae9abe7ff34,
        0x7bd0c384ff8f5e33,
        0xc8fe8f3afc28015c,
        0x8f54f5d357cffe68,
        0x3c7ab96d5468a107,
        0xf7a18709ff1ebc66,
        0x448fcbb7fcb9e309,
        0x0325b15e575e1c3d,
        0xb00bfde054f94352,
        0x8c71448d0091e255,
        0x3f5f08330336bd3a,
        0x78f572daa8d1420e,
        0xcbdb3e64ab761d61,
    ],
    [
        0x0000000000000000,
        0x20447bdc2f2b57ce,
        0x4088f7b85e56af9c,
        0x60cc8c64717df852,
        0x8111ef70bcad5f38,
        0xa15594ac938608f6,
        0xc19918c8e2fbf0a4,
        0xe1dd6314cdd0a76a,
        0x90fb71cad654a0f5,
        0xb0bf0a16f97ff73b,
        0xd073867288020f69,
        0xf037fdaea72958a7,
        0x11ea9eba6af9ffcd,
        0x31aee56645d2a803,
        0x5162690234af5051,
        0x712612de1b84079f,
    ],
    [
        0x0000000000000000,
        0x54e979925cd0f10d,
        0xa9d2f324b9a1e21a,
        0xfd3b8ab6e5711317,
        0xc17d4962dc4ddab1,
        0x959430f0809d2bbc,
        0x68afba4665ec38ab,
        0x3c46c3d4393cc9a6,
        0x10223dee1795abe7,
        0x44cb447c4b455aea,
        0xb9f0cecaae3449fd,
        0xed19b758f2e4b8f0,
        0xd15f748ccbd87156,
        0x85b60d1e9708805b,
        0x788d87a87279934c,
        0x2c64fe3a2ea96241,
    ],
    [
        0x0000000000000000,
        0xd50f4afe48bae1ba,
        0x38c63ad73e7bddf1,
        0xedc9702976c13c4b,
        0x718c75ae7cf7bbe2,
        0xa4833f50344d5a58,
        0x494a4f79428c6613,
        0x9c4505870a3687a9,
        0xe318eb5cf9ef77c4,
        0x3617a1a2b155967e,
        0xdbded18bc794aa35,
        0x0ed19b758f2e4b8f,
        0x92949ef28518cc26,
        0x479bd40ccda22d9c,
        0xaa52a425bb6311d7,
        0x7f5deedbf3d9f06d,
    ],
    [
        0x0000000000000000,
        0x3f0be14a916a6dcb,
        0x7e17c29522d4db96,
        0x411c23dfb3beb65d,
        0xfc2f852a45a9b72c,
        0xc3246460d4c3dae7,
        0x823847bf677d6cba,
        0xbd33a6f5f6170171,
        0x6a87a57f245d70dd,
        0x558c4435b5371d16,
        0x149067ea0689ab4b,
        0x2b9b86a097e3c680,
        0x96a8205561f4c7f1,
        0xa9a3c11ff09eaa3a,
        0xe8bfe2c043201c67,
        0xd7b4038ad24a71ac,
    ],
    [
        0x0000000000000000,
        0x4c300ac98dc40345,
        0x986015931b88068a,
        0xd4501f5a964c05cf,
        0xa218840d981e1391,
        0xee288ec415da10d4,
        0x3a78919e8396151b,
        0x76489b570e52165e,
        0xd6e9a7309f3239a7,
        0x9ad9adf912f63ae2,
        0x4e89b2a384ba3f2d,
        0x02b9b86a097e3c68,
        0x74f1233d072c2a36,
        0x38c129f48ae82973,
        0xec9136ae1ca42cbc,
        0xa0a13c6791602ff9,
    ],
    [
        0x0000000000000000,
        0x1dee8a5e222ca1dc,
        0x3bdd14bc445943b8,
        0x26339ee26675e264,
        0x77ba297888b28770,
        0x6a54a326aa9e26ac,
        0x4c673dc4ccebc4c8,
        0x5189b79aeec76514,
        0xef7452f111650ee0,
        0xf29ad8af3349af3c,
        0xd4a9464d553c4d58,
        0xc947cc137710ec84,
        0x98ce7b8999d78990,
        0x8520f1d7bbfb284c,
        0xa3136f35dd8eca28,
        0xbefde56bffa26bf4,
    ],
    [
        0x0000000000000000,
        0xac0494fade6642fe,
        0xcad186de13c29b79,
        0x66d51224cda4d987,
        0x077ba297888b2877,
        0xab7f366d56ed6a89,
        0xcdaa24499b49b30e,
        0x61aeb0b3452ff1f0,
        0x0ef7452f111650ee,
        0xa2f3d1d5cf701210,
        0xc426c3f102d4cb97,
        0x6822570bdcb28969,
        0x098ce7b8999d7899,
        0xa588734247fb3a67,
        0xc35d61668a5fe3e0,
        0x6f59f59c5439a11e,
    ],
    [
        0x0000000000000000,
        0x5c2d776033c4205e,
        0xb85aeec0678840bc,
        0xe47799a0544c60e2,
        0xe26d72ab601e9ffd,
        0xbe4005cb53dabfa3,
        0x5a379c6b0796df41,
        0x061aeb0b3452ff1f,
        0x56024a7d6f33217f,
        0x0a2f3d1d5cf70121,
        0xee58a4bd08bb61c3,
        0xb275d3dd3b7f419d,
        0xb46f38d60f2dbe82,
        0xe8424fb63ce99edc,
        0x0c35d61668a5fe3e,
        0x5018a1765b61de60,
    ],
    [
        0x0000000000000000,
        0x532fe9599d1e0674,
        0xa65fd2b33a3c0ce8,
        0xf5703beaa7220a9c,
        0xde670a4ddb760755,
        0x8d48e31446680121,
        0x7838d8fee14a0bbd,
        0x2b1731a77c540dc9,
        0x2e16bbb019e2102f,
        0x7d3952e984fc165b,
        0x8849690323de1cc7,
        0xdb66805abec01ab3,
        0xf071b1fdc294177a,
        0xa35e58a45f8a110e,
        0x562e634ef8a81b92,
        0x05018a1765b61de6,
    ],
    [
        0x0000000000000000,
        0x6184d55f721267c6,
        0xc309aabee424cf8c,
        0xa28d7fe19636a84a,
        0x14cbfa566747819d,
        0x754f2f091555e65b,
        0xd7c250e883634e11,
        0xb64685b7f17129d7,
        0x2997f4acce8f033a,
        0x481321f3bc9d64fc,
        0xea9e5e122aabccb6,
        0x8b1a8b4d58b9ab70,
        0x3d5c0efaa9c882a7,
        0x5cd8dba5dbdae561,
        0xfe55a4444dec4d2b,
        0x9fd1711b3ffe2aed,
    ],
    [
        0x0000000000000000,
        0x999924efbe846d4f,
        0xa1eae6f4d206c41b,
        0x3873c21b6c82a954,
        0xd10d62c20b0396b3,
        0x4894462db587fbfc,
        0x70e78436d90552a8,
        0xe97ea0d967813fe7,
        0x30c26aafb90933e3,
        0xa95b4e40078d5eac,
        0x91288c5b6b0ff7f8,
        0x08b1a8b4d58b9ab7,
        0xe1cf086db20aa550,
        0x78562c820c8ec81f,
        0x4025ee99600c614b,
        0xd9bcca76de880c04,
    ],
    [
        0x0000000000000000,
        0x22ef0d5934f964ec,
        0x45de1ab269f2c9d8,
        0x673117eb5d0bad34,
        0x8bbc3564d3e593b0,
        0xa953383de71cf75c,
        0xce622fd6ba175a68,
        0xec8d228f8eee3e84,
        0x85a0c5e208c539e5,
        0xa74fc8bb3c3c5d09,
        0xc07edf506137f03d,
        0xe291d20955ce94d1,
        0x0e1cf086db20aa55,
        0x2cf3fddfefd9ceb9,
        0x4bc2ea34b2d2638d,
        0x692de76d862b0761,
    ],
    [
        0x0000000000000000,
        0xaff48c8aaf0b1ead,
        0xcd31b63ef11823df,
        0x62c53ab45e133d72,
        0x08bbc3564d3e593b,
        0xa74f4fdce2354796,
        0xc58a7568bc267ae4,
        0x6a7ef9e2132d6449,
        0x117786ac9a7cb276,
        0xbe830a263577acdb,
        0xdc4630926b6491a9,
        0x73b2bc18c46f8f04,
        0x19cc45fad742eb4d,
        0xb638c9707849f5e0,
        0xd4fdf3c4265ac892,
        0x7b097f4e8951d63f,
    ],
    [
        0x0000000000000000,
        0xdabe95afc7875f40,
        0x27a584742000a005,
        0xfd1b11dbe787ff45,
        0x4f4b08e84001400a,
        0x95f59d4787861f4a,
        0x68ee8c9c6001e00f,
        0xb2501933a786bf4f,
        0x9e9611d080028014,
        0x4428847f4785df54,
        0xb93395a4a0022011,
        0x638d000b67857f51,
        0xd1dd1938c003c01e,
        0x0b638c9707849f5e,
        0xf6789d4ce003601b,
        0x2cc608e327843f5b,
    ],
];

// The register after all 64 bits of this number have left.
fn leave(number: u64) -> u64
    ensures { result ≡ shifts 64 number }
{
    let mut sum = 0;
    'halves: for j in 0..16 {
        let half = (number >> (4 * j)) % 16;
        sum ^= HALVES[15 - j][half as usize];
    }
    sum
}

// What a byte adds to the sum, with so many bytes of eight behind it.
fn byte_of_eight(behind: usize, byte: u8) -> u64
    requires { behind < 8 }
    ensures { result ≡ shifts (8 * (behind + 1)) byte }
{
    HALVES[2 * behind + 1][(byte % 16) as usize] ^ HALVES[2 * behind][(byte / 16) as usize]
}

// What a byte adds to the sum, with so many bytes of sixteen behind it.
fn whole_byte(behind: usize, byte: u8) -> u64
    requires { behind < 16 }
    ensures { result ≡ shifts (8 * (behind + 1)) byte }
{
    if behind < 8 {
        byte_of_eight(behind, byte)
    } else {
        leave(byte_of_eight(behind - 8, byte))
    }
}

// The number that eight bytes write, the lowest first.
fn number(bytes: &[u8]) -> u64
    requires { length bytes.now ≡ 8 }
    ensures { result ≡ from_le_bytes w64 bytes.now }
{
    let mut eight = [0; 8];
    eight.copy_from_slice(bytes);
    u64::from_le_bytes(eight)
}

/// What each byte adds to a sum, by how many bytes of sixteen stand behind it. With it a sum takes a third of the time.
#[derive(Drop)]
pub struct CrcTable {
    rows: Vec<u64>,
    ghost filled: { IsFilled 4096 rows.items },
}

impl CrcTable {
    /// Makes the table, of 32 KiB.
    pub fn new(alloc: Global) -> Result<CrcTable, AllocError> {
        let mut rows = Vec::with_capacity(alloc, 4096)?;
        'rows: for i in 0..4096 {
            rows.push(whole_byte(i / 256, (i % 256) as u8))?;
        }
        Ok(CrcTable { rows })
    }

    // What the lowest byte of this number adds to the sum, with so many bytes behind it.
    #[inline(always)]
    fn row(&self, behind: usize, number: u64) -> u64
        requires { behind < 16 }
        ensures { result ≡ shifts (8 * (behind + 1)) (number % 256) }
    {
        self.rows[256 * behind + (number % 256) as usize]
    }

    // The register after all 64 bits of this number have left, and so many bytes behind them.
    #[inline(always)]
    fn leave(&self, behind: usize, number: u64) -> u64
        requires { behind ≤ 8 }
        ensures { result ≡ shifts (8 * (behind + 8)) number }
    {
        self.row(behind + 7, number)
            ^ self.row(behind + 6, number >> 8)
            ^ self.row(behind + 5, number >> 16)
            ^ self.row(behind + 4, number >> 24)
            ^ self.row(behind + 3, number >> 32)
            ^ self.row(behind + 2, number >> 40)
            ^ self.row(behind + 1, number >> 48)
            ^ self.row(behind, number >> 56)
    }

    // The register after sixteen bytes more. What needs no sum stands first, so that it does not wait for the step before.
    #[inline(always)]
    fn add_sixteen(&self, sum: u64, bytes: &[u8]) -> u64
        requires { length bytes.now ≡ 16 }
        ensures { result ≡ crc_on sum bytes.now }
    {
        let last = self.leave(0, number(&bytes[8..]));
        last ^ self.leave(8, sum ^ number(&bytes[..8]))
    }

    // The register after eight bytes more.
    fn add_eight(&self, sum: u64, bytes: &[u8]) -> u64
        requires { length bytes.now ≡ 8 }
        ensures { result ≡ crc_on sum bytes.now }
    {
        self.leave(0, sum ^ number(bytes))
    }

    // The register after one byte more.
    fn add_byte(&self, sum: u64, byte: u8) -> u64
        ensures { result ≡ crc_step sum byte }
    {
        let number = sum ^ u64::from(byte);
        (number >> 8) ^ self.row(0, number)
    }

    // The register after these bytes, one by one.
    fn add_bytes(&self, sum: u64, bytes: &[u8]) -> u64
        ensures { result ≡ crc_on sum bytes.now }
    {
        let mut left = sum;
        'bytes: for byte in bytes {
            left = self.add_byte(left, *byte);
        }
        left
    }

    // The register after these bytes, of which eight at most are taken at once.
    fn add_rest(&self, sum: u64, bytes: &[u8]) -> u64
        ensures { result ≡ crc_on sum bytes.now }
    {
        if bytes.len() < 8 {
            self.add_bytes(sum, bytes)
        } else {
            self.add_bytes(self.add_eight(sum, &bytes[..8]), &bytes[8..])
        }
    }
}

// The register after half a byte has left.
fn leave_half(sum: u64) -> u64
    ensures { result ≡ shifts 4 sum }
{
    (sum >> 4) ^ HALVES[0][(sum % 16) as usize]
}

// The register after one byte more.
fn add_byte(sum: u64, byte: u8) -> u64
    ensures { result ≡ crc_step sum byte }
{
    leave_half(leave_half(sum ^ u64::from(byte)))
}

// The register after eight bytes more.
fn add_eight(sum: u64, bytes: &[u8]) -> u64
    requires { length bytes.now ≡ 8 }
    ensures { result ≡ crc_on sum bytes.now }
{
    leave(sum ^ number(bytes))
}

/// The sum of bytes, CRC-64 with the reflected ECMA polynomial (that of xz). Contracts see it as its
/// register, the number before the last inversion.
#[derive(Debug, Drop)]
pub struct Crc {
    left: u64,
}

impl Model for Crc {
    ghost use Rattle.std.specs.Prelude.{ℕ};

    ghost Value = { ℕ };

    ghost view = { λ c. c.left };
}

impl Crc {
    /// The sum of no bytes.
    pub fn new() -> Crc
        ensures { result ≡ crc_start }
    {
        Crc { left: u64::MAX }
    }

    /// Adds bytes behind those before. The time grows with their number, eight in a step.
    pub fn add(&mut self, bytes: &[u8])
        ensures { self.new ≡ crc_on self.old bytes.now }
    {
        let mut rest = bytes;
        'eights: while rest.len() >= 8 {
            self.left = add_eight(self.left, &rest[..8]);
            rest = &rest[8..];
        }
        'bytes: for byte in rest {
            self.left = add_byte(self.left, *byte);
        }
    }

    /// The same by a table, sixteen bytes in a step.
    pub fn add_by(&mut self, table: &CrcTable, bytes: &[u8])
        ensures { self.new ≡ crc_on self.old bytes.now }
    {
        let mut sum = self.left;
        let mut rest = bytes;
        'sixteens: while rest.len() >= 16 {
            sum = table.add_sixteen(sum, &rest[..16]);
            rest = &rest[16..];
        }
        self.left = table.add_rest(sum, rest);
    }

    /// The sum of all bytes so far.
    #[tactic(auto, unfolding(archive_format::specs::Crc::crc_end))]
    pub fn sum(&self) -> u64
        ensures { result ≡ crc_end self.now }
    {
        !self.left
    }
}
