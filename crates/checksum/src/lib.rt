//! CRC-32, as IEEE 802.3, gzip and zlib have it, of bytes that come piece by piece.
#![tactic(auto)]

ghost use Rattle.std.specs.Prelude.{◌≡◌, ℕ, List, [], ◌++◌};
ghost use Rattle.checksum.specs.Crc.{shifted, with_byte};

/// The polynomial, the bit of the highest power lowest.
const POLYNOMIAL: u32 = 0xEDB8_8320;

/// The checksum of the bytes that came so far.
#[derive(Clone, Copy)]
pub struct Crc32 {
    register: u32,
}

impl Crc32 {
    ghost use Rattle.checksum.specs.Crc.{crc32};
    ghost use Rattle.checksum.specs.Checksums.{IsOf};

    /// No byte came yet.
    pub fn new() -> Crc32
        ensures { IsOf result [] }
    {
        Crc32 { register: u32::MAX }
    }

    /// More bytes come.
    pub fn update(&mut self, bytes: &[u8])
        ensures { (before : List ℕ) → IsOf self.old before → IsOf self.new (before ++ bytes.now) }
    {
        self.register = bytes
            .iter()
            .fold(self.register, |register, byte| with_byte(register, *byte));
    }

    /// The checksum.
    pub fn value(self) -> u32
        ensures { (bytes : List ℕ) → IsOf self bytes → result ≡ crc32 bytes }
    {
        self.register ^ u32::MAX
    }
}

/// The register after a byte more.
fn with_byte(register: u32, byte: u8) -> u32
    ensures { result ≡ with_byte register byte }
{
    let mut after = register ^ u32::from(byte);
    for _ in 0..u8::BITS {
        after = shifted(after);
    }
    after
}

/// The register after a bit was shifted out.
fn shifted(register: u32) -> u32
    ensures { result ≡ shifted register }
{
    if register % 2 == 1 {
        register / 2 ^ POLYNOMIAL
    } else {
        register / 2
    }
}
