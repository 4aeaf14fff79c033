// Numbers in the bytes of a file, lowest byte first; signed numbers and their 32 bits.
#![tactic(auto)]

ghost use Rattle.std.specs.Prelude.{◌≡◌, ◌+◌, ◌≤◌, ◌<◌, length};
ghost use Rattle.numbers.specs.Bytes.{byte, le16, le24, le32, le64, signed32, bits32};

// The byte at `at`.
pub fn byte_at(file: &[u8], at: usize) -> usize
    requires { at < length file.now }
    ensures { (result ≡ byte file.now at) × (result < 256) }
{
    usize::from(file[at])
}

// The two bytes at `at`, lowest first.
pub fn u16_at(file: &[u8], at: usize) -> usize
    requires { at + 2 ≤ length file.now }
    ensures { (result ≡ le16 file.now at) × (result < 65536) }
{
    usize::from(u16::from_le_bytes([file[at], file[at + 1]]))
}

// The three bytes at `at`, lowest first. They are put together here, since std reads no number of three bytes.
pub fn u24_at(file: &[u8], at: usize) -> usize
    requires { at + 3 ≤ length file.now }
    ensures { result ≡ le24 file.now at }
{
    byte_at(file, at) + 256 * u16_at(file, at + 1)
}

// The four bytes at `at`, lowest first.
pub fn u32_at(file: &[u8], at: usize) -> u32
    requires { at + 4 ≤ length file.now }
    ensures { result ≡ le32 file.now at }
{
    u32::from_le_bytes([file[at], file[at + 1], file[at + 2], file[at + 3]])
}

// The eight bytes at `at`, lowest first.
pub fn u64_at(file: &[u8], at: usize) -> u64
    requires { at + 8 ≤ length file.now }
    ensures { result ≡ le64 file.now at }
{
    u64::from_le_bytes([
        file[at],
        file[at + 1],
        file[at + 2],
        file[at + 3],
        file[at + 4],
        file[at + 5],
        file[at + 6],
        file[at + 7],
    ])
}

// The four bytes at `at` as a signed number, two's complement.
pub fn i32_at(file: &[u8], at: usize) -> i32
    requires { at + 4 ≤ length file.now }
    ensures { result ≡ signed32 (le32 file.now at) }
{
    signed(u32_at(file, at))
}

// The signed number of 32 bits, two's complement.
pub fn signed(bits: u32) -> i32
    ensures { result ≡ signed32 bits }
{
    bits.cast_signed()
}

// The 32 bits of a signed number, two's complement.
pub fn bits_of(number: i32) -> u32
    ensures { result ≡ bits32 number }
{
    number.cast_unsigned()
}
