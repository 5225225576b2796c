//! Numbers in bytes: fields of 16, 32 and 64 bits, the highest byte first.
#![tactic(auto)]

ghost use Rattle.std.specs.Prelude.{◌≡◌, ◌+◌, ◌≤◌, length};
ghost use Rattle.std.specs.Int.{w16, w32, w64, from_be_bytes, to_be_bytes};
ghost use Rattle.ck_num.specs.Field.{field, with_field};

/// The number in the two bytes from `at` on.
pub fn get_u16(bytes: &[u8], at: usize) -> u16
    requires { at + 2 ≤ length bytes.now }
    ensures spelling { field bytes.now at 2 ≡ to_be_bytes w16 result }
    ensures value { result ≡ from_be_bytes w16 (field bytes.now at 2) }
{
    u16::from_be_bytes([bytes[at], bytes[at + 1]])
}

/// The number in the four bytes from `at` on.
pub fn get_u32(bytes: &[u8], at: usize) -> u32
    requires { at + 4 ≤ length bytes.now }
    ensures spelling { field bytes.now at 4 ≡ to_be_bytes w32 result }
    ensures value { result ≡ from_be_bytes w32 (field bytes.now at 4) }
{
    u32::from_be_bytes([bytes[at], bytes[at + 1], bytes[at + 2], bytes[at + 3]])
}

/// The number in the eight bytes from `at` on.
pub fn get_u64(bytes: &[u8], at: usize) -> u64
    requires { at + 8 ≤ length bytes.now }
    ensures spelling { field bytes.now at 8 ≡ to_be_bytes w64 result }
    ensures value { result ≡ from_be_bytes w64 (field bytes.now at 8) }
{
    u64::from_be_bytes([
        bytes[at],
        bytes[at + 1],
        bytes[at + 2],
        bytes[at + 3],
        bytes[at + 4],
        bytes[at + 5],
        bytes[at + 6],
        bytes[at + 7],
    ])
}

/// Spells the number in the two bytes from `at` on.
pub fn put_u16(bytes: &mut [u8], at: usize, value: u16)
    requires { at + 2 ≤ length bytes.old }
    ensures put { bytes.new ≡ with_field bytes.old at (to_be_bytes w16 value) }
    ensures get_after { from_be_bytes w16 (field bytes.new at 2) ≡ value }
{
    bytes[at..at + 2].copy_from_slice(&value.to_be_bytes());
}

/// Spells the number in the four bytes from `at` on.
pub fn put_u32(bytes: &mut [u8], at: usize, value: u32)
    requires { at + 4 ≤ length bytes.old }
    ensures put { bytes.new ≡ with_field bytes.old at (to_be_bytes w32 value) }
    ensures get_after { from_be_bytes w32 (field bytes.new at 4) ≡ value }
{
    bytes[at..at + 4].copy_from_slice(&value.to_be_bytes());
}

/// Spells the number in the eight bytes from `at` on.
pub fn put_u64(bytes: &mut [u8], at: usize, value: u64)
    requires { at + 8 ≤ length bytes.old }
    ensures put { bytes.new ≡ with_field bytes.old at (to_be_bytes w64 value) }
    ensures get_after { from_be_bytes w64 (field bytes.new at 8) ≡ value }
{
    bytes[at..at + 8].copy_from_slice(&value.to_be_bytes());
}
