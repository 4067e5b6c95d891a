// Bytes that are lent: the mark at the front of a file and little-endian numbers of 16, 32 and 64 bits;
// bytes and 16-bit numbers put at a place, and blocks of eight bytes in a table; clearing a working area.
#![tactic(auto)]

ghost use Rattle.std.specs.Prelude.{◌≡◌, ◌+◌, ◌*◌, ◌≤◌, ◌<◌, length, replicate};
ghost use Rattle.wire.specs.Fields.{begins_with, word_at, word_bytes, word32_at, word64_at};
ghost use Rattle.wire.specs.Blocks.{put_from};

// Whether the slice begins with the mark.
pub fn begins(s: &[u8], mark: &[u8]) -> bool
    ensures { result ≡ begins_with mark.now s.now }
{
    s.starts_with(mark)
}

// The three sizes of numbers have a function each. One that is generic in the size would be no plainer:
// `from_le_bytes` is a method of each of std's types, of no trait, so a trait of our own would have an
// impl for each.

// The 16-bit little-endian number at place i of the slice.
pub fn word(s: &[u8], i: usize) -> u16
    requires { i + 1 < length s.now }
    ensures { result ≡ word_at s.now i }
{
    u16::from_le_bytes([s[i], s[i + 1]])
}

// The 32-bit little-endian number at place i of the slice.
pub fn word32(s: &[u8], i: usize) -> u32
    requires { i + 4 ≤ length s.now }
    ensures { result ≡ word32_at s.now i }
{
    u32::from_le_bytes([s[i], s[i + 1], s[i + 2], s[i + 3]])
}

// The 64-bit little-endian number at place i of the slice.
pub fn word64(s: &[u8], i: usize) -> u64
    requires { i + 8 ≤ length s.now }
    ensures { result ≡ word64_at s.now i }
{
    u64::from_le_bytes([
        s[i],
        s[i + 1],
        s[i + 2],
        s[i + 3],
        s[i + 4],
        s[i + 5],
        s[i + 6],
        s[i + 7],
    ])
}

// Puts the bytes of a slice at a place of another, one by one: `copy_from_slice` would want `memmove` of whoever
// links the library, which it needs for nothing else.
pub fn copy_at(out: &mut [u8], at: usize, bytes: &[u8])
    requires { at + length bytes.now ≤ length out.old }
    ensures { out.new ≡ put_from out.old at 0 bytes.now }
{
    for k in 0..bytes.len() {
        out[at + k] = bytes[k];
    }
}

// Puts a 16-bit little-endian number at a place of a slice.
pub fn put_word(out: &mut [u8], at: usize, number: u16)
    requires { at + 2 ≤ length out.old }
    ensures { out.new ≡ put_from out.old at 0 (word_bytes number) }
{
    copy_at(out, at, &number.to_le_bytes());
}

// Block i of a table becomes this one.
pub fn put_block(table: &mut [u8], i: usize, block: [u8; 8])
    requires { 8 * (i + 1) ≤ length table.old }
    ensures { table.new ≡ put_from table.old (8 * i) 0 block }
{
    copy_at(table, 8 * i, &block);
}

// Zeroes the slice.
pub fn clear(s: &mut [u8])
    ensures { s.new ≡ replicate (length s.old) 0 }
{
    s.fill(0);
}
