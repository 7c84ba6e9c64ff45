// Numbers in bytes, the lowest byte first.
#![tactic(auto)]

ghost use Rattle.std.specs.Prelude.{◌≡◌, ◌+◌, ◌≤◌, length};
ghost use Rattle.std.proofs.lemmas.List.Edits.{sets};
ghost use Rattle.little_endian.specs.LittleEndian.{half_at, word_at, two, four};

// The 16-bit number at an index.
pub fn half_at(bytes: &[u8], at: usize) -> u32
    requires { at + 2 ≤ length bytes.now }
    ensures { result ≡ half_at bytes.now at }
{
    u16::from_le_bytes([bytes[at], bytes[at + 1]]).into()
}

// The 32-bit word at an index.
pub fn word_at(bytes: &[u8], at: usize) -> u32
    requires { at + 4 ≤ length bytes.now }
    ensures { result ≡ word_at bytes.now at }
{
    u32::from_le_bytes([bytes[at], bytes[at + 1], bytes[at + 2], bytes[at + 3]])
}

// Puts a 16-bit number at an index.
pub fn put_half(bytes: &mut [u8], at: usize, x: u32)
    requires { at + 2 ≤ length bytes.old }
    ensures { bytes.new ≡ sets bytes.old at (two x) }
{
    let [low, high, _, _] = x.to_le_bytes();
    bytes[at..at + 2].copy_from_slice(&[low, high]);
}

// Puts a 32-bit word at an index.
pub fn put_word(bytes: &mut [u8], at: usize, x: u32)
    requires { at + 4 ≤ length bytes.old }
    ensures { bytes.new ≡ sets bytes.old at (four x) }
{
    bytes[at..at + 4].copy_from_slice(&x.to_le_bytes());
}
