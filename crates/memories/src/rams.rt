// The schedule RAM and the message RAM, each named by the offset of its first word.
ghost use Rattle.std.specs.Prelude.{◌≡◌, ◌+◌, ◌<◌};
ghost use Rattle.block.specs.Layout.{Whole, block_words};
ghost use Rattle.memories.specs.Memories.{ram_read, ram_written};

// The word at an address of a RAM.
pub fn read(block: &[u32], ram: usize, address: u32) -> u32
    requires { (Whole block.now) × (ram + address < block_words) }
    ensures { result ≡ ram_read ram address block.now }
{
    block[ram + (address as usize)]
}

// Stores a word at an address of a RAM.
pub fn write(block: &mut [u32], ram: usize, address: u32, value: u32)
    requires { (Whole block.old) × (ram + address < block_words) }
    ensures { block.new ≡ ram_written ram address value block.old }
{
    block[ram + (address as usize)] = value;
}
