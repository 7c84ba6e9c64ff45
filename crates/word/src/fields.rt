// The fields of a word behind label and SDI, and the low ten bits that a label and an SDI make. Every function takes any number.
ghost use Rattle.std.specs.Prelude.{◌≡◌};
ghost use Rattle.word.specs.Fields.{data_bits, sign_status, low_byte, index_of};

// The data bits, bits 11 to 29.
pub fn data_bits(word: u32) -> u32
    ensures { result ≡ data_bits word }
{
    word / 1024 % 524288
}

// The sign/status matrix, bits 30 and 31.
pub fn sign_status(word: u32) -> u32
    ensures { result ≡ sign_status word }
{
    word / 536870912 % 4
}

// The low byte of the words that have a label. Of the label its low eight bits count.
pub fn low_byte(label: u32) -> u32
    ensures { result ≡ low_byte label }
{
    u32::from(crate::label(label))
}

// The SDI/Label index of the words that have a label and an SDI. Of the label its low eight bits count, of the SDI its low two.
pub fn index_of(label: u32, sdi: u32) -> u32
    ensures { result ≡ index_of label sdi }
{
    low_byte(label) + 256 * (sdi % 4)
}
