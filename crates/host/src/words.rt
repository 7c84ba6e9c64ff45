// The fields of a word for C: each function of `word` under its C name. Every function takes any number.
ghost use Rattle.std.specs.Prelude.{◌≡◌};
ghost use Rattle.word.specs.Word.{sdi, index};
ghost use Rattle.word.specs.Parity.{odd_parity};
ghost use Rattle.word.specs.Fields.{data_bits, sign_status, low_byte, index_of};

// The low byte of the words that have a label.
pub fn nqabelihu_low_byte(label: u32) -> u32
    ensures { result ≡ low_byte label }
{
    word::fields::low_byte(label)
}

// The source/destination identifier, bits 9 and 10.
pub fn nqabelihu_sdi(word: u32) -> u32
    ensures { result ≡ sdi word }
{
    word::sdi(word)
}

// The data bits, bits 11 to 29.
pub fn nqabelihu_data_bits(word: u32) -> u32
    ensures { result ≡ data_bits word }
{
    word::fields::data_bits(word)
}

// The sign/status matrix, bits 30 and 31.
pub fn nqabelihu_sign_status(word: u32) -> u32
    ensures { result ≡ sign_status word }
{
    word::fields::sign_status(word)
}

// The SDI/Label index of a word.
pub fn nqabelihu_index_of_word(word: u32) -> u32
    ensures { result ≡ index word }
{
    word::index(word)
}

// The SDI/Label index of the words that have a label and an SDI.
pub fn nqabelihu_index_of_label(label: u32, sdi: u32) -> u32
    ensures { result ≡ index_of label sdi }
{
    word::fields::index_of(label, sdi)
}

// The word with its parity bit set or cleared so that the count of ones is odd.
pub fn nqabelihu_with_odd_parity(word: u32) -> u32
    ensures { result ≡ odd_parity word }
{
    word::with_odd_parity(word)
}
