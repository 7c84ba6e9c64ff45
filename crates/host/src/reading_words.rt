// The C interface of readings: what a word reads as by a label list, and a word with a number in it.
ghost use Rattle.std.specs.Prelude.{◌≡◌, pos};
ghost use Rattle.std.specs.Result.{result_unwrap_or};
ghost use Rattle.readings.specs.Reading.{whole, reading, number_of, kind_of, units_of};
ghost use Rattle.readings.specs.Encoding.{encoded};

// What a word reads as: the result is the number, `kind` takes 1 to 3 and `units` the value as a double; zeros beside a refusal.
pub fn nqabelihu_read_word(list: &[u32], word: u32, kind: &mut u32, units: &mut f64) -> u32
    ensures number { result ≡ number_of (reading list.now word) }
    ensures kind { kind.new ≡ kind_of (reading list.now word) }
    ensures units { units.new ≡ units_of (reading list.now word) }
{
    let reading = readings::reading::read(list, word);
    *kind = readings::reading::kind_of(&reading);
    *units = readings::reading::units_of(&reading);
    readings::reading::number_of(&reading)
}

// The whole number in a word, binary undivided; 0 beside a refusal.
pub fn nqabelihu_whole_number(list: &[u32], word: u32) -> i32
    ensures { result ≡ result_unwrap_or (whole list.now word) (pos 0) }
{
    readings::reading::whole(list, word).unwrap_or(0)
}

// The word with a whole number in it: the result is the number, and `result` takes the word, 0 beside a refusal.
pub fn nqabelihu_encode_word(list: &[u32], word: u32, value: i32, res: &mut u32) -> u32
    ensures number { result ≡ number_of (encoded list.now word value) }
    ensures word { res.new ≡ result_unwrap_or (encoded list.now word value) 0 }
{
    let made = readings::encoding::encode(list, word, value);
    *res = made.unwrap_or(0);
    readings::reading::number_of(&made)
}
