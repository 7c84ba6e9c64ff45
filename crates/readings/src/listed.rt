// The entry of a label list that counts for a word.
ghost use Rattle.std.specs.Prelude.{◌≡◌};
ghost use Rattle.readings.specs.Listed.{listed};

use crate::refusals::Refusal;
use label_list::entries;
use label_list::entries::Entry;

pub(crate) fn listed(list: &[u32], word: u32) -> Result<Entry, Refusal>
    ensures { result ≡ listed list.now word }
{
    if entries::list_wrong(list) {
        return Err(Refusal::ListRefused);
    }
    entries::find(u32::from(word::label(word)), list).ok_or(Refusal::NoEntry)
}
