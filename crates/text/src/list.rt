// Numbers of a text put into a lent list, one after the other.
ghost use Rattle.std.specs.Prelude.{◌≡◌, length};
ghost use Rattle.text.specs.Listed.{begun_list, stored, stored_in, parts, listed_byte, list_after};

use crate::token::Token;
use crate::{bytes, token};

// The open token, the numbers stored, and whether one found no room. The list is the caller's, since a program asks for no memory.
#[derive(Clone, Copy)]
pub struct Listed {
    pub token: Token,
    pub count: usize,
    pub full: bool,
}

// No number yet.
pub fn begun() -> Listed
    ensures { result ≡ begun_list }
{
    Listed {
        token: token::none(),
        count: 0,
        full: false,
    }
}

// A token ends: its number is stored where there is room.
#[tactic(auto, using(word::proofs::Branches::branches), unfolding(crate::specs::Listed::stored, crate::specs::Listed::stored_in))]
pub fn stored(list: &mut [u32], at: Listed) -> Listed
    ensures answer { result ≡ stored (length list.old) at }
    ensures after { list.new ≡ stored_in list.old at }
{
    if !at.token.begun {
        return at;
    }
    if at.count < list.len() {
        list[at.count] = token::token_number(at.token);
        return Listed {
            token: token::none(),
            count: at.count + 1,
            ..at
        };
    }
    Listed {
        token: token::none(),
        full: true,
        ..at
    }
}

// Whether a byte parts two numbers.
#[tactic(auto, using(word::proofs::Branches::branches), unfolding(crate::specs::Listed::parts))]
fn parts(byte: u8) -> bool
    ensures { result ≡ parts byte }
{
    byte == b'\n' || bytes::is_blank(byte)
}

// One more byte, of a number in the base.
#[tactic(auto, using(word::proofs::Branches::branches), unfolding(crate::specs::Listed::listed_byte, crate::specs::Listed::list_after))]
pub fn list_byte(list: &mut [u32], base: u32, at: Listed, byte: u8) -> Listed
    ensures answer { result ≡ listed_byte (length list.old) base at byte }
    ensures after { list.new ≡ list_after list.old at byte }
{
    if parts(byte) {
        return stored(list, at);
    }
    Listed {
        token: token::token_byte(base, at.token, byte),
        ..at
    }
}
