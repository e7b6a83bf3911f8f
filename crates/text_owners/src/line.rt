// The line of the owners: the word `owners` and a number for each word of the plan, one space before each.
ghost use Rattle.std.specs.Prelude.{◌≡◌, ◌<◌, length};
ghost use Rattle.text_fields.specs.Pieces.{pieces, first_piece};
ghost use Rattle.text_owners.specs.Owners.{is_owners_word, owners_line};
ghost use Rattle.text_owners.specs.Needs.{PutsOwner, OwnersLineReady, LineOwns};

use refusals::Fault;
use text_fields::numbers::number_of;
use text_fields::pieces::piece;

const SPACE: u8 = b' ';

// The largest owner: one byte.
const LARGEST_OWNER: u64 = 255;

// Whether a field is the word `owners`.
#[tactic(auto, unfolding(crate::specs::Owners::is_owners_word))]
fn is_owners_word(word: &[u8]) -> bool
    ensures { result ≡ is_owners_word word.now }
{
    word.len() == 6
        && word[0] == b'o'
        && word[1] == b'w'
        && word[2] == b'n'
        && word[3] == b'e'
        && word[4] == b'r'
        && word[5] == b's'
}

// Whether the first field of a line is the word `owners`.
pub fn begins_owners(l: &[u8]) -> bool
    ensures { result ≡ is_owners_word (first_piece (pieces 32 l.now)) }
{
    is_owners_word(piece(l, 0, SPACE))
}

// Stores the owner of a word where it is a byte, and says whether all are so far.
fn put_owner(owners: &mut [u8], word: u32, v: u64, bytes: bool) -> bool
    requires { word < length owners.old }
    ensures { PutsOwner word v bytes result owners.old owners.new }
{
    if LARGEST_OWNER < v {
        return false;
    }
    owners[lists::index(word)] = v as u8;
    bytes
}

// Reads the line of m owners into bytes that are all zero: 3 where it is another line, 16 where an owner is no byte.
pub fn read_line(l: &[u8], m: u32, owners: &mut [u8]) -> Result<(), Fault>
    requires { OwnersLineReady l.now m owners.old }
    ensures { LineOwns (owners_line m l.now) result owners.new }
{
    if !begins_owners(l) {
        return Err(Fault::Malformed);
    }
    let mut at = 6;
    let mut count: u32 = 0;
    let mut bytes = true;
    // A while: only the end of a field says where the next one starts.
    while at < l.len() {
        if count == m {
            return Err(Fault::Malformed);
        }
        let field = piece(l, at + 1, SPACE);
        let Some(v) = number_of(field) else {
            return Err(Fault::Malformed);
        };
        bytes = put_owner(owners, count, v, bytes);
        count += 1;
        at = at + 1 + field.len();
    }
    if count != m {
        return Err(Fault::Malformed);
    }
    if !bytes {
        return Err(Fault::OwnerTooLarge);
    }
    Ok(())
}
