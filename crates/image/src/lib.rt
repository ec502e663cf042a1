// END's output: a record for each placed word, then the end record.
#![tactic(auto)]

ghost use Rattle.std.specs.Prelude.{Some, ◌≡◌, ◌+◌, ◌<◌, ◌≤◌, ◌∷◌, length};
ghost use Rattle.rules.specs.Limits.{program_words};
ghost use Rattle.rules.specs.Image.{two, quarters, word_record, completed, image_of};
ghost use Rattle.state.specs.Layout.{decode};
ghost use Rattle.state.specs.Good.{Good};
ghost use Rattle.state.specs.Words.{Tagged};
ghost use Rattle.image.specs.Output.{end_bytes, record_at, words_of, Written, Puts};

use rules::limits::PROGRAM_WORDS;
use state::table::{undefined_count, value_of};
use state::words::{Placed, high, is_placed, tag, text};

// The kinds of records, and their lengths.
const WORD_RECORD: u8 = 0x57;

const WORD_BYTES: usize = 11;

const END_RECORD: u8 = 0x45;

const END_BYTES: usize = 5;

// The text with a value added to its fourth quarter, modulo 65,536.
#[tactic(auto, unfolding(rules::specs::Image::completed))]
fn complete(text: u64, value: u16) -> u64
    ensures { result ≡ completed text value }
{
    let fourth = (text % 65536) as u16;
    text / 65536 * 65536 + fourth.wrapping_add(value) as u64
}

// A placed word as the image has it.
#[tactic(auto, using(crate::proofs::RecordLaws::record_plain, crate::proofs::RecordLaws::record_linked))]
fn linked_word(state: &[u64], address: usize, placed: Placed) -> u64
    requires good { Good state.now }
    requires address_lt_program_words { (address < program_words) × Tagged (decode state.now) address (Some placed) }
    ensures { record_at (decode state.now) address ≡ word_record address result }
{
    let t = text(state, address);
    match placed {
        Placed::Plain => t,
        Placed::Refers(symbol) => complete(t, value_of(state, symbol)),
    }
}

// The output, and the position up to which it is written.
#[derive(Drop)]
struct Output<'a> {
    bytes: &'a mut [u8],
    at: usize,
}

impl Output<'_> {
    #[tactic(auto, using(std::proofs::lemmas::Slice::overwrites))]
    fn put(&mut self, piece: &[u8])
        requires { self.old.at + length piece.now ≤ length self.old.bytes.now }
        ensures { Puts piece.now self.old self.new }
    {
        let end = self.at + piece.len();
        self.bytes[self.at..end].copy_from_slice(piece);
        self.at = end;
    }

    // A word's record: its kind, its address and its four quarters, all high byte first.
    fn put_word(&mut self, address: u16, word: u64)
        requires { self.old.at + 11 ≤ length self.old.bytes.now }
        ensures { Puts (word_record address word) self.old self.new }
    {
        self.put(&[WORD_RECORD]);
        self.put(&address.to_be_bytes());
        self.put(&word.to_be_bytes());
    }

    // The end record: its kind, HIGH and the number of undefined symbols.
    fn put_end(&mut self, high: u16, undefined: u16)
        requires { self.old.at + 5 ≤ length self.old.bytes.now }
        ensures { Puts (end_bytes high undefined) self.old self.new }
    {
        self.put(&[END_RECORD]);
        self.put(&high.to_be_bytes());
        self.put(&undefined.to_be_bytes());
    }

    // The record of an address, if a word is placed there.
    #[tactic(auto, using(crate::proofs::RecordLaws::record_none, crate::proofs::RecordLaws::word_length, crate::proofs::OutputLaws::puts_nothing))]
    fn put_record(&mut self, state: &[u64], address: usize)
        requires good { Good state.now }
        requires address_lt_program_words { (address < program_words) × (self.old.at + length (record_at (decode state.now) address) ≤ length self.old.bytes.now) }
        ensures { Puts (record_at (decode state.now) address) self.old self.new }
    {
        if let Some(placed) = tag(state, address) {
            let word = linked_word(state, address, placed);
            self.put_word(address as u16, word);
        }
    }

    // The records of all placed words, addresses rising.
    fn put_words(&mut self, state: &[u64])
        requires good { Good state.now }
        requires state_in_bounds { self.old.at + length (words_of (decode state.now)) ≤ length self.old.bytes.now }
        ensures { Puts (words_of (decode state.now)) self.old self.new }
    {
        for address in 0..PROGRAM_WORDS {
            self.put_record(state, address);
        }
    }
}

// How many bytes the image has.
// Kept: a loop. `(0..n).filter(..).count()` proves too, but its machine code tests one word at a time.
#[tactic(auto, using(crate::proofs::WriteLaws::count_from, crate::proofs::WriteLaws::count_end, rules::proofs::ImageLaws::image_length_lem))]
pub fn image_length(state: &[u64]) -> usize
    requires { Good state.now }
    ensures { result ≡ length (image_of (decode state.now)) }
{
    let mut words = 0;
    for address in 0..PROGRAM_WORDS {
        if is_placed(state, address) {
            words += 1;
        }
    }
    words * WORD_BYTES + END_BYTES
}

// The image, at the front of the output; all bytes past it stay. The answer is its length.
pub fn write_image(state: &[u64], out: &mut [u8]) -> usize
    requires good { Good state.now }
    requires state_in_bounds { length (image_of (decode state.now)) ≤ length out.old }
    ensures { Written 0 (image_of (decode state.now)) out.old out.new result }
{
    let mut output = Output { bytes: out, at: 0 };
    output.put_words(state);
    output.put_end(high(state) as u16, undefined_count(state) as u16);
    output.at
}
