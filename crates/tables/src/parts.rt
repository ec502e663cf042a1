// Parts and their two cells.
ghost use Rattle.std.specs.Prelude.{◌≡◌, ◌<◌, ◌^◌};
ghost use Rattle.rules.specs.Line.{code_word};
ghost use Rattle.rules.specs.declared.reading.Part.TheVariants.{EntryPart, WordPart};
ghost use Rattle.tables.specs.Tables.{part_number, kind_of, head_of, address, part_of, word_head, part_head, part_body};

use rules::line::{CodeWord, Entry, Relocation};
use rules::reading::Part;

// What a part is. The number stands in the low three bits of the part's first cell; no part that the reading writes has 0.
#[derive(Clone, Copy, PartialEq, Eq)]
pub enum PartKind {
    NoPart = 0,
    AbsoluteEntry = 1,
    RelocatedEntry = 2,
    External = 3,
    // A CODE header.
    Block = 4,
    PlainWord = 5,
    // A word that refers to an external.
    Reference = 6,
    UnreadWord = 7,
}

// A cell's numbers stand above its kind: an entry's value and parameters, a block's offset and count, each below NUMBERS; a word's
// address, below ADDRESSES, and its external or type.
pub const KINDS: u64 = 8;

pub const NUMBERS: u64 = 65536;

pub const ADDRESSES: u64 = 131072;

// The kind of a part, by its first cell.
pub fn kind_of(head: u64) -> PartKind
    ensures { part_number result ≡ kind_of head }
{
    match head % KINDS {
        1 => PartKind::AbsoluteEntry,
        2 => PartKind::RelocatedEntry,
        3 => PartKind::External,
        4 => PartKind::Block,
        5 => PartKind::PlainWord,
        6 => PartKind::Reference,
        7 => PartKind::UnreadWord,
        _ => PartKind::NoPart,
    }
}

// A part, from its two cells.
#[tactic(auto, unfolding(crate::specs::Tables::part_of))]
pub fn part_of(head: u64, body: u64) -> Part
    ensures { result ≡ part_of head body }
{
    let kind = kind_of(head);
    let n = head / KINDS;
    match kind {
        PartKind::AbsoluteEntry | PartKind::RelocatedEntry => Part::EntryPart(Entry {
            name: body,
            value: (n % NUMBERS) as u16,
            relocated: kind == PartKind::RelocatedEntry,
            parameters: (n / NUMBERS % NUMBERS) as u16,
        }),
        PartKind::External => Part::ExternalPart(body),
        PartKind::Block => Part::BlockPart {
            offset: (n % NUMBERS) as u16,
            count: (n / NUMBERS % NUMBERS) as u16,
        },
        PartKind::PlainWord => word_part(n, body, Relocation::Plain),
        PartKind::Reference => word_part(
            n,
            body,
            Relocation::External((n / ADDRESSES % NUMBERS) as u16),
        ),
        PartKind::UnreadWord => word_part(
            n,
            body,
            Relocation::Unread((n / ADDRESSES % NUMBERS) as u16),
        ),
        PartKind::NoPart => Part::BlockPart {
            offset: 0,
            count: 0,
        },
    }
}

// A code word with this text, from the numbers of its first cell.
fn word_part(n: u64, text: u64, relocation: Relocation) -> Part
    ensures { result ≡ WordPart (address n) (code_word text relocation) }
{
    Part::WordPart {
        address: (n % ADDRESSES) as u32,
        word: CodeWord { text, relocation },
    }
}

// The kind, and the numbers above it.
fn head_of(kind: PartKind, n: u64) -> u64
    requires { n < 2 ^ 61 }
    ensures { result ≡ head_of (part_number kind) n }
{
    kind as u64 + KINDS * n
}

// The first cell of a part.
#[tactic(auto, unfolding(crate::specs::Tables::part_head))]
pub fn part_head(part: Part) -> u64
    ensures { result ≡ part_head part }
{
    match part {
        Part::EntryPart(e) => entry_head(e),
        Part::ExternalPart(_) => PartKind::External as u64,
        Part::BlockPart { offset, count } => head_of(
            PartKind::Block,
            offset as u64 + NUMBERS * (count as u64),
        ),
        Part::WordPart { address, word } => word_head(address, word.relocation),
    }
}

#[tactic(auto, unfolding(crate::specs::Tables::part_head))]
fn entry_head(e: Entry) -> u64
    ensures { result ≡ part_head (EntryPart e) }
{
    let n = e.value as u64 + NUMBERS * (e.parameters as u64);
    let kind = if e.relocated {
        PartKind::RelocatedEntry
    } else {
        PartKind::AbsoluteEntry
    };
    head_of(kind, n)
}

fn word_head(address: u32, relocation: Relocation) -> u64
    ensures { result ≡ word_head address relocation }
{
    let a = address as u64;
    match relocation {
        Relocation::Plain => head_of(PartKind::PlainWord, a),
        Relocation::External(k) => head_of(PartKind::Reference, a + ADDRESSES * (k as u64)),
        Relocation::Unread(kind) => head_of(PartKind::UnreadWord, a + ADDRESSES * (kind as u64)),
    }
}

// The second cell of a part.
#[tactic(auto, unfolding(crate::specs::Tables::part_body))]
pub fn part_body(part: Part) -> u64
    ensures { result ≡ part_body part }
{
    match part {
        Part::EntryPart(e) => e.name,
        Part::ExternalPart(name) => name,
        Part::BlockPart { .. } => 0,
        Part::WordPart { word, .. } => word.text,
    }
}
