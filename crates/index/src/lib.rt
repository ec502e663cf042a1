// The entries of a library section, by name: is a name entered twice, and which module enters a name?
//
// The index is one lent array. Cell 0 counts the entries. Then come the slots: a name falls into one of 2,039, by its remainder. Then
// the entries in file order, four cells each: the part, two links, the module. A slot or a link names an entry, from 1, or none, 0.
//
// The entries of a slot are a tree. A search begins at the slot and compares the names of the entries that it meets; from each it goes
// on to one of the two links, by the next bit of the name's quotient, the lowest first. A new entry is put where the search for its
// name ends. So no choice of names costs more: two names of one slot differ in a bit of the quotient, where their ways part. Legal
// names have 48 bits and their quotients 38, and a search meets at most 39 entries (proofs/PathLaws).
#![tactic(auto)]

ghost use Rattle.std.specs.Prelude.{ℕ, ◌+◌, ◌<◌, ◌≤◌, true, ◌≡◌, length, is_err, IsOkUnless};
ghost use Rattle.rules.specs.Limits.{most_modules, most_entries};
ghost use Rattle.rules.specs.Load.{entry_names};
ghost use Rattle.tables.specs.Tables.{most_cells, head_in, module_in};
ghost use Rattle.tables.specs.Heads.{is_entry};
ghost use Rattle.rules.specs.declared.answer.Reason.TheVariants.{Duplicate};
ghost use Rattle.index.specs.Index.{size, count_of, entry_told, owner_at, Indexed, Found, Sought, entered, PartAdded, Filled, ModuleAdded, Cleared, Tested};

use rules::answer::Reason;
use tables::cells::{body_at, head_at};
use tables::heads::is_entry;
use tables::rows::{Section, Tables};

pub const SIZE: usize = 67584;

pub type Index = [u16; SIZE];

// Cell 0 counts the entries.
const COUNT: usize = 0;

// A name falls into one of so many slots, which begin at cell 1.
const SLOTS: u64 = 2039;

const FIRST_SLOT: usize = 1;

// The first cell of the entries, of four cells each; they are counted from 1.
const ENTRIES: usize = 2048;

const ENTRY_0: usize = 2044;

// The cell where the search for a name ends: it leads to the name's entry, or to none.
// Kept: the slots and links are numbers of entries, 0 for none, in one lent array, since the library has no heap for boxes or a map.
fn seek(parts: &[u64], index: &Index, name: u64) -> usize
    requires { Indexed parts.now index.now }
    ensures { Sought parts.now index.now name result }
{
    let mut at = FIRST_SLOT + (name % SLOTS) as usize;
    let mut bits = name / SLOTS;
    let mut k = index[at] as usize;
    while k != 0 {
        let entry = ENTRY_0 + 4 * k;
        if body_at(parts, index[entry] as usize) == name {
            return at;
        }
        at = entry + 1 + (bits % 2) as usize;
        bits /= 2;
        k = index[at] as usize;
    }
    at
}

// The entry of this name, from 0.
pub fn find(parts: &[u64], index: &Index, name: u64) -> Option<usize>
    requires { Indexed parts.now index.now }
    ensures { Found parts.now index.now name (entry_told result) }
{
    let at = seek(parts, index, name);
    (index[at] as usize).checked_sub(1)
}

// The module of an entry.
pub fn owner(index: &Index, entry: usize) -> usize
    requires { entry < 16384 }
    ensures { result ≡ owner_at index.now entry }
{
    index[ENTRIES + 4 * entry + 3] as usize
}

// Puts this part of a module behind the entries, and has the cell lead to it.
#[tactic(auto, unfolding(crate::specs::Index::entered))]
fn enter(at: usize, part: usize, owner: usize, index: &mut Index)
    requires at_lt_size { (at < size) × (part < 65536) × (owner < most_modules) }
    requires index_len { count_of index.old < 16384 }
    ensures { index.new ≡ entered at part owner index.old }
{
    let n = index[COUNT];
    let entry = ENTRIES + 4 * (n as usize);
    index[at] = n + 1;
    index[entry] = part as u16;
    index[entry + 1] = 0;
    index[entry + 2] = 0;
    index[entry + 3] = owner as u16;
    index[COUNT] = n + 1;
}

// Adds a part of a module, if it is an entry; 13 where an entry of its name was there.
fn add_part(parts: &[u64], part: usize, owner: usize, index: &mut Index) -> Result<(), Reason>
    requires part_bound { (part < 65536) × (owner < most_modules) }
    requires indexed { Indexed parts.now index.old × (is_entry (head_in parts.now part) ≡ true → count_of index.old < 16384) }
    ensures added { PartAdded parts.now part owner index.old (is_err result) index.new }
    ensures reason { IsOkUnless result Duplicate }
{
    if !is_entry(head_at(parts, part)) {
        return Ok(());
    }
    let at = seek(parts, index, body_at(parts, part));
    if index[at] != 0 {
        return Err(Reason::Duplicate);
    }
    enter(at, part, owner, index);
    Ok(())
}

// Adds the m-th module of a section; 13 where one of its names is entered again.
fn add_module(tables: Tables, section: Section, m: usize, index: &mut Index) -> Result<(), Reason>
    requires first_bound { (section.first ≤ 65535) × (section.count ≤ most_modules) × (m < section.count) }
    requires parts_len_bound { length tables.parts.now ≤ most_cells }
    requires m_len_bound { length (entry_names (module_in tables.parts.now tables.rows.now (section.first + m))) ≤ most_entries }
    requires filled { Filled tables.parts.now tables.rows.now section.first section.count m index.old }
    ensures added { ModuleAdded tables.entry.parts.now tables.entry.rows.now section.first section.count m (is_err result) index.new }
    ensures reason { IsOkUnless result Duplicate }
{
    let row = section.first + m;
    let start = tables.start(row);
    let count = tables.module_cells(row).len() / 2;
    for q in 0..count {
        add_part(tables.parts, start + q, m, index)?;
    }
    Ok(())
}

// An empty index.
fn clear(index: &mut Index)
    ensures { Cleared 2048 index.new }
{
    index[..ENTRIES].fill(0);
}

// Makes the index of a section's modules; 13 where a name is an entry twice. The index is then of no use.
pub fn make(tables: Tables, section: Section, index: &mut Index) -> Result<(), Reason>
    requires first_bound { (section.first ≤ 65535) × (section.count ≤ most_modules) }
    requires parts_len_bound { length tables.parts.now ≤ most_cells }
    requires by_index { (i : ℕ) → i < section.count → length (entry_names (module_in tables.parts.now tables.rows.now (section.first + i))) ≤ most_entries }
    ensures tested { Tested tables.entry.parts.now tables.entry.rows.now section.first section.count (is_err result) index.new }
    ensures reason { IsOkUnless result Duplicate }
{
    clear(index);
    for m in 0..section.count {
        add_module(tables, section, m, index)?;
    }
    Ok(())
}
