// The walk over what a file holds: the rows in order, free modules placed, sections tested and searched. The order of the table's names
// is made before the first row, and every row keeps it up.
//
// Kept: a refusal is handed on, where a Result would end the walk. The definitions (walk_item and search_section of rules/specs/Load)
// go on from item to item and count the rounds of a walk that is refused too, and walk's clause tells them.
#![tactic(auto)]

ghost use Rattle.std.specs.Prelude.{◌≤◌, ◌<◌, length};
ghost use Rattle.rules.specs.Reading.{free};
ghost use Rattle.rules.specs.Load.{walk_item, walk_items};
ghost use Rattle.rules.proofs.TestLaws.{Every};
ghost use Rattle.rules.proofs.ReadingLaws.{ModuleSound, ItemSound};
ghost use Rattle.tables.specs.Tables.{most_cells, line_in, module_in, modules_in, section_in, items_in};
ghost use Rattle.state.specs.Good.{Good};
ghost use Rattle.order.specs.Order.{Ordered};
ghost use Rattle.search.specs.Libraries.{SectionSound};
ghost use Rattle.walking.specs.Walking.{most_rows, section_rounds, walk_rounds, unwalked, row_step, RowSound, TestedSection, Indexable, Known, Advances};

use index::{Index, SIZE};
use order::{Order, ROOM};
use placing::place_row;
use rules::answer::{DONE, Refusal};
use search::library::Library;
use search::rounds::search;
use tables::rows::{RowKind, Section, Tables};

// How far a walk has come: its refusal, and the rounds of its searches.
#[derive(Clone, Copy)]
pub struct WalkSoFar {
    pub refusal: Refusal,
    pub rounds: usize,
}

// 13 at the section's LSB line, where a name is an entry twice in its modules. Else the index has them.
fn test_section(
    tables: Tables,
    row: usize,
    section: Section,
    refusal: Refusal,
    index: &mut Index,
) -> Refusal
    requires row_lt_most_rows { row < most_rows }
    requires section_sound { SectionSound tables.parts.now tables.rows.now section }
    requires indexable { Indexable tables.parts.now tables.rows.now section }
    ensures tested { TestedSection (line_in tables.entry.rows.now row) (modules_in tables.entry.parts.now tables.entry.rows.now section.first section.count) refusal result }
    ensures known { Known tables.entry.parts.now tables.entry.rows.now section result index.new }
{
    if refusal.number != DONE {
        return refusal;
    }
    match index::make(tables, section, index) {
        Ok(()) => refusal,
        Err(reason) => Refusal {
            number: reason.number(),
            line: tables.line(row),
        },
    }
}

// A section: tested, then searched.
fn walk_section(
    tables: Tables,
    row: usize,
    far: WalkSoFar,
    index: &mut Index,
    order: &mut Order,
    state: &mut [u64],
) -> WalkSoFar
    requires row_lt_most_rows { (row < most_rows) × (far.rounds ≤ walk_rounds) }
    requires parts_len_bound { length tables.parts.now ≤ most_cells }
    requires item_sound { ItemSound (section_in tables.parts.now tables.rows.now row) }
    requires good { Good state.old × Ordered state.old order.old }
    ensures advances { Advances (λ p. walk_item p (section_in tables.entry.parts.now tables.entry.rows.now row)) section_rounds far state.old result state.new }
    ensures ordered { Ordered state.new order.new }
{
    let section = tables.section(row);
    let tested = test_section(tables, row, section, far.refusal, index);
    let library = Library {
        tables,
        section,
        index,
    };
    let found = search(library, tested, order, state);
    WalkSoFar {
        refusal: found.refusal,
        rounds: far.rounds + found.rounds,
    }
}

// A free module: placed.
fn walk_free(
    tables: Tables,
    row: usize,
    far: WalkSoFar,
    order: &mut Order,
    state: &mut [u64],
) -> WalkSoFar
    requires row_lt_most_rows { row < most_rows }
    requires module_sound { ModuleSound (module_in tables.parts.now tables.rows.now row) }
    requires good { Good state.old × Ordered state.old order.old }
    ensures advances { Advances (λ p. walk_item p (free (module_in tables.entry.parts.now tables.entry.rows.now row))) section_rounds far state.old result state.new }
    ensures ordered { Ordered state.new order.new }
{
    WalkSoFar {
        refusal: place_row(tables, row, far.refusal, order, state),
        rounds: far.rounds,
    }
}

// A row: a free module, a section, or a member, which is gone over with its section.
fn walk_row(
    tables: Tables,
    row: usize,
    far: WalkSoFar,
    index: &mut Index,
    order: &mut Order,
    state: &mut [u64],
) -> WalkSoFar
    requires row_lt_most_rows { (row < most_rows) × (far.rounds ≤ walk_rounds) }
    requires parts_len_bound { length tables.parts.now ≤ most_cells }
    requires row_sound { RowSound tables.parts.now tables.rows.now row }
    requires good { Good state.old × Ordered state.old order.old }
    ensures advances { Advances (row_step tables.entry.parts.now tables.entry.rows.now row) section_rounds far state.old result state.new }
    ensures ordered { Ordered state.new order.new }
{
    match tables.kind(row) {
        Some(RowKind::Free) => walk_free(tables, row, far, order, state),
        Some(RowKind::Section) => walk_section(tables, row, far, index, order, state),
        Some(RowKind::Member) => far,
        None => far,
    }
}

// The first n rows, in their order.
pub fn walk(tables: Tables, n: usize, state: &mut [u64]) -> WalkSoFar
    requires n_le_most_rows { (n ≤ most_rows) × (length tables.parts.now ≤ most_cells) }
    requires every { Every ItemSound (items_in tables.parts.now tables.rows.now n) }
    requires good { Good state.old }
    ensures { Advances (λ p. walk_items p (items_in tables.entry.parts.now tables.entry.rows.now n)) walk_rounds unwalked state.old result state.new }
{
    let mut order = [0u8; ROOM];
    order::make(state, &mut order);
    let mut index = [0u16; SIZE];
    let mut far = WalkSoFar {
        refusal: Refusal {
            number: DONE,
            line: 0,
        },
        rounds: 0,
    };
    for row in 0..n {
        far = walk_row(tables, row, far, &mut index, &mut order, state);
    }
    far
}
