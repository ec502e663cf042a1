// Where the reading stands before the first line, and the modes that more than one line leads to.
ghost use Rattle.std.specs.Prelude.{◌≡◌};
ghost use Rattle.rules.specs.Reading.{mode, at_start, expect, expect_records, record_done, expect_subs, enter_module};

use rules::line::Expected;
use rules::reading::{Mode, OpenBlock, OpenModule, OpenSection};

#[tactic(auto, unfolding(rules::specs::Reading::at_start))]
pub fn at_start() -> Mode
    ensures { result ≡ at_start }
{
    Mode::default()
}

// The same module and section, with another line expected and another block open. It is made field by field: a struct that is
// copied whole takes its padding along, and the machine then waits for it at each line.
fn with_block(expected: Expected, block: OpenBlock, m: Mode) -> Mode
    ensures { result ≡ mode expected block m.object m.section }
{
    Mode {
        expected,
        block: OpenBlock {
            offset: block.offset,
            count: block.count,
            remaining: block.remaining,
            subs: block.subs,
        },
        object: OpenModule {
            inside: m.object.inside,
            title: m.object.title,
            line: m.object.line,
            entries: m.object.entries,
            externals: m.object.externals,
        },
        section: OpenSection {
            inside: m.section.inside,
            line: m.section.line,
            modules: m.section.modules,
        },
    }
}

#[tactic(auto, unfolding(rules::specs::Reading::expect))]
pub fn expect(expected: Expected, m: Mode) -> Mode
    ensures { result ≡ expect expected m }
{
    with_block(expected, m.block, m)
}

// The same mode, made field by field.
pub fn renewed(m: Mode) -> Mode
    ensures { result ≡ m }
{
    with_block(m.expected, m.block, m)
}

#[tactic(auto, unfolding(rules::specs::Reading::expect_records))]
pub fn expect_records(expected: Expected, offset: u16, count: u16, m: Mode) -> Mode
    ensures { result ≡ expect_records expected offset count m }
{
    let next = if count == 0 {
        Expected::AnyHeader
    } else {
        expected
    };
    let block = OpenBlock {
        offset,
        count,
        remaining: count,
        subs: 0,
    };
    with_block(next, block, m)
}

#[tactic(auto, unfolding(rules::specs::Reading::record_done))]
pub fn record_done(expected: Expected, m: Mode) -> Mode
    ensures { result ≡ record_done expected m }
{
    let remaining = m.block.remaining;
    let next = if remaining <= 1 {
        Expected::AnyHeader
    } else {
        expected
    };
    let block = OpenBlock {
        remaining: remaining.saturating_sub(1),
        subs: 0,
        ..m.block
    };
    with_block(next, block, m)
}

#[tactic(auto, unfolding(rules::specs::Reading::expect_subs))]
pub fn expect_subs(size: u16, m: Mode) -> Mode
    ensures { result ≡ expect_subs size m }
{
    let block = OpenBlock {
        subs: size,
        ..m.block
    };
    with_block(Expected::SubRecord, block, m)
}

#[tactic(auto, unfolding(rules::specs::Reading::enter_module))]
pub fn enter_module(title: u64, m: Mode) -> Mode
    ensures { result ≡ enter_module title m }
{
    Mode {
        expected: Expected::AnyHeader,
        object: OpenModule {
            inside: true,
            title,
            entries: 0,
            externals: 0,
            ..m.object
        },
        ..m
    }
}
