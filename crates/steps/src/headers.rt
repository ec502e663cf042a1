// What a header does.
ghost use Rattle.std.specs.Prelude.{◌≡◌};
ghost use Rattle.rules.specs.Reading.{expect_records, inside_module, title_step, library_step, library_end_step, header_step};
ghost use Rattle.rules.specs.declared.reading.Step.TheVariants.{Next};

use crate::modes::{expect, expect_records};
use crate::stops::{list_full, misplaced};
use rules::limits::MOST_MODULES;
use rules::line::{Expected, Header};
use rules::reading::{Mode, OpenModule, OpenSection, Part, Step};

// A TITLE header at line n; in a section it counts one more module.
#[tactic(auto, unfolding(rules::specs::Reading::title_step, rules::specs::Reading::title_header))]
fn title_step(n: u32, m: Mode) -> Step
    ensures { result ≡ title_step n m }
{
    if m.object.inside {
        return misplaced();
    }
    let mut section = m.section;
    if section.inside {
        if MOST_MODULES <= section.modules {
            return list_full();
        }
        section.modules += 1;
    }
    Step::Next(Mode {
        expected: Expected::OpeningTitle,
        object: OpenModule {
            line: n,
            ..OpenModule::default()
        },
        section,
        ..m
    })
}

#[tactic(auto, unfolding(rules::specs::Reading::library_step, rules::specs::Reading::enter_section))]
fn library_step(n: u32, m: Mode) -> Step
    ensures { result ≡ library_step n m }
{
    if m.object.inside || m.section.inside {
        return misplaced();
    }
    Step::Next(Mode {
        expected: Expected::AnyHeader,
        section: OpenSection {
            inside: true,
            line: n,
            modules: 0,
        },
        ..m
    })
}

#[tactic(auto, unfolding(rules::specs::Reading::library_end_step, rules::specs::Reading::leave_section))]
fn library_end_step(m: Mode) -> Step
    ensures { result ≡ library_end_step m }
{
    if m.object.inside || !m.section.inside {
        return misplaced();
    }
    let left = Mode {
        expected: Expected::AnyHeader,
        section: OpenSection::default(),
        ..m
    };
    Step::CloseSection(left, m.section.line)
}

// The header of a block whose records are of one kind, which may only stand in a module. That is tested first: a step that is made before
// the test is chosen field by field, and the reading's loop then asks once more which step it is.
fn records_header(expected: Expected, count: u16, m: Mode) -> Step
    ensures { result ≡ inside_module m (Next (expect_records expected 0 count m)) }
{
    if !m.object.inside {
        return misplaced();
    }
    Step::Next(expect_records(expected, 0, count, m))
}

#[tactic(auto, unfolding(rules::specs::Reading::header_step))]
pub fn header_step(n: u32, m: Mode, header: Header) -> Step
    ensures { result ≡ header_step n m header }
{
    match header {
        Header::CodeBlock { count, offset } => {
            if !m.object.inside {
                return misplaced();
            }
            let records = expect_records(Expected::CodeRecord, offset, count, m);
            Step::Add(records, Part::BlockPart { offset, count })
        }
        Header::EndBlock => {
            if !m.object.inside {
                return misplaced();
            }
            Step::Next(expect(Expected::ClosingTitle, m))
        }
        Header::TitleBlock => title_step(n, m),
        Header::EntryBlock(count) => records_header(Expected::EntryRecord, count, m),
        Header::ExternalBlock(count) => records_header(Expected::ExternalRecord, count, m),
        Header::LibraryStart => library_step(n, m),
        Header::LibraryEnd => library_end_step(m),
        Header::DataBlock(count) => records_header(Expected::DataRecord, count, m),
        Header::InitBlock(count) => records_header(Expected::InitRecord, count, m),
        Header::ParameterBlock(count) => records_header(Expected::ParameterRecord, count, m),
    }
}
