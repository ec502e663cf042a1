// What a data record does.
ghost use Rattle.std.specs.Prelude.{◌≡◌};
ghost use Rattle.rules.specs.Reading.{closing_step, entry_step, external_step, word_part, record_done, parameter_step, sub_step};
ghost use Rattle.rules.specs.declared.line.Expected.TheVariants.{CodeRecord};
ghost use Rattle.rules.specs.declared.reading.Step.TheVariants.{Add};

use crate::modes::{expect_subs, record_done};
use crate::stops::{list_full, misplaced};
use rules::limits::{MOST_ENTRIES, MOST_EXTERNALS};
use rules::line::{CodeWord, Entry, Expected};
use rules::reading::{Mode, Part, Step};

#[tactic(auto, unfolding(rules::specs::Reading::closing_step, rules::specs::Reading::leave_module))]
pub fn closing_step(m: Mode, title: u64) -> Step
    ensures { result ≡ closing_step m title }
{
    if title == m.object.title {
        let left = Mode {
            section: m.section,
            ..Mode::default()
        };
        return Step::CloseModule(left, m.object.line);
    }
    misplaced()
}

#[tactic(auto, unfolding(rules::specs::Reading::entry_step, rules::specs::Reading::count_entry))]
pub fn entry_step(mut m: Mode, e: Entry) -> Step
    ensures { result ≡ entry_step m e }
{
    if m.object.entries < MOST_ENTRIES {
        m.object.entries += 1;
        return Step::Add(record_done(Expected::EntryRecord, m), Part::EntryPart(e));
    }
    list_full()
}

#[tactic(auto, unfolding(rules::specs::Reading::external_step, rules::specs::Reading::count_external))]
pub fn external_step(mut m: Mode, name: u64) -> Step
    ensures { result ≡ external_step m name }
{
    if m.object.externals < MOST_EXTERNALS {
        m.object.externals += 1;
        return Step::Add(
            record_done(Expected::ExternalRecord, m),
            Part::ExternalPart(name),
        );
    }
    list_full()
}

// A word of the open block, at its address from the module's base.
pub fn word_part(m: Mode, word: CodeWord) -> Part
    ensures { result ≡ word_part m word }
{
    let index = m.block.count.saturating_sub(m.block.remaining);
    Part::WordPart {
        address: m.block.offset as u32 + index as u32,
        word,
    }
}

pub fn word_step(m: Mode, word: CodeWord) -> Step
    ensures { result ≡ Add (record_done CodeRecord m) (word_part m word) }
{
    Step::Add(record_done(Expected::CodeRecord, m), word_part(m, word))
}

#[tactic(auto, unfolding(rules::specs::Reading::parameter_step))]
pub fn parameter_step(m: Mode, size: u16) -> Step
    ensures { result ≡ parameter_step m size }
{
    if size == 0 {
        return Step::Next(record_done(Expected::ParameterRecord, m));
    }
    Step::Next(expect_subs(size, m))
}

#[tactic(auto, unfolding(rules::specs::Reading::sub_step))]
pub fn sub_step(m: Mode) -> Step
    ensures { result ≡ sub_step m }
{
    let subs = m.block.subs;
    if subs <= 1 {
        return Step::Next(record_done(Expected::ParameterRecord, m));
    }
    Step::Next(expect_subs(subs - 1, m))
}
