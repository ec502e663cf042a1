// The names of the answers, as the definitions have them.
#![tactic(auto)]

ghost use Rattle.std.specs.Prelude.{◌≡◌};
ghost use Rattle.rules.specs.Answers.{answer_name};

use rules::answer::{
    ARG, BUFFER, DAMAGED, DONE, DUPLICATE, FEED, FIELDS, FROZEN, LINE, LIST, MARKER, NAME, NUMBER,
    OUT, OVERLAP, PLACE, RANGE, RESET, ROOM, SYMBOL, TABLE, TOO_LONG, TYPE,
};

// The name of the answer with this number, nothing where there is none.
#[tactic(auto, unfolding(rules::specs::Answers::answer_name, rules::specs::Answers::name_in, rules::specs::Answers::answers, rules::specs::Text::bytes))]
pub fn answer_name(number: u64) -> &'static str
    ensures { result.now ≡ answer_name number }
{
    match number {
        DONE => "DONE",
        BUFFER => "BUFFER",
        DAMAGED => "DAMAGED",
        RESET => "RESET",
        FROZEN => "FROZEN",
        TOO_LONG => "TOO LONG",
        LINE => "LINE",
        PLACE => "PLACE",
        LIST => "LIST",
        ROOM => "ROOM",
        OVERLAP => "OVERLAP",
        ARG => "ARG",
        RANGE => "RANGE",
        DUPLICATE => "DUPLICATE",
        TABLE => "TABLE",
        NAME => "NAME",
        OUT => "OUT",
        FIELDS => "FIELDS",
        NUMBER => "NUMBER",
        SYMBOL => "SYMBOL",
        MARKER => "MARKER",
        TYPE => "TYPE",
        FEED => "FEED",
        _ => "",
    }
}
