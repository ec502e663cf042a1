// Fields that are compared with a text.
ghost use Rattle.std.specs.Prelude.{◌≡◌, [], ◌∷◌};
ghost use Rattle.rules.specs.Text.{same_text};
ghost use Rattle.rules.specs.Line.{marker_of};

// The marker of the block with this code, empty where there is no such block.
#[tactic(auto, unfolding(rules::specs::Text::bytes, rules::specs::Line::headers, rules::specs::Line::row_in, rules::specs::Line::row_of, rules::specs::Line::marker_in))]
pub fn marker_text(code: u16) -> &'static [u8]
    ensures { result.now ≡ marker_of code }
{
    match code {
        0 => b"***CODE",
        1 => b"***END",
        3 => b"***TITLE",
        4 => b"***ENTRY",
        5 => b"***EXT",
        6 => b"***LSB",
        7 => b"***LEB",
        8 => b"***DBDB",
        9 => b"***DBIB",
        10 => b"***FPB",
        11 => b"***AENTRY",
        _ => b"",
    }
}

// Is the field the marker of the block with this code? Where there is no such block, the marker is empty.
#[tactic(auto, using(crate::proofs::MarkerLaws::same_is))]
pub fn is_marker(field: &[u8], code: u16) -> bool
    ensures { result ≡ same_text field.now (marker_of code) }
{
    field == marker_text(code)
}

// Is the field an asterisk?
#[tactic(auto, using(crate::proofs::MarkerLaws::same_is))]
pub fn is_star(field: &[u8]) -> bool
    ensures { result ≡ same_text field.now (42 ∷ []) }
{
    field == b"*".as_slice()
}
