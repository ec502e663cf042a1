// The fields of a line against the kinds that they have to be.
ghost use Rattle.std.specs.Prelude.{◌≡◌, ◌+◌, ◌≤◌, length};
ghost use Rattle.rules.specs.Text.{fields_of};
ghost use Rattle.rules.specs.Line.{fit};
ghost use Rattle.line.specs.Fitting.{as_fitted};

use crate::fields::{field_at, no_more};
use rules::line::{Fault, Kind};

// What the fields hold, each at its index.
#[derive(Clone, Copy)]
pub struct FieldsRead {
    pub numbers: [u16; 8],
    pub names: [u64; 8],
}

// What the fields of the line hold. They have to be of these kinds and no more, and the leftmost fault among them is told.
pub fn fit(line: &[u8], kinds: &[Kind]) -> Result<FieldsRead, Fault>
    requires { length kinds.now ≤ 8 }
    ensures { as_fitted kinds.now result ≡ fit (length line.now + 1) kinds.now (fields_of line.now) }
{
    let mut numbers = [0u16; 8];
    let mut names = [0u64; 8];
    let mut i = 0;
    for (k, kind) in kinds.iter().enumerate() {
        let field = field_at(line, i, *kind)?;
        numbers[k] = field.value.number;
        names[k] = field.value.name;
        i = field.end;
    }
    no_more(line, i)?;
    Ok(FieldsRead { numbers, names })
}
