// Going over the parts that stand in cells.
ghost use Rattle.std.specs.Prelude.{◌≡◌};
ghost use Rattle.std.specs.Iterator.{YieldsFirst, item_count};
ghost use Rattle.tables.specs.Iter.{parts_left, pairs_of};

// A part, as it stands in its two cells.
#[derive(Clone, Copy)]
pub struct PartCells {
    pub head: u64,
    pub body: u64,
}

// The parts that are left, one after the other. A cell behind the last part is no part.
#[derive(Clone, Copy)]
pub struct Parts<'a> {
    pub cells: &'a [u64],
}

impl<'a> Parts<'a> {
    pub fn of(cells: &'a [u64]) -> Parts<'a>
        ensures { parts_left result ≡ pairs_of cells.now }
    {
        Parts { cells }
    }
}

impl<'a> Iterator for Parts<'a> {
    type Item = PartCells;

    ghost next_gives = { YieldsFirst parts_left };

    ghost remaining = { item_count parts_left };

    #[tactic(auto, unfolding(crate::specs::Iter::pairs_of))]
    fn next(&mut self) -> Option<PartCells> {
        let [head, body, rest @ ..] = self.cells else {
            return None;
        };
        self.cells = rest;
        Some(PartCells {
            head: *head,
            body: *body,
        })
    }
}
