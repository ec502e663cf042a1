// What a lookup of a name in the table of symbols tells: how many of the names in order are below it, and its position in the table,
// the count of symbols where there is none.
// Kept: rules' definitions (`halves`, `LookedUp`) and the theorem on how many names a lookup reads say it so.
#[derive(Clone, Copy)]
pub struct Lookup {
    pub rank: usize,
    pub position: usize,
}
