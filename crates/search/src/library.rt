// A library section, as its search sees it.
use index::Index;
use tables::rows::{Section, Tables};

// Its modules in the tables, and the index of their entries.
#[derive(Clone, Copy)]
pub struct Library<'a> {
    pub tables: Tables<'a, 'a>,
    pub section: Section,
    pub index: &'a Index,
}
