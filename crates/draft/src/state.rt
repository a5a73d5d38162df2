// A sheet that is being entered: how much of each kind is there. What was entered stands in lent
// rows and memory.
#[derive(Drop)]
pub struct Draft {
    pub(crate) fields: usize,
    pub(crate) tables: usize,
    // All cells of all tables, those that are still lacking included.
    pub(crate) cells: usize,
    // How many of them have been entered.
    pub(crate) filled: usize,
    pub(crate) frames: usize,
    pub(crate) parts: usize,
}
