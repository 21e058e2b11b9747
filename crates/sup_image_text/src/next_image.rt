//! The next image, by what becomes of the last one.
use sup_edits::Edit;
use sup_tables::LentRow;
use sup_wire::Heading;

/// How the last image's rows become the next one's. All is lent.
#[derive(Drop)]
pub enum RowChange<'a> {
    /// Some go and some come: under each key in order, first those that go and then those that come.
    Edits(Vec<Edit<LentRow<'a>>>),
    /// Those that are to stand, all of them, in their order.
    All(Vec<LentRow<'a>>),
}

/// The next image, by what becomes of the last one.
#[derive(Drop)]
pub struct NextImage<'a> {
    pub heading: Heading<'a>,
    pub rows: RowChange<'a>,
}
