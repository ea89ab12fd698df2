/// A column that a plan names, counted from 0.
#[derive(Clone, Copy, PartialEq, Eq)]
pub enum Column {
    /// A column of the plan's own table.
    Own(u8),
    /// A column of the table that it joins.
    Joined(u8),
}
