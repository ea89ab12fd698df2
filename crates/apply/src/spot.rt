/// Where a row of a table is: in a partition, at a position among the rows of the table there.
#[derive(Clone, Copy)]
pub struct Spot {
    pub partition: usize,
    pub position: usize,
}
