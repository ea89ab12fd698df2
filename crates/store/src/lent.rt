/// Values of one column, lent side by side: numbers of 64 bits, or the bytes of values of one width.
#[derive(Clone, Copy)]
pub enum Lent<'a> {
    Numbers(&'a [i64]),
    Octets { width: usize, bytes: &'a [u8] },
}
