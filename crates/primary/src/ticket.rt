use rows::EntryList;

/// What identifies a commit: its number, its worker and its entries.
#[derive(Drop)]
pub struct Ticket {
    pub number: u64,
    pub worker: u8,
    pub entries: EntryList,
}
