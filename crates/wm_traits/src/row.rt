// The rows of a store.
use wm_base::Text;

/// A row: its table, its key and its body. A table has each key once.
#[derive(Clone, PartialEq, Drop)]
pub struct Row {
    pub tab: u8,
    pub key: Text,
    pub body: Text,
}

/// A change of the tables: a row that is put, in place of the one of its table and key, or the table and key of one that
/// is deleted.
#[derive(Clone, Drop)]
pub enum RowChange {
    Put(Row),
    Del(u8, Text),
}
