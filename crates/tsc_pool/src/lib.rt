//! One block of words, taken once, that is handed out as rows and used again.
//! Its main type is `Pool`; a `Row` stands for one of its rows that is out, a `RowList` holds rows.
//! It stands on std alone.
//! Its main promise: rows that are out share no word, and a row is refused only where none is free.
//! Its definitions are in `specs/`: Pool, RowList, Laws and Lending.
#![tactic(auto)]

mod laws;
mod pool;
mod row;
mod row_list;

pub use laws::{entries_are_rows_out, rows_share_no_word};
pub use pool::Pool;
pub use row::Row;
pub use row_list::RowList;
