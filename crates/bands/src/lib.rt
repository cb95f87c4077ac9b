//! A tally told as a table: for each band its lengths, its count, its share and a bar.
#![tactic(auto)]

pub mod bar;
pub mod bounds;
pub mod count;
pub mod share;
pub mod table;

pub use bar::{Bar, WIDTH};
pub use bounds::Bounds;
pub use count::{Count, Counter};
pub use share::Share;
pub use table::{Row, Table};
