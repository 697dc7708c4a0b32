//! All that the program `shop` does, as a library: a program of its own hands it the process's streams.
#![tactic(auto)]

mod process;
mod program;
mod reader;
mod row_form;
mod running;
mod seeded;
mod shop_rows;
mod shop_seeds;

pub use model_program::{Gate, Open};
pub use process::{run_process, run_streams};
pub use program::run_program;
pub use reader::ShopTables;
pub use row_form::RowForm;
pub use seeded::SeededShop;
pub use shop_rows::ShopRows;
pub use shop_seeds::ShopSeeds;
