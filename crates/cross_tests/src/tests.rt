//! Whole runs: of any model, by the machine that runs it, and of programs.
mod formats;
mod own_totals;
mod programs;
