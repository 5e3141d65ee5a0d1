//! The cell over cores of the tests' own, without threads.

mod echo;
mod hopper;
mod lent;
mod outside;
mod rows;
mod ticks;
