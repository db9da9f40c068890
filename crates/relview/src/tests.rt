//! What runs of the program write, and their status.
mod batches;
mod faults;
mod files;
mod gates;
mod outside;
mod pages;
mod runs;
mod surely;
