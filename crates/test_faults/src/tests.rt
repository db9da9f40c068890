//! Properties of many texts: single bytes, truncated texts, and a long chain.
mod bytes;
mod chain;
mod names;
mod prefixes;
