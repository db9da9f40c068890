//! The operators of the language on values of either form, within the costs that the language states.
#![tactic(auto)]

mod boole;
mod choice;
mod comparing;
mod counting;
mod domains;
mod form;
mod listing;
mod orders;
mod products;
mod sampling;
mod shaping;
mod standing;
mod transposing;
mod turned_products;
mod univalent;

pub use boole::{complement, empty, full, inter, union};
pub use choice::{atom, init, inj, next, point};
pub use comparing::{included, same};
pub use counting::count;
pub use domains::{epsi, pair};
pub use form::{square, whole};
pub use listing::{pairs, pairs_within};
pub use orders::{Bound, bounds};
pub use products::{compose, dom, left, ran, right, syq};
pub use transposing::turned;
pub use turned_products::compose_turned;
pub use univalent::unival;
