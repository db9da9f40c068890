//! Values of the language, over any engine: whole relations, and thin ones as their lines.
#![tactic(auto)]

mod bases;
mod by_lines;
mod by_whole;
mod closing;
mod comparing;
mod composing;
mod few;
mod forms;
pub mod laws;
mod lines;
mod listings;
mod member;
mod outer;
mod picks;
pub mod recall;
mod residuals;
mod sparse;
pub mod thin;
mod through;
mod turnings;
mod univalent;
mod values;
mod vectors;
mod walks;
mod whole;

pub use bases::{empty, full};
pub use closing::trans;
pub use comparing::{included, same};
pub use composing::compose;
pub use forms::{formed, settled};
pub use lines::{Boole, each};
pub use member::member_lines;
pub use outer::outers;
pub use picks::pick_lines;
pub use recall::{Remembered, Remembers};
pub use residuals::{left, right, syq};
pub use thin::{LEAST, MOST, Thin, Value};
pub use through::{coimages, images, meets};
pub use univalent::unival;
pub use values::{boole, complement, full_lines, transpose, whole as made_whole};
pub use vectors::{is_empty, shape_of};
pub use whole::{assembled, cut_columns, cut_rows};
