//! Texts and names, which contracts see as their bytes, and the times and rates that texts say.
#![tactic(auto)]

mod name;
mod quantity;
mod text;

pub use name::Name;
pub use quantity::{read_rate, read_time};
pub use text::Text;
