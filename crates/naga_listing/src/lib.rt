//! Lists the lines around a position in a module, numbered, with what is wrong there.
//!
//! [`listing`] chooses the lines, and [`explain`] writes them as a text, with a message under the
//! line of the position. Whether the module is accepted does not matter: what it names and has not
//! is told by its number. Items are found by [`item_at`] and [`entry_point_at`], and statements by
//! their numbers by [`statement_at`].
#![tactic(auto)]

mod choice;
mod declarations;
mod expressions;
mod givers;
mod items;
mod lines;
mod lookup;
mod named;
mod numbers;
mod one_line;
mod operands;
mod positions;
mod statement_words;
mod text;
mod types;

pub use choice::{listing, listing_with};
pub use givers::giver_of;
pub use lookup::{entry_point_at, item_at};
pub use numbers::{past_block, past_statement, statement_at};
pub use one_line::on_one_line;
pub use operands::MOST_FIELDS;
pub use positions::{Line, LineKind, Listed, ListingPosition, Spot, Title};
pub use text::{explain, explain_with};
