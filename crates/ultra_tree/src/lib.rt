//! The trees of combined requests, as an explainer of a machine's events keeps them.
#![tactic(auto)]

mod explaining;
mod heights;
mod listing;
mod nodes;
mod order;
mod short_text;
mod slots;
mod trees;
mod writing;

pub use explaining::{ExplainFault, Explainer};
pub use heights::height;
pub use listing::{Leaf, TreeFault, leaves};
pub use nodes::{Node, Part};
pub use short_text::{SHORT_BYTES, ShortText, add_bytes, add_decimal};
pub use trees::Tree;
pub use writing::write_tree;
