//! The control of the router: what the sessions say comes in, their routes are kept and the source
//! sets with them, and the cells of the sets are published in batches under numbers.
#![tactic(auto)]

mod batch_laws;
mod commands;
mod control;
mod counted_engine;
mod item_step;
mod laws;
mod limits;
mod marks;
mod offering;
mod opening;
mod peering;
mod publishing;
mod pulling;
mod reassembly;
mod receive_buffer;
mod row_updates;
mod set_edits;
mod table;

pub use batch_laws::{fold_judges_as_world, shown_laws, world_laws};
pub use control::Control;
pub use counted_engine::{PAIRS_MOST, ROWS_MOST};
pub use laws::{
    assigned_limits, cuts_do_not_count, items_of_a_front, one_list_of_items, one_rest, one_run,
};
pub use limits::{ITEM_LIMIT, Limits, OCTET_LIMIT, RunFault};
pub use marks::{Mark, Marks};
pub use offering::offer;
pub use table::{apply_item, apply_update, one_more_update};
