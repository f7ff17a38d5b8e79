//! Rows of lines with blocks between them: texts that the buffer doesn't have, above lines and below them.
#![tactic(auto)]

mod anew;
mod block_lines;
mod block_map;
mod block_marks;
mod block_side;
mod given_lines;
mod laws;
mod map_sync;
mod marks_by_id;
mod placing;
mod row_count;
mod side_sync;
mod snapshot;
mod stop_moves;
mod stops;
mod walking;
mod window;
mod worked;

pub use block_map::BlockMap;
pub use laws::block_laws;
pub use plain_rows::{Kind, Shown};
pub use snapshot::BlockSnapshot;
pub use worked::worked_rows;
