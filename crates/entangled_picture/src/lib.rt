//! The picture of what logs show: a lane for each machine, a mark for each entry at its stamp, an
//! arrow for each name, and what the report says of damage, gaps, forks, strays and broken rules.
//! It is an SVG document (Scalable Vector Graphics 1.1, W3C 2011) with nothing outside itself.
#![tactic(auto)]

mod bars;
mod drawing;
mod drawn;
mod gap_marks;
mod laws;
mod layout;
mod legend;
mod log_marks;
mod marks;
mod names;
mod picture;
mod placed;
mod seen;
mod shape;
mod shape_list;
mod shape_marks;
mod shapes;

pub use laws::{columns_go_by_stamps, each_finding_has_one_mark};
pub use picture::{add_picture, write_picture};
pub use shape::{Shape, Spot};
pub use shapes::shapes_of;
