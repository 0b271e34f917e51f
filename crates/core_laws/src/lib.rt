//! Floor of the machine: what holds of the disk at a point, each law a public function without a body whose clause is the law.
#![tactic(auto)]

mod begin_laws;
pub mod count_laws;
mod covered_laws;
mod crash_laws;
mod disk_laws;
mod end_laws;
mod image_laws;
mod keep_laws;
mod loan_laws;
mod opening_laws;
mod place_laws;
mod point_laws;
mod rule_laws;
pub mod store_laws;
mod tied_disk_laws;
mod tied_laws;
mod whole_laws;

pub use begin_laws::{
    begin_keeps_rows, begin_starts_job, begun_make_is_clear, begun_part_has_tree,
    begun_part_is_clear, begun_part_is_not_lent, read_part_is_of_row, refused_begin_keeps_jobs,
    refused_begin_starts_none,
};
pub use covered_laws::{
    bare_give_keeps_nodes, give_keeps_nodes, give_keeps_rough, kept_places_keep_nodes,
    kept_places_keep_rough, settled_give_keeps_rough, take_keeps_nodes, take_keeps_rough,
};
pub use crash_laws::{crash_leaves_image, job_is_returned, nothing_is_returned};
pub use disk_laws::{
    give_brings_part, give_leaves_others, same_keeps_bare, take_and_give_is_same,
    take_leaves_nothing, take_leaves_others,
};
pub use end_laws::{end_keeps_disk, job_gives_keep_disk, job_gives_keep_stored};
pub use image_laws::{disk_image_is_whole, given_task_image_is_whole, taken_task_image_is_whole};
pub use keep_laws::{
    begin_keeps_whole, entry_keeps_whole, job_gives_keep_whole, same_trees_are_whole,
    stored_rows_are_whole,
};
pub use loan_laws::{
    begin_keeps_loans, end_keeps_loans, fewer_loans_are_apart, free_path_is_not_lent,
    give_keeps_out, loan_is_lent, loans_are_out, loans_lie_apart, nothing_is_lent,
    read_part_is_still_lent, take_keeps_out,
};
pub use opening_laws::{
    nothing_is_out, opening_is_covered, opening_is_tied, opening_keeps_again, settled_is_within,
};
pub use place_laws::{
    begin_keeps_node_places, begin_keeps_rough_places, end_keeps_node_places,
    end_keeps_rough_places, ended_make_is_node_place, ended_make_is_rough_place,
    ended_wipe_is_place, refused_begin_keeps_node_places, refused_begin_keeps_rough_places,
    request_keeps_node_places, request_keeps_rough_places, returned_part_is_node_place,
};
pub use point_laws::{end_drops_job, end_leaves_rows, request_keeps_jobs, request_keeps_tied};
pub use rule_laws::{
    begin_keeps_disk, refused_begin_keeps_disk, request_keeps_disk, restart_keeps_disk,
    same_keeps_disk,
};
pub use tied_disk_laws::{
    begin_keeps_tied_disk, end_keeps_tied_disk, opening_is_tied_disk,
    refused_begin_keeps_tied_disk, request_keeps_tied_disk,
};
pub use tied_laws::{
    away_row_is_clear, begin_keeps_clear, begin_keeps_tied, debris_is_clear, end_keeps_tied,
    fewer_spoken_are_tied, give_brings_tree, give_keeps_tied, loan_is_clear, read_row_is_away,
    rows_keep_tied, same_keeps_tree, take_keeps_tied,
};
pub use whole_laws::{
    image_is_whole, kept_rows_stay_whole, lent_give_keeps_whole, more_loans_keep_whole,
    same_keeps_whole, standing_row_is_whole, take_keeps_whole, task_give_keeps_whole,
};
