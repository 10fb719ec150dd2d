//! Commands and replies, and what a command does to a room: its checks, its rights, its effect, and their laws.
#![tactic(auto)]

mod command;
mod laws;
mod reply;

pub use command::Command;
pub use laws::{
    a_command_keeps_a_room, a_command_shows_at_its_paths, a_folder_names_what_is_in_it,
    a_fresh_room_is_a_room, a_list_is_own_entries_and_inherited_ones,
    a_read_gives_what_was_written, a_refused_command_leaves_the_room, a_rename_moves_a_subtree,
    a_success_had_every_right, an_owner_can_always_mend_a_list, bytes_reach_answers_by_read_alone,
    rooms_that_look_alike_stay_alike, what_is_seen_is_told, what_may_not_be_seen_does_not_show,
    what_others_do_unseen_does_not_show, who_has_every_right_is_refused_for_none,
};
pub use reply::{RefusalCode, Reply};
