//! Answers events, and streams of messages, over a shelf as their history says; an accepted request is one commit.
#![tactic(auto)]

mod client_laws;
mod desk;
mod laws;
mod repeating;
mod requests;
mod run_laws;
mod service;
mod serving;
mod sessions;
mod stop_laws;

pub use client_laws::{
    a_client_that_asks_until_it_is_answered_acts_once, messages_lead_where_their_attempts_do,
    requests_in_turn_run_once, runs_and_stops_take_attempts,
};
pub use desk::Desk;
pub use laws::{
    a_history_begins_with_a_room, a_history_keeps_a_room, a_refused_event_changes_nothing,
    a_repeat_gets_its_first_reply, a_repeated_event_changes_nothing, a_request_leaves_other_slots,
    an_accepted_request_was_allowed, an_idle_event_changes_nothing, no_number_is_accepted_twice,
    open_and_close_sent_again_get_their_first_reply, retry_uncached_tells_of_an_own_request,
    the_bytes_of_documents_show_to_reads_alone, the_kept_row_tells_the_answer,
    what_may_not_be_seen_of_a_history_does_not_show,
};
pub use requests::SlotRequest;
pub use room_wire::Answer;
pub use run_laws::{runs_in_turn_are_one_run, what_may_not_be_seen_of_a_run_does_not_show};
pub use stop_laws::{
    a_request_sent_again_after_a_stop_acts_once, a_run_goes_to_one_history,
    a_stop_leaves_what_was_answered,
};
