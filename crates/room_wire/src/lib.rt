//! Messages to events, and replies to bytes.
#![tactic(auto)]

mod answers;
mod asks;
mod fault;
mod forms;
mod messages;
mod questions;
mod serving;

pub use answers::answer::{Answer, refusal_status};
pub use answers::code::{Code, refusal_text};
pub use answers::sending::send_answer;
pub use asks::ask::Ask;
pub use asks::check_ask::decode_check;
pub use asks::decoding::decode;
pub use asks::event::Event;
pub use asks::laws::{check_route_is_one_target, routes_are_three_targets};
pub use asks::route::route;
pub use asks::routed::{Routed, SentRequest};
pub use asks::routing::{CheckRoute, Routes};
pub use fault::WireFault;
pub use forms::command_texts::command_text;
pub use forms::commands::read_command;
pub use forms::laws::{base64_is_the_standards, command_of_text_is_one, command_text_reads_back};
pub use forms::replies::reply_text;
pub use messages::laws::{message_is_one, split_is_one};
pub use messages::message::{Message, Take};
pub use messages::splitting::rest_of_stream;
pub use messages::taking::take_message;
pub use questions::answering::check_answer;
pub use questions::question::Question;
pub use serving::buffers::Buffers;
pub use serving::check_service::{answer_question, fault_code, serve_checks};
pub use serving::laws::answered_are_of_the_split;
pub use serving::service::Service;
pub use serving::stop::{ServeEnd, Why};
pub use serving::stream::serve_messages;
