//! The protocol between the client and init: frames of bytes, and the words of a command line.
#![tactic(auto)]

pub mod answer_feed;
mod answers;
pub mod fault;
pub mod feed;
mod fields;
mod frames;
pub mod laws;
mod place;
mod usage;
mod words;
pub mod writing;

pub use answer_feed::AnswerFeed;
pub use answers::MAX_CHUNK;
pub use fault::{FrameFault, WireFault};
pub use feed::Feed;
pub use frames::MAX_PAYLOAD;
pub use place::DEFAULT_SOCKET;
pub use up_model::status_text;
pub use usage::command_line;
pub use words::request_of;
pub use writing::{write_answer, write_request};
