//! Frames, words, and the client, of what no contract can say: bytes that are written out, and peers.
mod frames;
mod memory;
mod peers;
mod statuses;
mod streams;
mod words;
