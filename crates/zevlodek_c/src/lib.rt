//! For C: the proved reader and writer of tags, and ends of links, as functions over numbers and bytes.
//!
//! C keeps what passed between its reader and a tag in memory of its own, a log (`log`), and hands it in each time;
//! what comes back is the next command, or the end (`reading`). A tag's memory is C's too, where it answers as one
//! (`tags`, `t4_tags`, `t5_tags`), and so is one that was read out (`dumps`). What came on a link of LLCP is kept
//! likewise (`payloads`), and a far end of it is one behind these payloads (`peer`); the near end is a client behind
//! its calls and the replies (`near`, over `far`), and `general` has the bytes with which such a link begins. Both ends
//! of ISO-DEP (`iso`) and of NFC-DEP (`dep`) are functions of what came (`entries`). No call keeps anything: each is a
//! function of what it is given. `c/zevlodek.h` declares the calls.
#![tactic(auto)]

mod codes;
mod dep;
mod dumps;
mod entries;
mod far;
mod general;
mod iso;
mod log;
mod near;
mod payloads;
mod peer;
mod reading;
mod showing;
mod t4_tags;
mod t5_tags;
mod tags;
