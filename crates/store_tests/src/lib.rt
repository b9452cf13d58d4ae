//! The tests of tags and of what their stores hold: `t2t_tag`, `t3t_tag`, `t4t_tag`, `t5t_tag` and
//! `tlv_area`.
//!
//! Each speaks of one crate, by its public calls. They stand here since a crate with tests is proved a second time with
//! them; of this crate nothing else is to be proved.
#![tactic(auto)]

#[cfg(test)]
mod area_tests;
#[cfg(test)]
mod plan_tests;
#[cfg(test)]
mod t2_frame_tests;
#[cfg(test)]
mod t2_tests;
#[cfg(test)]
mod t3_tests;
#[cfg(test)]
mod t4_tests;
#[cfg(test)]
mod t5_tests;
