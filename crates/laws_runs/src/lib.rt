//! Worked lines and laws of the definitions of a run: the words, small runs, the rows at their start,
//! where one is cut short, and alerts, rules and worlds.
#![tactic(auto)]

pub mod cut_short;
pub mod fronts;
pub mod headline;
pub mod recovery;
pub mod rows;
pub mod runs;
pub mod unused;
pub mod words;
pub mod world_laws;
