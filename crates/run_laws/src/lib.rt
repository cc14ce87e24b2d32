//! Laws of every run of every valid script, with strict transactions or without. Each message comes in time and is
//! enabled; transactions of every kind go by their stages; counters are balanced; a version that nodes are told to show
//! was told before or is quiescent, and what is shown stays complete; no run stalls; and no run has more entries than
//! its script makes. If the coordinator keeps its state, phases have their messages and versions.
//!
//! The locks of votes stand until a decision is applied, and a node sees what its own acts have made of its items. Each
//! act follows its rule and is a move of the Board, and the root of a strict transaction is begun at once or waits by
//! its home's numbers. Reads and votes give values in the serial order, and what reads show stays so. What committed
//! strict transactions got and wrote has its place in the serial order, and takes effect at all of their nodes or at
//! none. Replies tell the client what transactions did. Above its low version a node holds an item in the versions in
//! which its acts write it.
#![tactic(auto)]

mod acts;
mod committed;
mod held;
mod moves;
mod phases;
mod reads;
mod replies;
mod roots;
mod shown;
mod stalls;
mod stays;
mod trees;
mod values;
mod votes;
mod waiting;

pub use acts::{acts_follow_their_rules, strict_trees_are_born_late};
pub use committed::{
    commits_stand_from_their_versions, committed_gets_are_the_fold_before,
    committed_trees_are_all_or_none,
};
pub use held::{what_is_held_was_written, what_is_written_at_the_end};
pub use moves::acts_are_moves;
pub use phases::{
    advances_are_kept, counts_are_small, every_letter_comes_in_time, every_letter_taken_is_apt,
    no_round_without_advancements, nodes_keep_together, phases_have_their_letters,
    requests_are_completions_and_letters, rounds_are_few, versions_keep_to_the_phase,
};
pub use reads::{reads_and_votes_are_right, votes_name_their_causes};
pub use replies::{
    aborted_replies_name_the_lowest_no, read_replies_show_what_is_worth,
    replies_tell_what_was_done, trees_are_answered_once,
};
pub use roots::strict_roots_are_born_or_wait;
pub use shown::{
    nothing_comes_to_what_is_shown, orders_are_given_before_or_in_quiet, orders_are_given_in_quiet,
    what_is_shown_is_whole,
};
pub use stalls::{
    entries_are_counted, entries_are_few, no_run_stalls, nothing_is_kept_at_the_end,
    plain_runs_have_fewer_entries, runs_are_short,
};
pub use stays::{what_reads_show_stays, writers_come_before_reads};
pub use trees::{
    decisions_are_applied_once, decisions_follow_votes, letters_carry_versions, no_step_waits,
    nothing_is_in_the_way, only_strict_trees_are_in_the_way, trees_are_decided_once,
    trees_go_by_stages, turns_come_once,
};
pub use values::nodes_see_their_own_acts;
pub use votes::{nothing_newer_is_held, vote_locks_stand};
pub use waiting::{letters_park_once, letters_stay_kept_for_a_reason, strict_roots_wait_few_times};
