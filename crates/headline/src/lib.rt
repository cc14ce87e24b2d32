//! What is promised of every run: it is a run of the Board and keeps to its rows, its reads are right and stay so, and
//! nodes hold at most three versions and in the end the balances. Each of these is a law of every run. The headline of
//! a run whose client has finished is one record of them, and another record says what holds besides once no message is
//! left.
#![tactic(auto)]

mod board;
mod gates;
mod held;
mod promise;
mod reads;
mod window;

pub use board::{every_run_is_a_board_run, every_run_is_accepted};
pub use gates::{every_run_keeps_to_its_rows, open_gates_stay_open};
pub use held::{no_item_has_held_more_than_three, nodes_hold_the_balances};
pub use promise::{every_finished_run_has_the_headline, every_run_without_letters_has_ended};
pub use reads::no_read_shows_what_was_undone;
pub use window::the_window_refuses_nothing;
