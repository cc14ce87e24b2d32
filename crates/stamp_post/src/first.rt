// The first seat of a post's table, which makes the actors and takes them back.
use crate::rule::View;
use atomic_table::Seat;
use std::marker::Model;

/// The table's first seat. It counts the actors that it has made.
#[derive(Drop)]
pub(crate) struct FirstSeat {
    pub(crate) seat: Seat<(), View>,
    pub(crate) actors: u8,
    pub(crate) made: u8,
}

impl Model for FirstSeat {
    ghost use Rattle.std.specs.Prelude.{◌≡◌, []};
    ghost use Rattle.stamp_post.specs.declared.rule.View.TheVariants.{Gathering};
    ghost use Rattle.stamp_post.specs.Shown.{post_id};
    ghost use Rattle.stamp_post.specs.Views.{FirstData, first_data, here_in, seats_in, receipts_in};

    ghost Value = { FirstData };

    ghost view = { λ s. first_data (post_id s.seat.table_id s.actors) s.made (here_in s.seat.me.0)
        (seats_in s.seat.me.0) (receipts_in s.seat.me.0) };

    ghost invariant = { λ s. s.seat.me ≡ (
      Gathering s.made (here_in s.seat.me.0) (seats_in s.seat.me.0)
          (receipts_in s.seat.me.0),
      [],
    ) };
}
