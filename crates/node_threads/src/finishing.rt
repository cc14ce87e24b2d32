// The cells of a cluster that finishes: out of their locks, put back, and without their states.
ghost use Rattle.std.specs.Prelude.{◌≡◌, ◌↔◌, length, map, IfOk, IsTrue};
ghost use Rattle.history_merge.specs.Merging.{HasRoom, NumberedBy};
ghost use Rattle.node_threads.specs.Cells.{HasAllEntries, cell_data, entries_in};

use crate::cell::ActorCell;
use crossbeam_utils::CachePadded;
use history_merge::{ClusterName, OwnLog};
use stamp_post::ActorSeat;
use std::alloc::Global;
use std::sync::Mutex;
use tv_base::NoMemory;

// Room for the cells outside their locks, for putting them back under locks, and for their logs and seats.
#[derive(Drop)]
pub(crate) struct Room<K: ClusterName> {
    pub(crate) opened: Vec<ActorCell<K>>,
    pub(crate) closed: Vec<CachePadded<Mutex<ActorCell<K>>>>,
    pub(crate) logs: Vec<OwnLog<K>>,
    pub(crate) seats: Vec<ActorSeat>,
}

// Room for so many cells.
pub(crate) fn room_for_cells<K: ClusterName>(
    alloc: Global,
    count: usize,
) -> Result<Room<K>, NoMemory>
    ensures cells { IfOk result (λ r. HasRoom count r.opened × HasRoom count r.closed) }
    ensures logs { IfOk result (λ r. HasRoom count r.logs) }
    ensures seats { IfOk result (λ r. HasRoom count r.seats) }
{
    Ok(Room {
        opened: Vec::with_capacity(alloc, count)?,
        closed: Vec::with_capacity(alloc, count)?,
        logs: Vec::with_capacity(alloc, count)?,
        seats: Vec::with_capacity(alloc, count)?,
    })
}

// The cells out of their locks, in order.
pub(crate) fn opened<K: ClusterName>(
    cells: Vec<CachePadded<Mutex<ActorCell<K>>>>,
    room: Vec<ActorCell<K>>,
) -> Vec<ActorCell<K>>
    requires { HasRoom (length cells.items) room }
    ensures { length result.items ≡ length cells.items }
{
    let mut opened = room;
    for padded in cells {
        opened.push_reserved(padded.into_inner().into_inner());
    }
    opened
}

// The cells under locks again, in order.
pub(crate) fn closed_again<K: ClusterName>(
    cells: Vec<ActorCell<K>>,
    room: Vec<CachePadded<Mutex<ActorCell<K>>>>,
) -> Vec<CachePadded<Mutex<ActorCell<K>>>>
    requires { HasRoom (length cells.items) room }
    ensures { length result.items ≡ length cells.items }
{
    let mut closed = room;
    for cell in cells {
        closed.push_reserved(CachePadded::new(Mutex::new(cell)));
    }
    closed
}

// Whether each cell's number is its place: no clause ties a lock's place to what lies under it.
#[tactic(auto, using(crate::proofs::AllEntries::numbering))]
fn are_in_order<K: ClusterName>(cells: &[ActorCell<K>]) -> bool
    ensures { IsTrue result ↔ NumberedBy (λ c. c.number) 0 cells.now }
{
    for (place, cell) in cells.iter().enumerate() {
        if cell.number().0 as usize != place {
            return false;
        }
    }
    true
}

// Whether the cells have so many entries together.
#[tactic(auto, using(crate::proofs::AllEntries::counting))]
fn have_together<K: ClusterName>(cells: &[ActorCell<K>], count: usize) -> bool
    ensures { IsTrue result ↔ (count ≡ entries_in cells.now) }
{
    let mut left = count;
    for cell in cells {
        let own = cell.count();
        if left < own {
            return false;
        }
        left -= own;
    }
    left == 0
}

// Whether the cells are in order, and as many entries are recorded as they have.
#[tactic(auto, using(crate::proofs::AllEntries::holding))]
pub(crate) fn is_whole<K: ClusterName>(cells: &[ActorCell<K>], recorded: usize) -> bool
    ensures { IsTrue result ↔ HasAllEntries cells.now recorded }
{
    are_in_order(cells) && have_together(cells, recorded)
}

// The actors' own logs, in the room for them.
pub(crate) fn logs_of<K: ClusterName>(
    cells: Vec<ActorCell<K>>,
    room: Vec<OwnLog<K>>,
) -> Vec<OwnLog<K>>
    requires { HasRoom (length cells.items) room }
    ensures { map (λ l. cell_data l.number l.entries) result.items ≡ cells.items }
{
    let mut logs = room;
    for cell in cells {
        logs.push_reserved(cell.into_log());
    }
    logs
}
