// Which letter is taken next: as pickers choose, and by numbers and draws.
use crate::common::script_of;
use letter_types::LetterId;
use sim_runner::{Hold, Newest, Picker, Picks, Starve, simulate_by};
use std::alloc::Global;
use std::test::Fail;
use tv_base::{ActorNo, Stamp};

/// Two transactions of one subtransaction each, at the only node.
const TWO_TREES: &[u8] = b"nodes,1\nupdate,t,0\nupdate,u,0\n";

/// Whether a picker takes these messages, each given by its stamp and place.
fn takes<P: Picker>(alloc: Global, picker: &mut P, wanted: &[(u64, u32)]) -> Result<bool, Fail> {
    let script = script_of(alloc, TWO_TREES)?;
    let history = simulate_by(alloc, &script, picker)?;
    let entries = history.items(alloc)?;
    Ok(
        entries.len() == wanted.len()
            && entries.iter().zip(wanted).all(|(e, w)| e.took.id.stamp.0 == w.0
                && e.took.id.place == w.1),
    )
}

const BY_NEWEST: [(u64, u32); 7] = [(0, 0), (1, 1), (2, 0), (3, 0), (1, 0), (5, 0), (6, 0)];

const STARVED: [(u64, u32); 7] = [(0, 0), (1, 0), (2, 0), (3, 0), (1, 1), (5, 0), (6, 0)];

#[test]
fn pickers_choose_the_order(rt: HostRuntime) -> Result<(), Fail> {
    let alloc = rt.alloc();
    let id = LetterId {
        stamp: Stamp(1),
        place: 0,
    };
    assert!(rt; takes(alloc, &mut Newest, &BY_NEWEST)?);
    assert!(rt; takes(alloc, &mut Starve(ActorNo(0)), &STARVED)?);
    assert!(rt; takes(alloc, &mut Hold(id), &BY_NEWEST)?);
    Ok(())
}

#[test]
fn picks_are_numbers_modulo_a_length(rt: HostRuntime) -> Result<(), Fail> {
    let most = 1 << 31;
    let mut zero = Picks::new(&[], Some(0));
    assert_eq!(rt; zero.place(most), 167_951_807);
    let mut one = Picks::new(&[7, 3], Some(1));
    assert_eq!(rt; one.place(5), 2);
    assert_eq!(rt; one.place(2), 1);
    for want in [908_834_774, 1_093_944_153, 1_392_341_196] {
        assert_eq!(rt; one.place(most), want);
    }
    let mut none = Picks::new(&[4], None);
    assert_eq!(rt; none.place(3), 1);
    assert_eq!(rt; none.place(3), 0);
    Ok(())
}
