//! Worked schedules of 4 rows and 2 passes.

use era_core::PlayRefusal::Illegal;
use era_core::{Core, Event, PlayRefusal};

fn note(pass: u32) -> Event {
    Event::Note { pass }
}

fn announce(pass: u32) -> Event {
    Event::Announce { pass }
}

fn pin(pass: u32) -> Event {
    Event::Pin { pass }
}

fn read(pass: u32, row: u32, place: u32) -> Event {
    Event::Read { pass, row, place }
}

fn take(pass: u32, row: u32) -> Event {
    Event::Take { pass, row }
}

fn write(pass: u32, row: u32, place: u32, word: u64) -> Event {
    Event::Write {
        pass,
        row,
        place,
        word,
    }
}

fn publish(pass: u32, root: u32) -> Event {
    Event::Publish { pass, root }
}

fn unpin(pass: u32) -> Event {
    Event::Unpin { pass }
}

fn look(pass: u32, other: u32) -> Event {
    Event::Look { pass, other }
}

fn free(pass: u32, row: u32) -> Event {
    Event::Free { pass, row }
}

/// The root, the owners and the announcements.
type Words = ((u64, u32), [u32; 4], [u64; 2]);

/// What a schedule leaves.
fn played(rt: &HostRuntime, events: &[Event]) -> Result<Words, PlayRefusal> {
    let core = Core::play(rt.alloc(), 4, 2, events)?;
    let owners = [core.owner(0), core.owner(1), core.owner(2), core.owner(3)];
    Ok((
        core.root(),
        owners,
        [core.announcement(0), core.announcement(1)],
    ))
}

#[test]
fn two_passes_publish_read_and_reclaim(rt: HostRuntime) {
    let events = [
        note(1),
        note(0),
        announce(0),
        pin(0),
        take(0, 1),
        write(0, 1, 0, 0),
        publish(0, 1),
        unpin(0),
        announce(1),
        pin(1),
        note(0),
        announce(0),
        pin(0),
        take(0, 2),
        write(0, 2, 0, 0),
        publish(0, 2),
        unpin(0),
        look(0, 0),
        look(0, 1),
        read(1, 1, 0),
        unpin(1),
        look(0, 0),
        look(0, 1),
        free(0, 0),
        free(0, 1),
    ];
    let core = Core::play(rt.alloc(), 4, 2, &events).expect(&rt, "each event is allowed");
    assert_eq!(rt; core.root(), (2, 2));
    assert_eq!(rt;
        [core.owner(0), core.owner(1), core.owner(2), core.owner(3)],
        [0, 0, 1, 0]
    );
    assert_eq!(rt; [core.announcement(0), core.announcement(1)], [0, 0]);
    assert_eq!(rt; core.last_read(1), Some(0));
    assert_eq!(rt; core.cell(2, 0), 0);
}

#[test]
fn a_row_that_is_still_read_is_not_freed(rt: HostRuntime) {
    let events = [
        note(1),
        note(0),
        announce(0),
        pin(0),
        take(0, 1),
        write(0, 1, 0, 0),
        publish(0, 1),
        unpin(0),
        announce(1),
        pin(1),
        note(0),
        announce(0),
        pin(0),
        take(0, 2),
        write(0, 2, 0, 0),
        publish(0, 2),
        unpin(0),
        look(0, 0),
        look(0, 1),
        free(0, 1),
        read(1, 1, 0),
        unpin(1),
        look(0, 0),
        look(0, 1),
        free(0, 0),
    ];
    assert_eq!(rt; played(&rt, &events), Err(Illegal(19)));
}

#[test]
fn a_fresh_row_is_given_back(rt: HostRuntime) {
    let events = [
        note(1),
        note(0),
        announce(0),
        pin(0),
        take(0, 1),
        write(0, 1, 0, 0),
        free(0, 1),
    ];
    let core = Core::play(rt.alloc(), 4, 2, &events).expect(&rt, "each event is allowed");
    assert_eq!(rt; core.owner(1), 0);
    assert_eq!(rt; core.announcement(0), 1);
}

#[test]
fn answers_hostile_schedules(rt: HostRuntime) {
    let schedules: [(&[Event], Result<Words, PlayRefusal>); 12] = [
        (&[pin(0)], Err(Illegal(0))),
        (&[note(0), announce(0), announce(0)], Err(Illegal(2))),
        (&[note(0), announce(0), unpin(0)], Err(Illegal(2))),
        (&[take(0, 1), write(1, 1, 0, 0)], Err(Illegal(1))),
        // row 1 links itself
        (
            &[
                note(0),
                announce(0),
                pin(0),
                take(0, 1),
                write(0, 1, 0, 4),
                write(0, 1, 1, 1),
                publish(0, 1),
            ],
            Err(Illegal(6)),
        ),
        // row 0 is not fresh
        (
            &[note(0), announce(0), pin(0), publish(0, 0)],
            Err(Illegal(3)),
        ),
        (&[look(0, 1)], Err(Illegal(0))),
        // the scan is not whole
        (
            &[
                note(1),
                note(0),
                announce(0),
                pin(0),
                take(0, 1),
                write(0, 1, 0, 0),
                publish(0, 1),
                unpin(0),
                look(0, 0),
                free(0, 0),
            ],
            Err(Illegal(9)),
        ),
        // the version of the batch is announced
        (
            &[
                note(1),
                note(0),
                announce(0),
                pin(0),
                take(0, 1),
                write(0, 1, 0, 0),
                publish(0, 1),
                unpin(0),
                announce(1),
                look(0, 0),
                look(0, 1),
                free(0, 0),
            ],
            Err(Illegal(11)),
        ),
        // the first of two publications wins
        (
            &[
                note(0),
                note(1),
                announce(0),
                announce(1),
                pin(0),
                pin(1),
                take(0, 1),
                write(0, 1, 0, 0),
                take(1, 2),
                write(1, 2, 0, 0),
                publish(0, 1),
                publish(1, 2),
                free(1, 2),
            ],
            Ok(((1, 1), [1, 1, 0, 0], [1, 1])),
        ),
        (
            &[note(0), announce(0), pin(0), read(0, 1, 0)],
            Err(Illegal(3)),
        ),
        (&[take(0, 4)], Err(Illegal(0))),
    ];
    for (events, answer) in schedules {
        assert_eq!(rt; played(&rt, events), answer, "{events:?}");
    }
}
