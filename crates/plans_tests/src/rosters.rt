use plans::{Roster, RosterFault};

fn refused(parents: &[usize], classes: &[usize], books: usize) -> Option<RosterFault> {
    Roster::from_lists(parents, classes, books).err()
}

#[test]
fn too_few_classes_decide_first(rt: HostRuntime) {
    assert_eq!(rt; refused(&[], &[0, 0], 3), Some(RosterFault::Short));
    assert_eq!(rt; refused(&[], &[0, 0, 0], 3), Some(RosterFault::NoRoster));
}

#[test]
fn parents_that_make_no_roster(rt: HostRuntime) {
    assert_eq!(rt; refused(&[1, 0], &[0], 1), Some(RosterFault::NoRoster));
    assert_eq!(rt; refused(&[0, 1], &[0], 1), Some(RosterFault::NoRoster));
    assert_eq!(rt;
        refused(&[0, 0, 0, 0, 0, 0, 0, 0, 0], &[0], 1),
        Some(RosterFault::NoRoster)
    );
    assert_eq!(rt; refused(&[0, 0, 1, 2, 3, 4, 5, 6], &[7], 1), None);
}

#[test]
fn classes_that_make_no_roster(rt: HostRuntime) {
    assert_eq!(rt; refused(&[0, 0], &[2], 1), Some(RosterFault::NoRoster));
    assert_eq!(rt; refused(&[0, 0], &[1, 2], 1), None);
}
