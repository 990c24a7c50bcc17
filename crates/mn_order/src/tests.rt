//! The sizes now, then those declared, and the places that the four choices name.
ghost use Rattle.mn_order.specs.Choose.{AreSizes};

use crate::{
    ByLargest, ByOrder, ByRatio, BySmallest, Choice, Chooser, Rule, fixed, largest, ratio, smallest,
};

/// In the order of variables, by the smallest, by the largest and by the ratio.
fn named(now: &[u64], declared: &[u64]) -> [Option<usize>; 4]
    requires { AreSizes now.now declared.now }
{
    [
        fixed(now, declared),
        smallest(now, declared),
        largest(now, declared),
        ratio(now, declared),
    ]
}

/// The same, by choosers.
fn picked(now: &[u64], declared: &[u64]) -> [Option<usize>; 4]
    requires { AreSizes now.now declared.now }
{
    [
        Chooser::new(Choice::Fixed, ByOrder).pick(now, declared),
        Chooser::new(Choice::Smallest, BySmallest).pick(now, declared),
        Chooser::new(Choice::Largest, ByLargest).pick(now, declared),
        Chooser::new(Choice::Ratio, ByRatio).pick(now, declared),
    ]
}

#[test]
fn nothing_is_named_where_all_are_single(rt: HostRuntime) {
    assert_eq!(rt; named(&[], &[]), [None; 4]);
    assert_eq!(rt; named(&[1, 1], &[1, 5]), [None; 4]);
    assert_eq!(rt; picked(&[1, 1], &[1, 1]), [None; 4]);
}

#[test]
fn places_are_named(rt: HostRuntime) {
    let places = [Some(1), Some(2), Some(1), Some(1)];
    assert_eq!(rt; named(&[1, 3, 2, 2], &[9, 9, 2, 3]), places);
    assert_eq!(rt; picked(&[1, 3, 2, 2], &[9, 9, 2, 3]), places);
    assert_eq!(rt;
        named(&[4, 7, 7, 2], &[4, 7, 9, 2]),
        [Some(0), Some(3), Some(1), Some(2)]
    );
}

#[test]
fn the_first_of_equals_is_named(rt: HostRuntime) {
    assert_eq!(rt;
        named(&[2, 4], &[3, 6]),
        [Some(0), Some(0), Some(1), Some(0)]
    );
    assert_eq!(rt;
        named(&[2, 2, 2], &[2, 3, 4]),
        [Some(0), Some(0), Some(0), Some(2)]
    );
}

#[test]
fn the_greatest_sizes_are_compared(rt: HostRuntime) {
    let now = [u64::MAX, u64::MAX - 1];
    let declared = [u64::MAX, u64::MAX];
    assert_eq!(rt;
        named(&now, &declared),
        [Some(0), Some(1), Some(0), Some(1)]
    );
}

#[test]
fn a_rule_names_a_place(rt: HostRuntime) {
    assert_eq!(rt; BySmallest.place(&[1, 2], &[2, 2]), Some(1));
}
