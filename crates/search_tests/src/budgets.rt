//! How many boxes a search may look at.

use d_search::{PRODUCT_LIMIT, default_budget, product_of};

#[test]
fn has_a_default_budget_for_each_size(rt: HostRuntime) {
    for (intervals, levels, budget) in [
        (672, 1, 255),
        (744, 256, 173),
        (2976, 256, 43),
        (8928, 256, 13),
        (8928, 1, 255),
    ] {
        assert_eq!(rt; default_budget(intervals, levels), budget);
        assert!(rt; product_of(budget, intervals, levels) <= PRODUCT_LIMIT);
    }
}

#[test]
fn multiplies_sizes(rt: HostRuntime) {
    // 7 pairs, 8929 layers, 256 levels
    assert_eq!(rt; product_of(13, 8928, 256), 16_000_768);
    assert_eq!(rt; product_of(14, 8928, 256), 16_000_768);
    assert_eq!(rt; product_of(15, 8928, 256), 18_286_592);
}
