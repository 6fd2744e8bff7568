// Spare figures.
use check::expect;
use timing::{HalfTicks, slack_magnitude, smaller_slack};

pub fn slacks() {
    // the longest period
    expect(HalfTicks(0).slack(30_000) == 60_000);
    // just fit, and misses of one and two
    expect(HalfTicks(52).slack(26) == 0);
    expect(HalfTicks(53).slack(26) == -1);
    expect(HalfTicks(54).slack(26) == -2);
    // near the lowest figure, at it and beyond
    expect(HalfTicks(1_000_000_051).slack(26) == -999_999_999);
    expect(HalfTicks(1_000_000_052).slack(26) == -1_000_000_000);
    expect(HalfTicks(1_000_000_053).slack(26) == -1_000_000_000);
    expect(HalfTicks(4_294_967_295).slack(26) == -1_000_000_000);
}

pub fn smallest() {
    expect(smaller_slack(0, 1) == 0);
    expect(smaller_slack(0, -1) == -1);
    expect(smaller_slack(-2, -1) == -2);
}

pub fn magnitudes() {
    expect(slack_magnitude(0) == 0);
    expect(slack_magnitude(-1) == 1);
    expect(slack_magnitude(2_147_483_647) == 2_147_483_647);
    expect(slack_magnitude(-2_147_483_648) == 2_147_483_648);
}
