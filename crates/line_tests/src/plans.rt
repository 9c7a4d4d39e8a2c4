//! Which plans of the line fit.

use line_end::{HostPlan, LinePlan, Times};

const TIMES: Times = Times {
    t1: 500,
    t2: 10_000,
    rty: 3,
};

#[test]
fn plans_fit_within_their_ranges(rt: HostRuntime) {
    let line = LinePlan {
        device: 0,
        times: TIMES,
        t3: 45_000,
        t4: 45_000,
        max_body: 1_048_576,
    };
    let least = LinePlan {
        device: 0,
        times: Times {
            t1: 100,
            t2: 200,
            rty: 0,
        },
        t3: 1_000,
        t4: 1_000,
        max_body: 244,
    };
    let most = LinePlan {
        device: 32_767,
        times: Times {
            t1: 10_000,
            t2: 25_000,
            rty: 31,
        },
        t3: 120_000,
        t4: 120_000,
        max_body: 7_995_148,
    };
    for good in [line, least, most] {
        assert!(rt;
            good.fits()
                && good.times.fits()
                && HostPlan {
                    line: good,
                    enable: true
                }
                .fits()
        );
    }
    let bad = [
        LinePlan {
            device: 32_768,
            ..line
        },
        LinePlan { t3: 999, ..line },
        LinePlan {
            t3: 120_001,
            ..line
        },
        LinePlan { t4: 999, ..line },
        LinePlan {
            t4: 120_001,
            ..line
        },
        LinePlan {
            max_body: 243,
            ..line
        },
        LinePlan {
            max_body: 7_995_149,
            ..line
        },
        LinePlan {
            times: Times { t1: 99, ..TIMES },
            ..line
        },
        LinePlan {
            times: Times {
                t1: 10_001,
                ..TIMES
            },
            ..line
        },
        LinePlan {
            times: Times { t2: 199, ..TIMES },
            ..line
        },
        LinePlan {
            times: Times {
                t2: 25_001,
                ..TIMES
            },
            ..line
        },
        LinePlan {
            times: Times { rty: 32, ..TIMES },
            ..line
        },
    ];
    for line in bad {
        assert!(rt;
            !line.fits()
                && !HostPlan {
                    line,
                    enable: false
                }
                .fits()
        );
    }
}
