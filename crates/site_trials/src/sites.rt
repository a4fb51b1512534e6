// Sites, and figures that were worked out by hand.
use cabins::report::report;
use site::figure::cabin_figure;
use site::tallies::site_figure;
use std::test::Fail;
use terms::answer::Refusal;
use terms::tally::Tally;

// The largest count of a tally.
const LARGEST: u64 = 1_099_511_627_776;

// A tally with a figure from before.
const OLD: Tally = Tally {
    packets: 2,
    sendings: 3,
    figure: 9,
};

// Tallies with their own figures.
const CABINS: [Tally; 9] = [
    Tally {
        packets: 0,
        sendings: 0,
        figure: 0,
    },
    Tally {
        packets: 0,
        sendings: 5,
        figure: 0,
    },
    Tally {
        packets: 1,
        sendings: 1,
        figure: 100,
    },
    Tally {
        packets: 3,
        sendings: 4,
        figure: 133,
    },
    Tally {
        packets: 7,
        sendings: 20,
        figure: 285,
    },
    Tally {
        packets: 201,
        sendings: 2,
        figure: 0,
    },
    Tally {
        packets: LARGEST,
        sendings: LARGEST,
        figure: 100,
    },
    Tally {
        packets: LARGEST,
        sendings: 1,
        figure: 0,
    },
    Tally {
        packets: 1,
        sendings: LARGEST,
        figure: 109_951_162_777_600,
    },
];

// One cabin alone: its figure is the site's.
#[test]
fn cabins(rt: HostRuntime) {
    for cabin in CABINS {
        let mut site = [Tally { figure: 9, ..cabin }];
        assert_eq!(rt; cabin_figure(&site[0]), Ok(cabin.figure));
        assert_eq!(rt; site_figure(&mut site), Ok(cabin.figure));
        assert_eq!(rt; site[0], cabin);
    }
}

// The site's figure is that of the sums: 6 sendings of 4 packets, and not 300 and 100 and 0 in any way.
#[test]
fn sums(rt: HostRuntime) {
    let mut site = [
        Tally {
            packets: 1,
            sendings: 3,
            figure: 0,
        },
        Tally {
            packets: 3,
            sendings: 3,
            figure: 7,
        },
        Tally {
            packets: 0,
            sendings: 0,
            figure: 8,
        },
    ];
    assert_eq!(rt; site_figure(&mut site), Ok(150));
    assert_eq!(rt; site.map(|tally| tally.figure), [300, 100, 0]);
}

// 1 to 400 cabins.
#[test]
fn sizes(rt: HostRuntime) {
    let mut none: [Tally; 0] = [];
    assert_eq!(rt; site_figure(&mut none), Err(Refusal::SiteList));
    let mut one = [OLD; 1];
    assert_eq!(rt; site_figure(&mut one), Ok(150));
    assert_eq!(rt; one[0].figure, 150);
    let mut most = [OLD; 400];
    assert_eq!(rt; site_figure(&mut most), Ok(150));
    assert!(rt; most.iter().all(|tally| tally.figure == 150));
    let mut more = [OLD; 401];
    assert_eq!(rt; site_figure(&mut more), Err(Refusal::SiteList));
    assert!(rt; more.iter().all(|tally| tally.figure == 9));
}

// A lent part of a list is a site of its own.
#[test]
fn parts(rt: HostRuntime) {
    let mut site = [OLD; 3];
    assert_eq!(rt; site_figure(&mut site[1..2]), Ok(150));
    assert_eq!(rt; site.map(|tally| tally.figure), [9, 150, 9]);
}

// 400 cabins with the largest counts.
#[test]
fn largest_site(rt: HostRuntime) {
    let mut site = [Tally {
        packets: LARGEST,
        sendings: LARGEST,
        figure: 9,
    }; 400];
    assert_eq!(rt; site_figure(&mut site), Ok(100));
    assert!(rt; site.iter().all(|tally| tally.figure == 100));
}

// A count above 2^40, wherever it stands, and nothing is written.
#[test]
fn counts(rt: HostRuntime) {
    let packets = Tally {
        packets: LARGEST + 1,
        sendings: 0,
        figure: 9,
    };
    let sendings = Tally {
        packets: 1,
        sendings: LARGEST + 1,
        figure: 9,
    };
    for large in [packets, sendings] {
        assert_eq!(rt; cabin_figure(&large), Err(Refusal::SiteList));
        // by place, since each in turn has the large count
        for place in 0..3 {
            let mut site = [OLD; 3];
            site[place] = large;
            assert_eq!(rt; site_figure(&mut site), Err(Refusal::SiteList));
            assert!(rt; site.iter().all(|tally| tally.figure == 9));
        }
    }
}

#[derive(Clone, Copy)]
struct Report {
    list: &'static str,
    text: &'static str,
}

const REFUSED: &str =
    "refused with 18: a site has 1 to 400 cabins, and no count above 1099511627776\n";

const REPORTS: [Report; 12] = [
    Report {
        list: "lake 120 180\nridge 3 4\nmill 0 0\n",
        text: "lake: packets 120, sendings 180, 1.50 sendings per packet\n\
               ridge: packets 3, sendings 4, 1.33 sendings per packet\n\
               mill: packets 0, sendings 0, 0.00 sendings per packet\n\
               whole site: 1.49 sendings per packet\n",
    },
    Report {
        list: "a 100 1005",
        text: "a: packets 100, sendings 1005, 10.05 sendings per packet\n\
               whole site: 10.05 sendings per packet\n",
    },
    Report {
        list: "a 1099511627776 007\n",
        text: "a: packets 1099511627776, sendings 7, 0.00 sendings per packet\n\
               whole site: 0.00 sendings per packet\n",
    },
    Report {
        list: "",
        text: REFUSED,
    },
    Report {
        list: "a 1 1\nb 1 1099511627777\n",
        text: REFUSED,
    },
    Report {
        list: "a 18446744073709551616 1\n",
        text: REFUSED,
    },
    Report {
        list: "a 1 1\nb 1\n",
        text: "line 2 cannot be read: it should be a name, packets and sendings\n",
    },
    Report {
        list: "\na 1 1\n",
        text: "line 1 cannot be read: it should be a name, packets and sendings\n",
    },
    Report {
        list: "a 1 1 1\n",
        text: "line 1 cannot be read: it should be a name, packets and sendings\n",
    },
    Report {
        list: "a 1 -1\n",
        text: "line 1 cannot be read: it should be a name, packets and sendings\n",
    },
    Report {
        list: "a  1 1\n",
        text: "line 1 cannot be read: it should be a name, packets and sendings\n",
    },
    Report {
        list: " 1 1\n",
        text: "line 1 cannot be read: it should be a name, packets and sendings\n",
    },
];

#[test]
fn reports(rt: HostRuntime) -> Result<(), Fail> {
    for case in REPORTS {
        let text = report(rt.alloc(), case.list.as_bytes())?;
        assert!(rt; text.as_slice() == case.text.as_bytes(), "{}", case.list);
    }
    Ok(())
}
