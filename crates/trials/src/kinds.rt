// Heartbeats, piles, zeros and span lists at their edges.
use crate::sources::{Zeros, asks};
use below::book::Book;
use below::heartbeat::Heartbeat;
use below::piled::Piled;
use below::spans::{Span, Spans};
use ports::gap_plan::GapPlan;
use ports::source::Source;

const UNIT: u32 = 0xcab1_0007;

// It waits for 4 to 645 bytes, and after use it waits again.
#[test]
fn heartbeat(rt: HostRuntime) {
    let mut source = Heartbeat::new(UNIT);
    for (size, waits) in [(0, false), (3, false), (4, true), (645, true), (646, false)] {
        assert!(rt; source.waits(size) == waits);
    }
    let mut short = [9; 3];
    assert!(rt; !source.fill(&mut short) && short == [9; 3]);
    let mut least = [9; 5];
    assert!(rt; source.fill(&mut least[..4]) && least == [0xca, 0xb1, 0, 7, 9]);
    let mut most = [9; 645];
    assert!(rt; source.fill(&mut most) && most[3] == 7 && most[4] == 0 && most[644] == 0);
    let mut long = [9; 646];
    assert!(rt; !source.fill(&mut long) && long == [9; 646]);
}

// The first is used up, and then the second is asked.
#[test]
fn pile_with_first_used_up(rt: HostRuntime) {
    let mut pile = Piled::new(Book::new(&[0, 2, 0xa1, 0xb2]), Heartbeat::new(UNIT));
    let mut stretch = [9; 4];
    assert!(rt; !pile.waits(1) && pile.waits(2) && pile.waits(4));
    assert!(rt; pile.fill(&mut stretch) && stretch == [0xa1, 0xb2, 0, 0]);
    assert!(rt; !pile.first().waits(4) && pile.second().waits(4));
    assert!(rt; !pile.waits(2) && !pile.fill(&mut stretch[..2]) && stretch == [0xa1, 0xb2, 0, 0]);
    assert!(rt; pile.fill(&mut stretch) && stretch == [0xca, 0xb1, 0, 7]);
}

// Where the second fills, the first keeps its packet for a larger size.
#[test]
fn pile_with_first_too_long(rt: HostRuntime) {
    let mut pile = Piled::new(Book::new(&[0, 5, 1, 2, 3, 4, 5]), Heartbeat::new(UNIT));
    let mut stretch = [9; 5];
    assert!(rt; pile.fill(&mut stretch[..4]) && stretch == [0xca, 0xb1, 0, 7, 9]);
    assert!(rt; pile.first().waits(5) && pile.fill(&mut stretch) && stretch == [1, 2, 3, 4, 5]);
}

// Where the first fills, the second keeps its packet.
#[test]
fn pile_with_heartbeat_first(rt: HostRuntime) {
    let mut pile = Piled::new(Heartbeat::new(UNIT), Book::new(&[0, 2, 0xa1, 0xb2]));
    let mut stretch = [9; 4];
    assert!(rt; pile.fill(&mut stretch) && stretch == [0xca, 0xb1, 0, 7]);
    assert!(rt; pile.fill(&mut stretch[..3]) && stretch == [0xa1, 0xb2, 0, 7]);
    assert!(rt; !pile.second().waits(645) && !pile.waits(3) && pile.waits(4));
}

// Zeros wait for 1 byte up to their bound, and fill with zeros.
#[test]
fn zeros_up_to_a_bound(rt: HostRuntime) {
    let mut source = Zeros { most: 3 };
    for (size, waits) in [(0, false), (1, true), (2, true), (3, true), (4, false)] {
        assert!(rt; source.waits(size) == waits);
    }
    let mut stretch = [9; 5];
    assert!(rt; !source.fill(&mut stretch[..4]) && stretch == [9; 5]);
    assert!(rt; source.fill(&mut stretch[..3]) && stretch == [0, 0, 0, 9, 9]);
    assert!(rt; source.fill(&mut stretch[3..4]) && stretch == [0, 0, 0, 0, 9]);
}

// Sources of two kinds, asked through one function.
#[test]
fn sources_asked(rt: HostRuntime) {
    let zeros = Zeros { most: 255 };
    let heartbeat = Heartbeat::new(UNIT);
    assert!(rt; asks(&zeros, 255) && !asks(&zeros, 256));
    assert!(rt; asks(&heartbeat, 645) && !asks(&heartbeat, 646));
}

// An empty span, a reversed one, two that touch, and one at each end of the numbers.
#[test]
fn spans(rt: HostRuntime) {
    let spans = [
        Span { from: 5, to: 5 },
        Span { from: 9, to: 7 },
        Span { from: 20, to: 22 },
        Span { from: 22, to: 23 },
        Span { from: 0, to: 1 },
        Span {
            from: 0xffff_ffff_ffff_fffe,
            to: 0xffff_ffff_ffff_ffff,
        },
    ];
    let gaps = Spans::new(&spans);
    for subframe in [0, 20, 21, 22, 0xffff_ffff_ffff_fffe] {
        assert!(rt; gaps.covers(subframe));
    }
    for subframe in [1, 4, 5, 6, 7, 8, 9, 19, 23, 0xffff_ffff_ffff_ffff] {
        assert!(rt; !gaps.covers(subframe));
    }
    let none: [Span; 0] = [];
    assert!(rt; !Spans::new(&none).covers(0));
}
