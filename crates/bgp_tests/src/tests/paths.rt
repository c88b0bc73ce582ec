//! Paths as messages hold them, with their hops and origins, and what AS4_PATH does to them.
use as_path::{Aggregators, PathView, Width, origin_of};
use std::process::Abort;

/// No AGGREGATOR and no AS4_AGGREGATOR.
const NEITHER: Aggregators = Aggregators {
    own: None,
    four: None,
};

/// The path that the octets are, of which there are few.
fn read<'a>(rt: &impl Abort, value: &'a [u8], width: Width) -> Option<PathView<'a>> {
    assert!(rt; value.len() < 1000);
    PathView::read(value, width)
}

/// A path of four-octet AS numbers, its hops and its origin.
#[derive(Clone, Copy)]
struct Row {
    value: &'static [u8],
    hops: u32,
    origin: Option<u32>,
}

const ROWS: [Row; 5] = [
    Row {
        value: b"\x02\x01\x00\x00\xFB\xF5",
        hops: 1,
        origin: Some(64501),
    },
    Row {
        value: b"\x02\x01\x00\x00\xFB\xF5\x01\x02\x00\x00\xFB\xF6\x00\x00\xFB\xF7",
        hops: 2,
        origin: None,
    },
    Row {
        value: b"",
        hops: 0,
        origin: None,
    },
    Row {
        value: b"\x02\x01\x00\x00\x00\x00",
        hops: 1,
        origin: None,
    },
    Row {
        value: b"\x01\x01\x00\x00\xFB\xF6\x02\x02\x00\x00\xFB\xF7\x00\x00\xFB\xF5",
        hops: 3,
        origin: Some(64501),
    },
];

/// That each path has these hops and this origin.
fn have_origins(rt: &impl Abort, rows: &[Row]) {
    for row in rows {
        let path = read(rt, row.value, Width::Four).expect(rt, "well formed");
        assert_eq!(rt; path.hops(), row.hops, "{:?}", row.value);
        assert_eq!(rt;
            origin_of(&path, None, NEITHER),
            row.origin,
            "{:?}",
            row.value
        );
    }
}

#[test]
fn a_path_ends_in_its_origin(rt: HostRuntime) {
    have_origins(&rt, &ROWS);
}

/// No AS number; a confederation's segment; one that runs past the value; half a header.
const MALFORMED: [&[u8]; 4] = [
    b"\x02\x00",
    b"\x03\x01\x00\x00\xFB\xF5",
    b"\x02\x02\x00\x00\xFB\xF5",
    b"\x02\x01\x00\x00\xFB\xF5\x02",
];

/// That no value is a path.
fn are_malformed(rt: &impl Abort, rows: &[&[u8]]) {
    for value in rows {
        assert!(rt; read(rt, value, Width::Four).is_none(), "{value:?}");
    }
}

#[test]
fn a_malformed_path_is_refused(rt: HostRuntime) {
    are_malformed(&rt, &MALFORMED);
}

/// What comes beside an AS_PATH of 64501 and AS_TRANS from a peer of two-octet AS numbers.
#[derive(Clone, Copy)]
struct Beside {
    name: &'static str,
    as4: &'static [u8],
    aggregators: Aggregators,
    origin: Option<u32>,
}

const BESIDE: [Beside; 7] = [
    Beside {
        name: "an AS4_PATH of one hop",
        as4: b"\x02\x01\x00\x01\x86\xA0",
        aggregators: NEITHER,
        origin: Some(100_000),
    },
    Beside {
        name: "as many hops",
        as4: b"\x02\x02\x00\x00\xFB\xF5\x00\x01\x86\xA0",
        aggregators: NEITHER,
        origin: Some(100_000),
    },
    Beside {
        name: "more hops",
        as4: b"\x02\x03\x00\x00\xFB\xF5\x00\x00\xFB\xF6\x00\x01\x86\xA0",
        aggregators: NEITHER,
        origin: Some(23456),
    },
    Beside {
        name: "aggregated by a speaker of two-octet AS numbers",
        as4: b"\x02\x01\x00\x01\x86\xA0",
        aggregators: Aggregators {
            own: Some(64501),
            four: Some(100_000),
        },
        origin: Some(23456),
    },
    Beside {
        name: "aggregated by a speaker of four-octet AS numbers",
        as4: b"\x02\x01\x00\x01\x86\xA0",
        aggregators: Aggregators {
            own: Some(23456),
            four: Some(100_000),
        },
        origin: Some(100_000),
    },
    Beside {
        name: "an AS4_PATH of one set",
        as4: b"\x01\x02\x00\x00\xFB\xF5\x00\x01\x86\xA0",
        aggregators: NEITHER,
        origin: None,
    },
    Beside {
        name: "an AS4_PATH without segments",
        as4: b"",
        aggregators: NEITHER,
        origin: Some(23456),
    },
];

/// That the path has these origins with what comes beside it.
fn have_origins_beside(rt: &impl Abort, path: &PathView, rows: &[Beside]) {
    for beside in rows {
        let as4 = read(rt, beside.as4, Width::Four).expect(rt, "well formed");
        let origin = origin_of(path, Some(&as4), beside.aggregators);
        assert_eq!(rt; origin, beside.origin, "{}", beside.name);
    }
}

#[test]
fn as4_path_stands_for_the_last_hops(rt: HostRuntime) {
    let path = PathView::read(b"\x02\x02\xFB\xF5\x5B\xA0", Width::Two).expect(&rt, "well formed");
    assert_eq!(rt; origin_of(&path, None, NEITHER), Some(23456));
    have_origins_beside(&rt, &path, &BESIDE);
}

/// A path that is well formed at both widths, what it is at each: its hops and its origin.
#[derive(Clone, Copy)]
struct EitherWay {
    value: &'static [u8],
    two: (u32, Option<u32>),
    four: (u32, Option<u32>),
}

const EITHER_WAY: [EitherWay; 2] = [
    // 64501 64502, and then 64503 in a sequence of its own; or two AS numbers in one sequence.
    EitherWay {
        value: b"\x02\x02\xFB\xF5\xFB\xF6\x02\x01\xFB\xF7",
        two: (3, Some(64503)),
        four: (2, Some(0x0201_FBF7)),
    },
    // 64501 64502, and then a set of 64503; or two AS numbers in one sequence.
    EitherWay {
        value: b"\x02\x02\xFB\xF5\xFB\xF6\x01\x01\xFB\xF7",
        two: (3, None),
        four: (2, Some(0x0101_FBF7)),
    },
];

/// That each path is read so at each width.
fn are_read_at_both_widths(rt: &impl Abort, rows: &[EitherWay]) {
    for either in rows {
        for (width, wanted) in [(Width::Two, either.two), (Width::Four, either.four)] {
            let path = read(rt, either.value, width).expect(rt, "well formed");
            let origin = origin_of(&path, None, NEITHER);
            assert_eq!(rt;
                (path.hops(), origin),
                wanted,
                "{:?} {width:?}",
                either.value
            );
        }
    }
}

#[test]
fn a_path_that_fits_both_widths_is_read_by_the_one_that_is_told(rt: HostRuntime) {
    are_read_at_both_widths(&rt, &EITHER_WAY);
}

/// 64497 64498, a set of 64499 and 64500, and then 64501, at each width.
const AROUND_A_SET: [(&[u8], Width); 2] = [
    (
        b"\x02\x02\xFB\xF1\xFB\xF2\x01\x02\xFB\xF3\xFB\xF4\x02\x01\xFB\xF5",
        Width::Two,
    ),
    (
        b"\x02\x02\x00\x00\xFB\xF1\x00\x00\xFB\xF2\
            \x01\x02\x00\x00\xFB\xF3\x00\x00\xFB\xF4\
            \x02\x01\x00\x00\xFB\xF5",
        Width::Four,
    ),
];

/// That each path has four hops and ends in 64501.
fn have_four_hops(rt: &impl Abort, rows: &[(&[u8], Width)]) {
    for row in rows {
        let (value, width) = *row;
        let path = read(rt, value, width).expect(rt, "well formed");
        assert_eq!(rt; path.hops(), 4, "{width:?}");
        assert_eq!(rt; origin_of(&path, None, NEITHER), Some(64501), "{width:?}");
    }
}

#[test]
fn the_last_segment_of_sequence_set_sequence_decides_the_origin(rt: HostRuntime) {
    have_four_hops(&rt, &AROUND_A_SET);
}

#[test]
fn an_as4_path_that_is_a_set_alone_leaves_no_origin(rt: HostRuntime) {
    // One hop, as AS_PATH of one AS has: it stands for all of that.
    let path = PathView::read(b"\x02\x01\xFB\xF5", Width::Two).expect(&rt, "well formed");
    let four = b"\x01\x03\x00\x00\xFB\xF5\x00\x01\x86\xA0\x00\x01\x86\xA1";
    let as4 = PathView::read(four, Width::Four).expect(&rt, "well formed");
    assert_eq!(rt; as4.hops(), 1);
    assert_eq!(rt; origin_of(&path, Some(&as4), NEITHER), None);
    // An empty AS_PATH has fewer hops, so that it alone counts, and it ends in no AS either.
    let none = PathView::read(b"", Width::Two).expect(&rt, "well formed");
    assert_eq!(rt; origin_of(&none, Some(&as4), NEITHER), None);
}
