//! The lines of two workloads.

use crate::workload::Workload;
use bench_script::parse_line;
use std::test::Fail;

/// The fates of a round.
const FATES: &str = "fates \
    PPPPPPPPPPPPPPPPPPPPPPPPPPPPLPPPPPPPPPPPPPPPPPPPPPPPPPPPPLPPPPPPPPPPPPPPPPPPPPPPPPPPPPL\
    PPPPPPPPPPPPPPPPPPPPPPPPPPPPLPPPPPPPPPPPPPPPPPPPPPPPPPPPPLPPPPPPPPPPPPPPPPPPPPPPPPPPPPL\
    PPPPPPPPPPPPPPPPPPPPPPPPPPPPLPPPPPPPPPPPPPPPPPPPPPPPPPPPPLPPPPPPPPPPPPPPPPPPPPPPPPPPPPL\
    PPPPPPPPPPPPPPPPPPPPPPPPPPPPLPPPPPPPPPPPPPPPPPPPPPPPPPPPPLPPPPPPPPPPPPPPPPPPPPPPPPPPPPL\
    PPPPPPPPPPPPPPPPPPPPPPPPPPPPLPPPPPPPPPPPPPPPPPPPPPPPPPPPPLPPPPPPPPPPPPPPPPPPPPPPPPPPPPL\
    PPPPPPPPPPPPPPPPPPPPPPPPPPPPLPPPPPPPPPPPPPPPPPPPPPPPPPPPPLPPPPPPPPPPPPPPPPPPPPPPPPPPPPL\
    PPPPPPPPPPPPPPPPPPPPPPPPPPPPLPPPPPPPPPPPPPPPPPPPPPPPPPPPPL";

/// The lines of a workload of three rounds.
const LINES: [&str; 17] = [
    "place t2 04112233445566 231 000000000000000000000000E1106D000300FE",
    "place peer 08010203 3 128 1 1024",
    FATES,
    "write 04112233445566 gen:85:0",
    "read 04112233445566",
    "link 08010203 128 1",
    "put gen:155:0",
    FATES,
    "write 04112233445566 gen:138:1",
    "read 04112233445566",
    "link 08010203 128 1",
    "put gen:252:1",
    FATES,
    "write 04112233445566 gen:191:2",
    "read 04112233445566",
    "link 08010203 128 1",
    "put gen:349:2",
];

#[test]
fn lines_of_three_rounds(rt: HostRuntime) -> Result<(), Fail> {
    let workload = Workload::new(5, 3).unwrap();
    assert_eq!(rt; workload.line_count(), 17);
    for place in 0..17u32 {
        let line = workload.line(place);
        assert_eq!(rt;
            line.as_slice(),
            LINES[place as usize].as_bytes(),
            "{place}"
        );
        parse_line(rt.alloc(), line.as_slice())?;
    }
    Ok(())
}

#[test]
fn the_last_lines_of_the_largest(rt: HostRuntime) {
    let workload = Workload::new(65535, 150).unwrap();
    assert_eq!(rt; workload.line_count(), 752);
    assert_eq!(rt;
        workload.line(748).as_slice(),
        b"write 04112233445566 gen:192:149".as_slice()
    );
    assert_eq!(rt; workload.line(751).as_slice(), b"put gen:86:149".as_slice());
}

#[test]
fn counts_from_1_to_150(rt: HostRuntime) {
    for (count, wanted) in [
        (0, false),
        (1, true),
        (150, true),
        (151, false),
        (255, false),
    ] {
        assert_eq!(rt; Workload::new(0, count).is_some(), wanted, "{count}");
    }
}
