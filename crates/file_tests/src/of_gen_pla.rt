use gen_pla::generate;
use lattice::{Kind, Row};
use std::process::Abort;

// The number, the point and the outputs that are 1, of the rows that a few lines of Python made
// from the rule's words: they count the bits of a point by its binary text, and try each pair of
// neighbours by itself.
fn made_elsewhere() -> [(u64, [(usize, u64, u64); 6]); 5] {
    [
        (
            0,
            [
                (0, 0, 0),
                (1, 1, 1),
                (2, 2, 1),
                (3, 3, 2),
                (4, 4, 1),
                (255, 255, 2),
            ],
        ),
        (
            12345,
            [
                (0, 0, 0),
                (1, 24691, 1),
                (2, 49382, 1),
                (3, 8537, 2),
                (4, 33228, 2),
                (255, 4749, 2),
            ],
        ),
        (
            2147516415,
            [
                (0, 0, 0),
                (1, 65535, 2),
                (2, 65534, 1),
                (3, 65533, 3),
                (4, 65532, 2),
                (255, 65281, 3),
            ],
        ),
        (
            1310720017,
            [
                (0, 40000, 1),
                (1, 40035, 0),
                (2, 40070, 3),
                (3, 40105, 0),
                (4, 40140, 0),
                (255, 48925, 3),
            ],
        ),
        (
            18446744073709551615,
            [
                (0, 65535, 2),
                (1, 65534, 1),
                (2, 65533, 3),
                (3, 65532, 2),
                (4, 65531, 3),
                (255, 65280, 2),
            ],
        ),
    ]
}

// The row's line, its point, and at which of two outputs it is 1; it is 0 at the others.
fn expect_row(rt: &impl Abort, row: &Row, line: usize, point: u64, on: u64) {
    assert_eq!(rt;
        (row.line as usize, row.care, row.value),
        (line, 65535, point)
    );
    assert_eq!(rt; (row.on, row.off, row.dc), (on, on ^ 3, 0));
}

#[test]
fn rows_of_seeds(rt: HostRuntime) {
    for (seed, rows) in made_elsewhere() {
        let made = generate(rt.alloc(), seed).expect(&rt, "memory");
        assert_eq!(rt; (made.inputs, made.outputs, made.kind), (16, 2, Kind::Fr));
        assert!(rt; made.in_names.is_empty() && made.out_names.is_empty());
        let found = made.rows.as_slice();
        assert_eq!(rt; found.len(), 256);
        for (k, point, on) in rows {
            let row = found.get(k).expect(&rt, "a row");
            expect_row(&rt, row, k + 1, point, on);
        }
    }
}
