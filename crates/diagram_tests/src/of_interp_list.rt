use interp_list::{are_care_points, least_list};
use lattice::Mono;

// The points of value 0 and of value 1 over two variables, and the monomials from the greatest to
// the least.
#[test]
fn table(rt: HostRuntime) {
    let cases: [(&[u64], &[u64], &[Mono]); 6] = [
        (&[], &[], &[]),
        (&[0, 3], &[1, 2], &[Mono(2), Mono(1)]),
        (&[0], &[1, 2, 3], &[Mono(3), Mono(2), Mono(1)]),
        (&[0, 1], &[3], &[Mono(2)]),
        (&[0, 1], &[2], &[Mono(2)]),
        (&[0, 3], &[2], &[Mono(2), Mono(1)]),
    ];
    for (zeros, ones, want) in cases {
        assert!(rt; are_care_points(2, zeros, ones));
        let terms = least_list(rt.alloc(), 2, zeros, ones).expect(&rt, "memory");
        assert_eq!(rt; terms.as_slice(), want);
    }
}

// All points over 12 variables, with the values of x1*x2 + x12.
#[test]
fn all_points(rt: HostRuntime) {
    let mut zeros = Vec::new(rt.alloc());
    let mut ones = Vec::new(rt.alloc());
    for a in 0..4096u64 {
        let both = (a >> 11) & (a >> 10) & 1;
        if (both ^ (a & 1)) == 1 {
            ones.push(a).expect(&rt, "memory");
        } else {
            zeros.push(a).expect(&rt, "memory");
        }
    }
    assert!(rt; are_care_points(12, &zeros, &ones));
    let terms = least_list(rt.alloc(), 12, &zeros, &ones).expect(&rt, "memory");
    assert_eq!(rt; terms.as_slice(), [Mono(3072), Mono(1)].as_slice());
}

#[test]
fn second_variable(rt: HostRuntime) {
    let terms = least_list(rt.alloc(), 2, &[0], &[3]).expect(&rt, "memory");
    assert_eq!(rt; terms.as_slice(), [Mono(1)].as_slice());
}

#[test]
fn sum_of_both(rt: HostRuntime) {
    let terms = least_list(rt.alloc(), 2, &[0, 3], &[2]).expect(&rt, "memory");
    assert_eq!(rt; terms.as_slice(), [Mono(2), Mono(1)].as_slice());
}

#[test]
fn no_zeros(rt: HostRuntime) {
    let terms = least_list(rt.alloc(), 3, &[], &[5]).expect(&rt, "memory");
    assert_eq!(rt; terms.as_slice(), [Mono(0)].as_slice());
}
