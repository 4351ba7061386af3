use crate::generate;
use std::test::Fail;

/// The files of these starts and counts, worked out by a calculation of their own.
const FILES: [(u64, u64, &str); 3] = [
    (
        0,
        1,
        "(graph (sink n0 Int) (let c (hold 0 n0)) (let n1 (map x n0 (add x 88))))
(listen n1)
(sender (send n0 117))
",
    ),
    (
        7,
        8,
        "(graph (sink n0 Int) (let c (hold 0 n0)) (let n1 (defer n0)) (let n2 (snapshot x y n0 c (add x y))) (let n3 (filter x n2 (lt x 34))) (let n4 (map x n1 (add x 13))) (let n5 (snapshot x y n3 c (add x y))) (let n6 (map x n2 (add x 49))) (let n7 (merge x y n3 n1 (sub x y))) (let n8 (map x n4 (add x 52))))
(listen n8)
(sender (send n0 467) (send n0 79) (send n0 658) (send n0 61) (send n0 624) (send n0 639) (send n0 273) (send n0 474))
",
    ),
    (
        18446744073709551615,
        2,
        "(graph (sink n0 Int) (let c (hold 0 n0)) (let n1 (defer n0)) (let n2 (merge x y n0 n1 (sub x y))))
(listen n2)
(sender (send n0 226) (send n0 80))
",
    ),
];

#[test]
fn generates_files(rt: HostRuntime) -> Result<(), Fail> {
    for (start, count, text) in FILES {
        assert_eq!(rt; generate(rt.alloc(), start, count)?.as_str(), text);
    }
    Ok(())
}
