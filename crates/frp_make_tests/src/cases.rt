use crate::shown::shown;
use frp_base::Memory;
use std::alloc::Global;
use std::test::Fail;

/// A file, and its nodes with their first values.
struct Case {
    file: &'static str,
    nodes: &'static str,
}

const CASES: [Case; 4] = [
    // Streams have no first value; cells that depend on each other have theirs in whatever order they stand.
    Case {
        file: "(graph (sink a Int) (let h (hold 3 a)) (let m (mapc x h (mul x 2))) (let u (updates m)))",
        nodes: "#0; #1 3; #2 6; #3; ",
    },
    // Two loops, one of them through a switch.
    Case {
        file: "(graph (let l (loopc Int)) (let k (loopc (Cell Int))) (let w (switchc k)) (let m (mapc x l (add x 1))) (let c (constant 5)) (let z (constant c)) (tie k z) (tie l w))",
        nodes: "#0 5; #1 (cell #4); #2 5; #3 6; #4 5; #5 (cell #4); ",
    },
    // A loop through a switch to itself.
    Case {
        file: "(graph (sink a Int) (let l (loopc Int)) (let k (constant l)) (let w (switchc k)) (tie l w))",
        nodes: "#0; #1; #2 (cell #1); #3; chain #1 #3",
    },
    // What leads to a closed chain has no first value, and the others have theirs.
    Case {
        file: "(graph (let e (loopc Int)) (let l (loopc Int)) (let m (mapc x l x)) (tie l m) (tie e m) (let c (constant 4)) (let d (mapc x c (add x 1))))",
        nodes: "#0; #1; #2; #3 4; #4 5; chain #1 #2",
    },
];

fn is_as_said(alloc: Global, case: &Case) -> Result<bool, Memory> {
    Ok(shown(alloc, case.file)?.as_str() == case.nodes)
}

#[test]
fn files_make_their_nodes(rt: HostRuntime) -> Result<(), Fail> {
    for case in &CASES {
        assert!(rt; is_as_said(rt.alloc(), case)?, "{}", case.file);
    }
    Ok(())
}
