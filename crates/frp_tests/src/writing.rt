use crate::texts::read_text;
use frp_base::{Memory, Seq, Text};
use frp_expr::Spot;
use frp_file::{File, Graph, Listen};
use frp_write::{
    canonical_is_read, canonical_tells, is_lawful_file, read_is_lawful, write, written_is_read,
};
use std::alloc::Global;
use std::test::Fail;

/// A file of each rule of the grammar, with blanks and comments as they come.
const LOOSE: &str =
    "; a file\n(graph ; its nodes\n (fun f((k Int))(a Text)(add k(len a)))\n (template t (p Int) ((q (List Bool)) (r (Cell Int)))\n  (let m (map x p (neg x))) (tie l m) (get v r)\n  (give (pair (first (pair p q)) (if true (let z v z) (at (list 1 -2) 0 3)))))\n (sink n Int)\n (cellsink s c Int 0)\n (let g (gate n c)) (let o (once n)) (let d (defer n))\n (let u (orelse n g))\n (let h (accum Int x y n 0 (sub x y)))\n (let i (collect (Pair Int Int) x y n 0 (pair x y)))\n (let j (lift2 (x Int) (y Int) c c (cat \"a\\\"b\" \"\\\\\")))\n (let e (execute n t (nil Bool) c))\n (let k (merge x y n n (close f 1)))\n (let z (never Int)) (let w (snapshot x y n c (eq x y)))\n (let q (loopc (Fun Int Bool))) (let b (hold 0 n)) (let a (apply q c)))(listen n)\n(sender(send n -1)(send n 9223372036854775807) )\n(sender)";

/// Its canonical text.
const CANONICAL: &str =
    "(graph (fun f ((k Int)) (a Text) (add k (len a))) (template t (p Int) ((q (List Bool)) (r (Cell Int))) (let m (map x p (neg x))) (tie l m) (get v r) (give (pair (first (pair p q)) (if true (let z v z) (at (list 1 -2) 0 3))))) (sink n Int) (cellsink s c Int 0) (let g (gate n c)) (let o (once n)) (let d (defer n)) (let u (orelse n g)) (let h (accum Int x y n 0 (sub x y))) (let i (collect (Pair Int Int) x y n 0 (pair x y))) (let j (lift2 (x Int) (y Int) c c (cat \"a\\\"b\" \"\\\\\"))) (let e (execute n t (nil Bool) c)) (let k (merge x y n n (close f 1))) (let z (never Int)) (let w (snapshot x y n c (eq x y))) (let q (loopc (Fun Int Bool))) (let b (hold 0 n)) (let a (apply q c)))\n(listen n)\n(sender (send n -1) (send n 9223372036854775807))\n(sender)\n";

/// A file of an empty graph and a listen to a node of this name.
fn listening(alloc: Global, name: &str) -> Result<File, Memory> {
    let mut text = Text::new(alloc);
    text.push_str(name)?;
    let name = Spot { at: 0, text };
    let mut listens = Seq::new(alloc);
    listens.add(Listen { at: 0, name })?;
    let decls = Seq::new(alloc);
    Ok(File {
        graph: Graph { at: 0, decls },
        listens,
        senders: Seq::new(alloc),
    })
}

#[test]
fn writes_canonical_text(rt: HostRuntime) -> Result<(), Fail> {
    let alloc = rt.alloc();
    for text in [LOOSE, CANONICAL] {
        let file = read_text(alloc, text, false)??;
        assert!(rt; is_lawful_file(&file));
        assert_eq!(rt; write(alloc, &file)?.as_str(), CANONICAL);
    }
    Ok(())
}

#[test]
fn knows_lawful_files(rt: HostRuntime) -> Result<(), Fail> {
    let alloc = rt.alloc();
    let names = [
        ("a", true),
        ("true", false),
        ("A", false),
        ("", false),
        ("abcdefghijklmnopqrstuvwxyz_01234", true),
        ("abcdefghijklmnopqrstuvwxyz_012345", false),
    ];
    for (name, is_lawful) in &names {
        let file = listening(alloc, *name)?;
        assert_eq!(rt; is_lawful_file(&file), *is_lawful);
    }
    let file = listening(alloc, "a")?;
    assert_eq!(rt; write(alloc, &file)?.as_str(), "(graph)\n(listen a)\n");
    written_is_read();
    canonical_is_read();
    canonical_tells();
    read_is_lawful();
    Ok(())
}
