use crate::texts::read_text;
use frp_base::{Memory, Text};
use frp_file::File;
use frp_sugar::{core_stays, expand, expanded_is_core, expanded_is_lawful, senders_stay};
use frp_type::{Label, check, is_core};
use frp_write::write;
use std::alloc::Global;
use std::test::Fail;

/// Files, and the core files that they stand for.
const CASES: [(&str, &str); 25] = [
    ("(graph)", "(graph)\n"),
    (
        "(graph (sink a Int) (let b (map x a (add x 1)))) (listen b) (sender (send a 4))",
        "(graph (sink a Int) (let b (map x a (add x 1))))\n(listen b)\n(sender (send a 4))\n",
    ),
    (
        "(graph (sink a Int) (let l (loopc Int)) (let s (snapshot x y a l (add x y))) (let h (hold 0 s)) (tie l h))",
        "(graph (sink a Int) (let l (loopc Int)) (let s (snapshot x y a l (add x y))) (let h (hold 0 s)) (tie l h))\n",
    ),
    (
        "(graph (cellsink s c Int 5))",
        "(graph (sink s Int) (let c (hold 5 s)))\n",
    ),
    (
        "(graph (cellsink s c (Pair Int Text) (pair 1 \"a\\\"b\")) (cellsink k d (Cell Int) z)) (listen d) (sender (send s (pair 2 \"\")))",
        "(graph (sink s (Pair Int Text)) (let c (hold (pair 1 \"a\\\"b\") s)) (sink k (Cell Int)) (let d (hold z k)))\n(listen d)\n(sender (send s (pair 2 \"\")))\n",
    ),
    (
        "(graph (sink a Int) (sink b Int) (let x (orelse a b)))",
        "(graph (sink a Int) (sink b Int) (let x (merge %u %v a b %u)))\n",
    ),
    (
        "(graph (sink s Int) (cellsink g c Bool true) (let x (gate s c)))",
        "(graph (sink s Int) (sink g Bool) (let c (hold true g)) (let %0 (snapshot %u %v s c (pair %u %v))) (let %1 (filter %w %0 (second %w))) (let x (map %w %1 (first %w))))\n",
    ),
    (
        "(graph (sink s Int) (let x (once s)))",
        "(graph (sink s Int) (let %0 (map %u s false)) (let %1 (hold true %0)) (let %2 (snapshot %u %v s %1 (pair %u %v))) (let %3 (filter %w %2 (second %w))) (let x (map %w %3 (first %w))))\n",
    ),
    (
        "(graph (sink s Int) (let x (accum Int n t s 0 (add n t))))",
        "(graph (sink s Int) (let %0 (loopc Int)) (let %1 (snapshot n t s %0 (add n t))) (let x (hold 0 %1)) (tie %0 x))\n",
    ),
    (
        "(graph (sink s Int) (let x (collect Int n t s 7 (pair (mul n t) (add n t)))))",
        "(graph (sink s Int) (let %0 (loopc Int)) (let %1 (snapshot n t s %0 (pair (mul n t) (add n t)))) (let %2 (map %w %1 (second %w))) (let %3 (hold 7 %2)) (let x (map %w %1 (first %w))) (tie %0 %3))\n",
    ),
    (
        "(graph (cellsink s a Int 1) (cellsink t b Int 2) (let x (lift2 (y Int) (z Int) a b (sub y z))))",
        "(graph (sink s Int) (let a (hold 1 s)) (sink t Int) (let b (hold 2 t)) (fun %f0 ((y Int)) (z Int) (sub y z)) (let %0 (mapc y a (close %f0 y))) (let x (apply %0 b)))\n",
    ),
    (
        "(graph (sink s Int) (let x (defer s)))",
        "(graph (sink s Int) (let %0 (map %u s (list %u))) (let x (split %0)))\n",
    ),
    (
        "(graph (sink a Int) (let o (once a)) (let d (defer o))) (listen d) (sender (send a 3) (send a 4))",
        "(graph (sink a Int) (let %0 (map %u a false)) (let %1 (hold true %0)) (let %2 (snapshot %u %v a %1 (pair %u %v))) (let %3 (filter %w %2 (second %w))) (let o (map %w %3 (first %w))) (let %4 (map %u o (list %u))) (let d (split %4)))\n(listen d)\n(sender (send a 3) (send a 4))\n",
    ),
    (
        "(graph (sink s Int) (cellsink g c Bool false) (let x (gate s c)) (let y (once x)) (let z (orelse x y)) (let w (gate z c)))",
        "(graph (sink s Int) (sink g Bool) (let c (hold false g)) (let %0 (snapshot %u %v s c (pair %u %v))) (let %1 (filter %w %0 (second %w))) (let x (map %w %1 (first %w))) (let %2 (map %u x false)) (let %3 (hold true %2)) (let %4 (snapshot %u %v x %3 (pair %u %v))) (let %5 (filter %w %4 (second %w))) (let y (map %w %5 (first %w))) (let z (merge %u %v x y %u)) (let %6 (snapshot %u %v z c (pair %u %v))) (let %7 (filter %w %6 (second %w))) (let w (map %w %7 (first %w))))\n",
    ),
    (
        "(graph (sink s Int) (let x (accum Int n t s 0 (add n t))) (let u (updates x)) (let y (collect Int n t u 1 (pair t n))) (let d (defer y)))",
        "(graph (sink s Int) (let %0 (loopc Int)) (let %1 (snapshot n t s %0 (add n t))) (let x (hold 0 %1)) (tie %0 x) (let u (updates x)) (let %2 (loopc Int)) (let %3 (snapshot n t u %2 (pair t n))) (let %4 (map %w %3 (second %w))) (let %5 (hold 1 %4)) (let y (map %w %3 (first %w))) (tie %2 %5) (let %6 (map %u y (list %u))) (let d (split %6)))\n",
    ),
    (
        "(graph (fun f ((k Int)) (a Int) (add k a)) (cellsink s a Int 1) (let x (lift2 (y Int) (z Int) a a (add y z))) (fun g () (a Int) (neg a)) (let w (lift2 (y Int) (z Bool) x b (if z y 0))))",
        "(graph (fun f ((k Int)) (a Int) (add k a)) (sink s Int) (let a (hold 1 s)) (fun %f0 ((y Int)) (z Int) (add y z)) (let %0 (mapc y a (close %f0 y))) (let x (apply %0 a)) (fun g () (a Int) (neg a)) (fun %f1 ((y Int)) (z Bool) (if z y 0)) (let %1 (mapc y x (close %f1 y))) (let w (apply %1 b)))\n",
    ),
    (
        "(graph (template t (p (Cell Int)) ((q (Cell Int))) (let x (lift2 (y Int) (z Int) p q (add y z))) (give x)) (sink s (Cell Int)) (let c (constant 3)) (let e (execute s t c)))",
        "(graph (fun %f0 ((y Int)) (z Int) (add y z)) (template t (p (Cell Int)) ((q (Cell Int))) (let %0 (mapc y p (close %f0 y))) (let x (apply %0 q)) (give x)) (sink s (Cell Int)) (let c (constant 3)) (let e (execute s t c)))\n",
    ),
    (
        "(graph (sink s Int) (let a (defer s)) (template t (p (Stream Int)) () (let o (once p)) (let d (defer o)) (give d)) (let b (defer a)) (template r (p (Stream Int)) ((k (Cell Bool))) (get v k) (let g (gate p k)) (give g)) (let c (defer b)))",
        "(graph (sink s Int) (let %0 (map %u s (list %u))) (let a (split %0)) (template t (p (Stream Int)) () (let %0 (map %u p false)) (let %1 (hold true %0)) (let %2 (snapshot %u %v p %1 (pair %u %v))) (let %3 (filter %w %2 (second %w))) (let o (map %w %3 (first %w))) (let %4 (map %u o (list %u))) (let d (split %4)) (give d)) (let %1 (map %u a (list %u))) (let b (split %1)) (template r (p (Stream Int)) ((k (Cell Bool))) (get v k) (let %0 (snapshot %u %v p k (pair %u %v))) (let %1 (filter %w %0 (second %w))) (let g (map %w %1 (first %w))) (give g)) (let %2 (map %u b (list %u))) (let c (split %2)))\n",
    ),
    (
        "(graph (cellsink s a Int 1) (let x (lift2 (y Int) (z Int) a a (mul y z))) (template t (p (Cell Int)) ((q (Cell Int))) (let m (lift2 (y Int) (z Int) p q (add y z))) (let n (lift2 (i Int) (j Int) m p (sub i j))) (give n)) (let w (lift2 (y Int) (z Int) x a (lt y z))))",
        "(graph (sink s Int) (let a (hold 1 s)) (fun %f0 ((y Int)) (z Int) (mul y z)) (let %0 (mapc y a (close %f0 y))) (let x (apply %0 a)) (fun %f1 ((y Int)) (z Int) (add y z)) (fun %f2 ((i Int)) (j Int) (sub i j)) (template t (p (Cell Int)) ((q (Cell Int))) (let %0 (mapc y p (close %f1 y))) (let m (apply %0 q)) (let %1 (mapc i m (close %f2 i))) (let n (apply %1 p)) (give n)) (fun %f3 ((y Int)) (z Int) (lt y z)) (let %1 (mapc y x (close %f3 y))) (let w (apply %1 a)))\n",
    ),
    (
        "(graph (template t (p Int) ((s (Stream Int))) (let x (accum Int n u s p (add n u))) (let l (loops Int)) (let m (orelse s l)) (tie l m) (get v x) (let k (constant v)) (give x)) (sink a Int) (let e (execute a t a)))",
        "(graph (template t (p Int) ((s (Stream Int))) (let %0 (loopc Int)) (let %1 (snapshot n u s %0 (add n u))) (let x (hold p %1)) (tie %0 x) (let l (loops Int)) (let m (merge %u %v s l %u)) (tie l m) (get v x) (let k (constant v)) (give x)) (sink a Int) (let e (execute a t a)))\n",
    ),
    (
        "(graph (sink s (Pair Int Bool)) (let x (collect (Pair Int Int) n t s (pair 0 0) (let d (first n) (pair d (pair d (first t)))))) (let y (collect Text n t x \"\" (pair (len t) (cat t (show n))))))",
        "(graph (sink s (Pair Int Bool)) (let %0 (loopc (Pair Int Int))) (let %1 (snapshot n t s %0 (let d (first n) (pair d (pair d (first t)))))) (let %2 (map %w %1 (second %w))) (let %3 (hold (pair 0 0) %2)) (let x (map %w %1 (first %w))) (tie %0 %3) (let %4 (loopc Text)) (let %5 (snapshot n t x %4 (pair (len t) (cat t (show n))))) (let %6 (map %w %5 (second %w))) (let %7 (hold \"\" %6)) (let y (map %w %5 (first %w))) (tie %4 %7))\n",
    ),
    (
        "(graph (sink a Int) (sink b Int) (let x (defer (let s a s))) (let y (orelse (if true a b) (let q b q))) (let z (once (if false a b))))",
        "(graph (sink a Int) (sink b Int) (let %0 (map %u (let s a s) (list %u))) (let x (split %0)) (let y (merge %u %v (if true a b) (let q b q) %u)) (let %1 (map %u (if false a b) false)) (let %2 (hold true %1)) (let %3 (snapshot %u %v (if false a b) %2 (pair %u %v))) (let %4 (filter %w %3 (second %w))) (let z (map %w %4 (first %w))))\n",
    ),
    (
        "(graph (sink a Int) (let b (defer a)) (let c (defer b)) (let d (defer c)) (let e (once d)) (let f (once e)) (let g (defer f)))",
        "(graph (sink a Int) (let %0 (map %u a (list %u))) (let b (split %0)) (let %1 (map %u b (list %u))) (let c (split %1)) (let %2 (map %u c (list %u))) (let d (split %2)) (let %3 (map %u d false)) (let %4 (hold true %3)) (let %5 (snapshot %u %v d %4 (pair %u %v))) (let %6 (filter %w %5 (second %w))) (let e (map %w %6 (first %w))) (let %7 (map %u e false)) (let %8 (hold true %7)) (let %9 (snapshot %u %v e %8 (pair %u %v))) (let %10 (filter %w %9 (second %w))) (let f (map %w %10 (first %w))) (let %11 (map %u f (list %u))) (let g (split %11)))\n",
    ),
    (
        "(graph (template t (p Int) () (let n (never Text)) (let k (constant (nil Int))) (let m (mapc v k (len v))) (let u (value m)) (let f (filter v u (lt 0 v))) (give f)) (template r (p Int) () (let x (defer y)) (give x)) (sink a Int) (let e (execute a t)) (let h (hold (list 1 2) q)) (let w (switchs h)) (let i (switchc h)) (let j (apply h i)))",
        "(graph (template t (p Int) () (let n (never Text)) (let k (constant (nil Int))) (let m (mapc v k (len v))) (let u (value m)) (let f (filter v u (lt 0 v))) (give f)) (template r (p Int) () (let %0 (map %u y (list %u))) (let x (split %0)) (give x)) (sink a Int) (let e (execute a t)) (let h (hold (list 1 2) q)) (let w (switchs h)) (let i (switchc h)) (let j (apply h i)))\n",
    ),
    (
        "(graph (let x (lift2 (y Int) (y Int) a b y)) (let x (gate x x))) (listen x)",
        "(graph (fun %f0 ((y Int)) (y Int) y) (let %0 (mapc y a (close %f0 y))) (let x (apply %0 b)) (let %1 (snapshot %u %v x x (pair %u %v))) (let %2 (filter %w %1 (second %w))) (let x (map %w %2 (first %w))))\n(listen x)\n",
    ),
];

#[test]
fn forms_stand_for_core_items(rt: HostRuntime) -> Result<(), Fail> {
    let alloc = rt.alloc();
    for (text, core) in &CASES {
        let file = read_text(alloc, text, false)??;
        let found = write(alloc, &expand(alloc, &file)?)?;
        assert_eq!(rt; found.as_str(), *core);
    }
    expanded_is_core();
    expanded_is_lawful();
    core_stays();
    senders_stay();
    Ok(())
}

/// Files with derived forms, and the nodes of the core files that they stand for, each with its name and its type.
const NODES: [(&str, &str); 10] = [
    (
        "(graph (cellsink s c Int 5))",
        "#0 s (Stream Int), #1 c (Cell Int)",
    ),
    (
        "(graph (sink a Int) (sink b Int) (let x (orelse a b)))",
        "#0 a (Stream Int), #1 b (Stream Int), #2 x (Stream Int)",
    ),
    (
        "(graph (sink s Int) (cellsink g c Bool true) (let x (gate s c)))",
        "#0 s (Stream Int), #1 g (Stream Bool), #2 c (Cell Bool), #3 %0 (Stream (Pair Int Bool)), #4 %1 (Stream (Pair Int Bool)), #5 x (Stream Int)",
    ),
    (
        "(graph (sink s Text) (let x (once s)))",
        "#0 s (Stream Text), #1 %0 (Stream Bool), #2 %1 (Cell Bool), #3 %2 (Stream (Pair Text Bool)), #4 %3 (Stream (Pair Text Bool)), #5 x (Stream Text)",
    ),
    (
        "(graph (sink s Text) (let x (accum Int n t s 0 (add t (len n)))))",
        "#0 s (Stream Text), #1 %0 (Cell Int), #2 %1 (Stream Int), #3 x (Cell Int)",
    ),
    (
        "(graph (sink s Int) (let x (collect Text n t s \"\" (pair (len t) (cat t (show n))))))",
        "#0 s (Stream Int), #1 %0 (Cell Text), #2 %1 (Stream (Pair Int Text)), #3 %2 (Stream Text), #4 %3 (Cell Text), #5 x (Stream Int)",
    ),
    (
        "(graph (cellsink s a Int 1) (cellsink t b Bool false) (let x (lift2 (y Int) (z Bool) a b (if z (show y) \"\"))))",
        "#0 s (Stream Int), #1 a (Cell Int), #2 t (Stream Bool), #3 b (Cell Bool), #4 %0 (Cell (Fun Bool Text)), #5 x (Cell Text)",
    ),
    (
        "(graph (sink s Int) (let x (defer s)))",
        "#0 s (Stream Int), #1 %0 (Stream (List Int)), #2 x (Stream Int)",
    ),
    (
        "(graph (sink a Int) (let o (once a)) (let d (defer o)) (let e (orelse d a)))",
        "#0 a (Stream Int), #1 %0 (Stream Bool), #2 %1 (Cell Bool), #3 %2 (Stream (Pair Int Bool)), #4 %3 (Stream (Pair Int Bool)), #5 o (Stream Int), #6 %4 (Stream (List Int)), #7 d (Stream Int), #8 e (Stream Int)",
    ),
    (
        "(graph (fun f ((k Int)) (a Int) (add k a)) (cellsink s a Int 1) (let x (lift2 (y Int) (z Int) a a (add y z))) (let m (mapc y x (close f y))) (let w (lift2 (y Int) (z Int) x a (lt y z))))",
        "#0 s (Stream Int), #1 a (Cell Int), #2 %0 (Cell (Fun Int Int)), #3 x (Cell Int), #4 m (Cell (Fun Int Int)), #5 %1 (Cell (Fun Int Bool)), #6 w (Cell Bool)",
    ),
];

/// The nodes of a file of core items, between commas.
fn nodes_of(alloc: Global, file: &File) -> Result<Text, Memory> {
    if !is_core(file) {
        return Ok(Text::of(format!(in alloc; "no file of core items")?));
    }
    match check(alloc, file) {
        Ok(typed) => show_nodes(alloc, typed.labels.as_slice()),
        Err(_) => Ok(Text::of(format!(in alloc; "no program")?)),
    }
}

/// The labels of nodes, between commas.
fn show_nodes(alloc: Global, labels: &[Label]) -> Result<Text, Memory> {
    let mut all = Text::new(alloc);
    for (i, label) in labels.iter().enumerate() {
        if i > 0 {
            all.push_str(", ")?;
        }
        label.name.show(&mut all)?;
        all.push_str(" ")?;
        all.push_str(label.text.as_str())?;
        all.push_str(" ")?;
        label.ty.show(alloc, &mut all)?;
    }
    Ok(all)
}

#[test]
fn hidden_items_are_nodes(rt: HostRuntime) -> Result<(), Fail> {
    let alloc = rt.alloc();
    for (text, nodes) in &NODES {
        let file = read_text(alloc, text, false)??;
        let found = nodes_of(alloc, &expand(alloc, &file)?)?;
        assert_eq!(rt; found.as_str(), *nodes);
    }
    Ok(())
}
