use crate::texts::read_text;
use frp_file::{Decl, ItemForm};
use frp_form::{
    FormFault, FormKind, FormStop, grammar_is_read, listens_are_few, parts_are_lawful,
    read_is_grammar, tokens_are_few,
};
use std::test::Fail;

/// The place of a declaration, and the first letter of its head word.
fn outline(decl: &Decl) -> (u64, char) {
    match decl {
        Decl::Template(x) => (x.at, 'T'),
        Decl::Function(x) => (x.at, 'f'),
        Decl::Item(x) => match &x.form {
            ItemForm::Sink { .. } => (x.at, 's'),
            ItemForm::Cellsink { .. } => (x.at, 'c'),
            ItemForm::Let { .. } => (x.at, 'l'),
            ItemForm::Tie { .. } => (x.at, 't'),
            ItemForm::Get { .. } => (x.at, 'g'),
        },
    }
}

#[test]
fn reads_each_declaration(rt: HostRuntime) -> Result<(), Fail> {
    let text =
        "(graph (template t (x Int) () (get g c) (give x)) (fun f () (x Int) x) (sink s Int) (cellsink u c Int 0) (let b (never Int)) (tie l m)) (listen b) (sender (send s 1))";
    match read_text(rt.alloc(), text, true)? {
        Err(_) => assert!(rt; false),
        Ok(file) => {
            let found = [
                (7, 'T'),
                (50, 'f'),
                (71, 's'),
                (84, 'c'),
                (105, 'l'),
                (125, 't'),
            ];
            let decls = file.graph.decls.as_slice();
            assert_eq!(rt; decls.len(), 6);
            for (i, one) in found.iter().enumerate() {
                assert!(rt; outline(&decls[i]) == *one, "at {}", one.0);
            }
            assert_eq!(rt; file.listens.as_slice().len(), 1);
            assert_eq!(rt; file.senders.as_slice().len(), 1);
        }
    }
    Ok(())
}

#[test]
fn faults_and_laws(rt: HostRuntime) -> Result<(), Fail> {
    let table = [
        ("(graph", false, 6, FormKind::End),
        ("(graph) x", false, 8, FormKind::Expected),
        ("(graph) (sender) (listen b)", false, 18, FormKind::Expected),
        ("(graph) (sender) (sender)", true, 17, FormKind::Senders),
        (
            "(graph) (sender) (sender) (sender) (sender) (sender) (sender) (sender) (sender) (sender) (sender) (sender) (sender) (sender) (sender) (sender) (sender) (sender)",
            false,
            152,
            FormKind::Many,
        ),
        (
            "(graph (let x (constant (not (not (not (not (not (not (not (not (not (not (not (not (not (not (not (not x",
            false,
            104,
            FormKind::Deep,
        ),
    ];
    for (text, one_sender, place, kind) in &table {
        let stop = FormStop::Fault(FormFault {
            place: *place,
            kind: *kind,
        });
        assert!(rt;
            read_text(rt.alloc(), text, *one_sender)?.err() == Some(stop),
            "{text}"
        );
    }
    read_is_grammar();
    grammar_is_read();
    parts_are_lawful();
    listens_are_few();
    tokens_are_few();
    Ok(())
}
