//! Laws of the definitions, each as what a function without a body ensures.

ghost use Rattle.frp_form.specs.Laws.{ReadIsGrammar, GrammarIsRead};

/// Tokens that are read are, by the grammar, the file that they are read as.
pub fn read_is_grammar()
    ensures { ReadIsGrammar }
{}

/// Tokens that are a file by the grammar are read as that file.
pub fn grammar_is_read()
    ensures { GrammarIsRead }
{}
