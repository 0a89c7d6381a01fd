//! What one text can be.

ghost use Rattle.c_parser.specs.Theorems.{ItemsAreToldApart, SourcesHaveOneTree, TextsHaveOneTree, RefusalsAreCertain};

use c_expr::expression_laws;
use c_tokens::texts_have_one_answer;
use c_tree::declarators_declare_their_names;

/// Whatever follows, tokens begin with one item at most.
pub fn items_are_told_apart()
    ensures { ItemsAreToldApart }
{
    expression_laws();
    declarators_declare_their_names();
}

/// One list of tokens has one tree as a source.
pub fn sources_have_one_tree()
    ensures { SourcesHaveOneTree }
{
    expression_laws();
    declarators_declare_their_names();
}

/// One text has one tree as a source.
pub fn texts_have_one_tree()
    ensures { TextsHaveOneTree }
{
    texts_have_one_answer();
    sources_have_one_tree();
}

/// A refusal stands behind one number of items, and no source has the tokens.
pub fn refusals_are_certain()
    ensures { RefusalsAreCertain }
{
    expression_laws();
    declarators_declare_their_names();
}
