//! Laws on trees, and on the spans of tokens and of a tree.

ghost use Rattle.std.specs.Prelude.{◌≡◌, ◌⊎◌, ℕ, List, ◌∷◌, ◌++◌, [], length, Ok, None};
ghost use Rattle.std.specs.List.{AllByRecursion};
ghost use Rattle.cash_base.specs.declared.place.Span.{Span as Place};
ghost use Rattle.cash_base.specs.Source.{IsInside, AreInside};
ghost use Rattle.cash_tree.specs.declared.Token.{Token as CashToken};
ghost use Rattle.cash_tree.specs.declared.BinaryOp.{BinaryOp as Operator};
ghost use Rattle.cash_tree.specs.declared.ExprKind.TheVariants.{Binary, Name};
ghost use Rattle.cash_tree.specs.declared.StmtKind.TheVariants.{Require};
ghost use Rattle.cash_tree.specs.Nodes.{AreSmall, tree_values};
ghost use Rattle.cash_tree.specs.Spans.{itself, expression_spans, statement_spans, tree_spans};
ghost use Rattle.cash_parser.specs.Names.{NamesHave, IsTextAt};
ghost use Rattle.cash_lexer.specs.Laws.{HasWordText};
ghost use Rattle.cash_lexer.specs.Tokens.{lexed};
ghost use Rattle.cash_symbols.specs.Lexemes.{Lexeme, lexemes};
ghost use Rattle.cash_symbols.specs.DepthRules.{first_too_deep};
ghost use Rattle.cash_expressions.specs.Grammar.{Expression};
ghost use Rattle.cash_statements.specs.Statements.{Statement};
ghost use Rattle.cash_parser.specs.Files.{Tree as Spelled, SpellsFile};
ghost use Rattle.cash_parser.specs.Answer.{IsNone};
ghost use Rattle.cash_parser.specs.Inside.{StandInOrder};

use cash_lexer::tokens_cut_the_source;

/// A list of tokens with their texts spells one tree or none.
pub fn one_tree()
    ensures one { (ts : List Lexeme) (a b : Spelled) → SpellsFile ts a → SpellsFile ts b → a ≡ b }
    ensures either { (ts : List Lexeme) → ((tree : Spelled) × SpellsFile ts tree) ⊎ IsNone ts }
{}

/// Where the text of each word among the tokens is UTF-8, as those of a source's tokens are, the texts of a tree's names
/// are: of the contract's, of those of its functions, and of all parameters.
pub fn names_have_texts()
    ensures { (source : List ℕ) (tokens : List CashToken) (tree : Spelled) → SpellsFile (lexemes source tokens) tree
        → AllByRecursion (HasWordText source) tokens → NamesHave (IsTextAt source) tree }
{}

/// What holds of each tree that tokens spell.
pub fn trees_hold()
    // Where no token is too deep, each expression has at most 1,000 nodes.
    ensures small { (ts : List Lexeme) (tree : Spelled) → SpellsFile ts tree → first_too_deep ts ≡ None
        → AreSmall (tree_values tree) }
    // Where the tokens stand in order in a source, all spans lie in it.
    ensures inside { (source : List ℕ) (tokens : List CashToken) (len : ℕ) (tree : Spelled)
        → SpellsFile (lexemes source tokens) tree → StandInOrder 0 tokens len → AreInside len (tree_spans itself tree) }
{}

/// The tokens of a source stand in order in it, as [`parse`](crate::parse) wants for the spans of its tree.
pub fn tokens_stand_in_order()
    ensures { (source : List ℕ) (tokens : List CashToken) → lexed source ≡ Ok tokens
        → StandInOrder 0 tokens (length source) }
{
    tokens_cut_the_source();
}

/// What takes the spans of a tree apart: those of joined lists, and of nodes, each with its own span first.
pub fn spans_come_apart()
    // Where two lists of spans lie inside a source, each of them does.
    ensures joined { (len : ℕ) (xs ys : List Place) → AreInside len (xs ++ ys) → AreInside len xs × AreInside len ys }
    // Where all spans of an expression or a statement lie inside a source, its own does.
    ensures expression { (len : ℕ) (e : Expression) → AreInside len (expression_spans itself e) → IsInside len e.span }
    ensures statement { (len : ℕ) (s : Statement) → AreInside len (statement_spans itself s) → IsInside len s.span }
    // All spans of a name, of an operator between two expressions, and of a `require`.
    ensures name { (e : Expression) (name : Place) → e.kind ≡ Name name → expression_spans itself e ≡ e.span ∷ name ∷ [] }
    ensures binary { (e left right : Expression) (op : Operator) → e.kind ≡ Binary op left right
        → expression_spans itself e ≡ e.span ∷ (expression_spans itself left ++ expression_spans itself right) }
    ensures require { (s : Statement) (value : Expression) → s.kind ≡ Require value
        → statement_spans itself s ≡ s.span ∷ expression_spans itself value }
{}
