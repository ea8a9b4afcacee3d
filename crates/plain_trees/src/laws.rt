//! Laws of what a source spells.

ghost use Rattle.std.specs.Prelude.{List, ℕ};
ghost use Rattle.cash_base.specs.Number.{IsBytes};
ghost use Rattle.cash_parser.specs.Files.{Tree as Spelled, SpellsFile};
ghost use Rattle.cash_symbols.specs.Lexemes.{lexemes};
ghost use Rattle.cash_tree.specs.declared.Token.{Token as CashToken};
ghost use Rattle.plain_trees.specs.Accepted.{AcceptedRunsFindNumbers};
ghost use Rattle.type_soundness.specs.Literals.{IsPlain};

use type_soundness::{contracts_stay_plain, types_are_sound};

/// A tree that the tokens of a source spell is plain: a literal holds bytes, and no word names an array or a pair.
pub fn spelled_trees_are_plain()
    ensures { (source : List ℕ) (tokens : List CashToken) (tree : Spelled) → IsBytes source
        → SpellsFile (lexemes source tokens) tree → IsPlain tree }
{}

/// No run of a function of a source that is parsed, named and typed fails since an operand is no number, in a world, on as many
/// elements as parameters, each a value of its parameter's type.
pub fn accepted_runs_find_numbers()
    ensures { AcceptedRunsFindNumbers }
{
    types_are_sound();
    contracts_stay_plain();
}
