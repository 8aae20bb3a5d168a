//! A file, with what spells it.
ghost use Rattle.std.specs.Prelude.{◌≡◌, ◌≤◌, ◌<◌, ◌-◌, ◌^◌, ◌⊎◌, drop, length, IfOk};
ghost use Rattle.own_decl.specs.Parsed.{IsTooDeep};
ghost use Rattle.own_expr.specs.Blocks.{OnSyntax, OnDepth, Answers};
ghost use Rattle.own_grammar.specs.Declarations.{Spells, levels_file, nest_file};
ghost use Rattle.own_grammar.specs.PartialFile.{PFile, Part, levels_pf, nest_pf};
ghost use Rattle.own_tree.specs.Source.{File};
ghost use Rattle.own_tree.specs.View.{tree_view};

use crate::file::file_of;
use own_expr::tokens::ReadError;
use own_grammar::limits::MOST_PATTERN_LEVELS;
use own_tree::limits::MOST_NESTING;
use own_tree::tree::Tree;
use own_tree::{ParseError, Token};
use std::alloc::Global;

/// The number of the token where so many of `count` tokens are left. They are never more than all.
fn place(count: usize, left: usize) -> u32
    requires { count < 2 ^ 32 }
    ensures { result ≡ count - left }
{
    count.saturating_sub(left) as u32
}

/// The tree that the tokens of a whole text spell: declarations, and at the end `main()`.
///
/// `Syntax` names a token, or the number of tokens, where no tree spells the tokens. `Depth` names a
/// token before which the tokens stand in a 101st level, of nodes or of patterns: the first token of the
/// block, statement, expression or pattern that has no level left, or the token after the operator that
/// left none to what stands before it.
pub fn parse(alloc: Global, tokens: &[Token]) -> Result<Tree, ParseError>
    requires few { length tokens.now < 2 ^ 32 }

    // What is read is spelled by all tokens, and is within the limits.
    ensures found { IfOk result (λ tree. Spells (tree_view tree) tokens.now) }
    ensures fits { IfOk result (λ tree. nest_file (tree_view tree) ≤ MOST_NESTING) }
    ensures patterns { IfOk result (λ tree. levels_file (tree_view tree) ≤ MOST_PATTERN_LEVELS) }
    // No other tree spells the tokens.
    ensures one { IfOk result (λ tree. (f : File) → Spells f tokens.now → f ≡ tree_view tree) }
    // What the tokens spell and is within the limits is read, unless memory runs out.
    ensures only { (f : File) → Spells f tokens.now → nest_file f ≤ MOST_NESTING → levels_file f ≤ MOST_PATTERN_LEVELS → Answers result (λ tree. tree_view tree ≡ f) }

    // No tree spells the tokens.
    ensures syntax { OnSyntax result (λ _. (f : File) → Spells f tokens.now → ⊥) }
    ensures place { OnSyntax result (λ token. token ≤ length tokens.now) }
    // The tokens before the one named stand in a level too deep.
    ensures deep { OnDepth result (λ token. (p : PFile) × Part p tokens.now (drop token tokens.now) × ((MOST_NESTING < nest_pf p) ⊎ (MOST_PATTERN_LEVELS < levels_pf p))) }
    ensures deep_place { OnDepth result (λ token. token ≤ length tokens.now) }
    // A tree that is too deep is always answered so, unless memory runs out.
    ensures too_deep { (f : File) → Spells f tokens.now → MOST_NESTING < nest_file f → IsTooDeep result }
    ensures too_deep_patterns { (f : File) → Spells f tokens.now → MOST_PATTERN_LEVELS < levels_file f → IsTooDeep result }
{
    match file_of(alloc, tokens) {
        Ok(tree) => Ok(tree),
        Err(ReadError::Memory) => Err(ParseError::Memory),
        Err(ReadError::Syntax(left)) => {
            let token = place(tokens.len(), left);
            Err(ParseError::Syntax { token })
        }
        Err(ReadError::Depth(left)) => {
            let token = place(tokens.len(), left);
            Err(ParseError::Depth { token })
        }
    }
}
