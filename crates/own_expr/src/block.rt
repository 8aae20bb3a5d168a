//! Blocks, with what spells them.

ghost use Rattle.std.specs.Prelude.{◌≡◌, ◌≤◌, ◌<◌, ◌+◌, ◌-◌, ◌^◌, ◌⊎◌, Err, drop, length, IfOk};
ghost use Rattle.own_expr.specs.Blocks.{OnSyntax, OnDepth, Answers};
ghost use Rattle.own_grammar.specs.Levels.{levels_blk, levels_pb};
ghost use Rattle.own_grammar.specs.Nesting.{nest_blk};
ghost use Rattle.own_grammar.specs.Partial.{PBlk, PartB, nest_pb};
ghost use Rattle.own_grammar.specs.Spells.{SpellsB};
ghost use Rattle.own_grammar.specs.Tests.{Toks};
ghost use Rattle.own_tree.specs.Source.{Blk};
ghost use Rattle.own_tree.specs.View.{block_view};
ghost use Rattle.own_tree.specs.declared.error.ParseError.TheVariants as parse_error;

use crate::fault::ReadError;
use crate::read::body_goal;
use own_grammar::limits::MOST_PATTERN_LEVELS;
use own_tree::limits::MOST_NESTING;
use own_tree::tree::Block;
use own_tree::{ParseError, Token};
use std::alloc::Global;

/// A block, and the number of the first token after it.
#[derive(Drop)]
pub struct BlockAt {
    pub block: Block,
    pub next: u32,
}

/// The tokens from the one numbered `from` on.
fn tokens_from(tokens: &[Token], from: u32) -> &[Token]
    requires { from ≤ length tokens.now }
    ensures { result.now ≡ drop from tokens.now }
{
    &tokens[from as usize..]
}

/// The number of the token where so many of `count` tokens are left. They are never more than all.
fn place(count: usize, left: usize) -> u32
    requires { count < 2 ^ 32 }
    ensures { result ≡ count - left }
{
    count.saturating_sub(left) as u32
}

/// The block that begins at the token numbered `from`, where `depth` nodes stand above it.
///
/// `Syntax` names a token, or the number of tokens, where no block stands at `from`. `Depth` names a
/// token before which the tokens stand in a 101st level, of nodes or of patterns: `from` itself where
/// `depth` leaves no level to the block.
pub fn parse_block(
    alloc: Global,
    tokens: &[Token],
    from: u32,
    depth: u32,
) -> Result<BlockAt, ParseError>
    requires few { length tokens.now < 2 ^ 32 }
    requires start { from ≤ length tokens.now }

    // What is read is spelled by the tokens up to `next`, and is within the limits.
    ensures found { IfOk result (λ at. SpellsB (block_view at.block) (drop from tokens.now) (drop at.next tokens.now)) }
    ensures fits { IfOk result (λ at. depth + nest_blk (block_view at.block) ≤ MOST_NESTING) }
    ensures patterns { IfOk result (λ at. levels_blk (block_view at.block) ≤ MOST_PATTERN_LEVELS) }
    ensures next { IfOk result (λ at. (from < at.next) × (at.next ≤ length tokens.now)) }
    // Nothing else is spelled there, with the same end or another.
    ensures one { IfOk result (λ at. (b : Blk) (to : Toks) → SpellsB b (drop from tokens.now) to → (b ≡ block_view at.block) × (to ≡ drop at.next tokens.now)) }
    // What is spelled there and is within the limits is read, unless memory runs out.
    ensures only { (b : Blk) (to : Toks) → SpellsB b (drop from tokens.now) to → depth + nest_blk b ≤ MOST_NESTING → levels_blk b ≤ MOST_PATTERN_LEVELS → Answers result (λ at. block_view at.block ≡ b) }

    // Nothing is spelled there.
    ensures syntax { OnSyntax result (λ _. (b : Blk) (to : Toks) → SpellsB b (drop from tokens.now) to → ⊥) }
    ensures place { OnSyntax result (λ token. token ≤ length tokens.now) }
    // The tokens before the one named stand in a level too deep.
    ensures deep { OnDepth result (λ token. (p : PBlk) × PartB p (drop from tokens.now) (drop token tokens.now) × ((MOST_NESTING < depth + nest_pb p) ⊎ (MOST_PATTERN_LEVELS < levels_pb p))) }
    ensures deep_place { OnDepth result (λ token. (from ≤ token) × (token ≤ length tokens.now)) }
    // No level is left to the block, whatever stands there.
    ensures full { MOST_NESTING ≤ depth → result ≡ Err (parse_error.Depth from) }
{
    if depth >= MOST_NESTING {
        return Err(ParseError::Depth { token: from });
    }
    let rest = tokens_from(tokens, from);
    match body_goal(alloc, rest, depth) {
        Ok((block, _, more)) => {
            let next = place(tokens.len(), more.len());
            Ok(BlockAt { block, next })
        }
        Err(ReadError::Memory) => Err(ParseError::Memory),
        Err(ReadError::Syntax(left)) => {
            let token = place(tokens.len(), left);
            Err(ParseError::Syntax { token })
        }
        Err(ReadError::Depth(left)) => {
            let token = place(tokens.len(), left);
            Err(ParseError::Depth { token })
        }
    }
}
