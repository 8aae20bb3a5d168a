//! Statements. A statement is read one level below `depth`, and its parts one level further down.

ghost use Rattle.std.specs.Prelude.{◌≡◌, ◌≤◌, ◌<◌, ◌+◌, length, IfOk};
ghost use Rattle.own_tree.specs.View.{expr_view, stmt_view, block_view};
ghost use Rattle.own_grammar.specs.Nesting.{nest, nest_stm, nest_blk};
ghost use Rattle.own_grammar.specs.Reading as spec;
ghost use Rattle.own_expr.specs.Gives.{Gives};
ghost use Rattle.own_expr.specs.Reads.{reader};

use super::Read;
use super::blocks::body_goal;
use super::clauses::clauses_goal;
use super::expressions::{expression_goal, expression_of};
use crate::fault::{ReadError, without};
use crate::lines::{assigns, is_bare};
use crate::makers::{else_if, if_else, if_then};
use crate::next::{after, binder_at, here, is_mark, is_word, keyword_at, till};
use crate::nodes::{bound, expr_span, into_path, written_end};
use crate::operators::{assign_at, range_at};
use crate::paths::{discard_of, typed_of};
use own_grammar::Context;
use own_tree::limits::MOST_NESTING;
use own_tree::tree::{AssignOperator, Block, Expr, Keyword, Name, RangeOperator, Stmt};
use own_tree::{Mark, Token, Word};
use std::alloc::Global;

/// After the name and the type of a `let` or `var`, whose tokens begin at `from`.
#[cycle(parse)]
#[tactic(auto, unfolding(own_grammar::specs::Reading::bound_with))]
fn bound_of<'a>(
    alloc: Global,
    rest: &'a [Token],
    from: &[Token],
    keyword: Keyword,
    name: Option<Name>,
    written: Option<Name>,
    depth: u32,
) -> Read<'a, Stmt>
    requires limit { depth < MOST_NESTING }
    ensures gives { Gives (λ x. (stmt_view x.0, x.2.now)) result (spec.bound_with reader depth from.now keyword name written rest.now) }
    ensures height { IfOk result (λ x. x.1 ≡ nest_stm (stmt_view x.0)) }
    ensures fits { IfOk result (λ x. depth + x.1 ≤ MOST_NESTING) }
    ensures shorter { IfOk result (λ x. length x.2.now ≤ length rest.now) }
{
    if !assigns(rest) {
        let span = till(here(from), written_end(here(after(from)), &written));
        return Ok((Stmt::Declare(span, keyword, name, written), 1, rest));
    }
    let (e, height, more) = expression_goal(alloc, after(rest), Context::Plain, depth + 1)?;
    let span = till(here(from), expr_span(&e));
    Ok((bound(span, keyword, name, written, e), height + 1, more))
}

#[cycle(parse)]
#[tactic(auto, unfolding(own_grammar::specs::Reading::let_with))]
fn let_of(alloc: Global, rest: &[Token], keyword: Keyword, depth: u32) -> Read<'_, Stmt>
    requires limit { depth < MOST_NESTING }
    requires some { 0 < length rest.now }
    ensures gives { Gives (λ x. (stmt_view x.0, x.2.now)) result (spec.let_with reader depth rest.now keyword) }
    ensures height { IfOk result (λ x. x.1 ≡ nest_stm (stmt_view x.0)) }
    ensures fits { IfOk result (λ x. depth + x.1 ≤ MOST_NESTING) }
    ensures shorter { IfOk result (λ x. length x.2.now < length rest.now) }
{
    let more = after(rest);
    if let Some(name) = binder_at(alloc, more)? {
        let (written, last) = typed_of(alloc, after(more))?;
        return bound_of(alloc, last, rest, keyword, name, written, depth);
    }
    Err(ReadError::Syntax(more.len()))
}

/// `_ = e`
#[cycle(parse)]
#[tactic(auto, unfolding(own_grammar::specs::Reading::ignore_with))]
fn ignore_of(alloc: Global, rest: &[Token], depth: u32) -> Read<'_, Stmt>
    requires limit { depth < MOST_NESTING }
    requires some { 0 < length rest.now }
    ensures gives { Gives (λ x. (stmt_view x.0, x.2.now)) result (spec.ignore_with reader depth rest.now) }
    ensures height { IfOk result (λ x. x.1 ≡ nest_stm (stmt_view x.0)) }
    ensures fits { IfOk result (λ x. depth + x.1 ≤ MOST_NESTING) }
    ensures shorter { IfOk result (λ x. length x.2.now < length rest.now) }
{
    let more = after(rest);
    if !is_mark(Mark::Assign, more) {
        return Err(ReadError::Syntax(more.len()));
    }
    let (e, height, last) = expression_goal(alloc, after(more), Context::Plain, depth + 1)?;
    let span = till(here(rest), expr_span(&e));
    Ok((Stmt::Ignore(span, None, e), height + 1, last))
}

/// After the block of an `if`, whose tokens begin at `from`.
#[cycle(parse)]
#[tactic(auto, unfolding(own_grammar::specs::Reading::else_with))]
fn else_of<'a>(
    alloc: Global,
    rest: &'a [Token],
    from: &[Token],
    condition: Expr,
    height: u32,
    block: Block,
    block_height: u32,
    depth: u32,
) -> Read<'a, Stmt>
    requires limit { depth < MOST_NESTING }
    requires condition { height ≡ nest (expr_view condition) }
    requires condition_fits { depth + height < MOST_NESTING }
    requires block { block_height ≡ nest_blk (block_view block) }
    requires block_fits { depth + block_height < MOST_NESTING }
    ensures gives { Gives (λ x. (stmt_view x.0, x.2.now)) result (spec.else_with reader depth from.now (expr_view condition) (block_view block) rest.now) }
    ensures height { IfOk result (λ x. x.1 ≡ nest_stm (stmt_view x.0)) }
    ensures fits { IfOk result (λ x. depth + x.1 ≤ MOST_NESTING) }
    ensures shorter { IfOk result (λ x. length x.2.now ≤ length rest.now) }
{
    if !is_word(Word::Else, rest) {
        let statement = if_then(here(from), condition, block);
        return Ok((statement, height.max(block_height) + 1, rest));
    }
    let more = after(rest);
    if is_word(Word::If, more) {
        let (other, other_height, last) = match statement_goal(alloc, more, depth + 1) {
            Ok(other) => other,
            Err(fault) => return Err(without(condition, fault)),
        };
        let statement = else_if(alloc, here(from), condition, block, other)?;
        return Ok((
            statement,
            height.max(block_height.max(other_height)) + 1,
            last,
        ));
    }
    let (other, other_height, last) = match body_goal(alloc, more, depth + 1) {
        Ok(other) => other,
        Err(fault) => return Err(without(condition, fault)),
    };
    let statement = if_else(here(from), condition, block, other);
    Ok((
        statement,
        height.max(block_height.max(other_height)) + 1,
        last,
    ))
}

#[cycle(parse)]
#[tactic(auto, unfolding(own_grammar::specs::Reading::if_with))]
fn if_of(alloc: Global, rest: &[Token], depth: u32) -> Read<'_, Stmt>
    requires limit { depth < MOST_NESTING }
    requires some { 0 < length rest.now }
    ensures gives { Gives (λ x. (stmt_view x.0, x.2.now)) result (spec.if_with reader depth rest.now) }
    ensures height { IfOk result (λ x. x.1 ≡ nest_stm (stmt_view x.0)) }
    ensures fits { IfOk result (λ x. depth + x.1 ≤ MOST_NESTING) }
    ensures shorter { IfOk result (λ x. length x.2.now < length rest.now) }
{
    let (condition, height, more) = expression_goal(
        alloc,
        after(rest),
        Context::Condition,
        depth + 1,
    )?;
    let (block, block_height, last) = match body_goal(alloc, more, depth + 1) {
        Ok(block) => block,
        Err(fault) => return Err(without(condition, fault)),
    };
    else_of(
        alloc,
        last,
        rest,
        condition,
        height,
        block,
        block_height,
        depth,
    )
}

#[cycle(parse)]
#[tactic(auto, unfolding(own_grammar::specs::Reading::while_with))]
fn while_of(alloc: Global, rest: &[Token], depth: u32) -> Read<'_, Stmt>
    requires limit { depth < MOST_NESTING }
    requires some { 0 < length rest.now }
    ensures gives { Gives (λ x. (stmt_view x.0, x.2.now)) result (spec.while_with reader depth rest.now) }
    ensures height { IfOk result (λ x. x.1 ≡ nest_stm (stmt_view x.0)) }
    ensures fits { IfOk result (λ x. depth + x.1 ≤ MOST_NESTING) }
    ensures shorter { IfOk result (λ x. length x.2.now < length rest.now) }
{
    let (condition, height, more) = expression_goal(
        alloc,
        after(rest),
        Context::Condition,
        depth + 1,
    )?;
    let (block, block_height, last) = match body_goal(alloc, more, depth + 1) {
        Ok(block) => block,
        Err(fault) => return Err(without(condition, fault)),
    };
    let span = till(here(rest), block.span);
    Ok((
        Stmt::While(span, condition, block),
        height.max(block_height) + 1,
        last,
    ))
}

#[cycle(parse)]
#[tactic(auto, unfolding(own_grammar::specs::Reading::repeat_with))]
fn repeat_of(alloc: Global, rest: &[Token], depth: u32) -> Read<'_, Stmt>
    requires limit { depth < MOST_NESTING }
    requires some { 0 < length rest.now }
    ensures gives { Gives (λ x. (stmt_view x.0, x.2.now)) result (spec.repeat_with reader depth rest.now) }
    ensures height { IfOk result (λ x. x.1 ≡ nest_stm (stmt_view x.0)) }
    ensures fits { IfOk result (λ x. depth + x.1 ≤ MOST_NESTING) }
    ensures shorter { IfOk result (λ x. length x.2.now < length rest.now) }
{
    let (block, block_height, more) = body_goal(alloc, after(rest), depth + 1)?;
    if !is_word(Word::While, more) {
        return Err(ReadError::Syntax(more.len()));
    }
    let (condition, height, last) = expression_goal(
        alloc,
        after(more),
        Context::Condition,
        depth + 1,
    )?;
    let span = till(here(rest), expr_span(&condition));
    Ok((
        Stmt::Repeat(span, block, condition),
        block_height.max(height) + 1,
        last,
    ))
}

/// At the operator of a `for`, whose tokens begin at `from`.
#[cycle(parse)]
#[tactic(auto, unfolding(own_grammar::specs::Reading::upper_with))]
fn upper_of<'a>(
    alloc: Global,
    rest: &'a [Token],
    from: &[Token],
    name: Option<Name>,
    low: Expr,
    height: u32,
    operator: RangeOperator,
    depth: u32,
) -> Read<'a, Stmt>
    requires limit { depth < MOST_NESTING }
    requires low { height ≡ nest (expr_view low) }
    requires low_fits { depth + height < MOST_NESTING }
    requires some { 0 < length rest.now }
    ensures gives { Gives (λ x. (stmt_view x.0, x.2.now)) result (spec.upper_with reader depth from.now name (expr_view low) operator rest.now) }
    ensures height { IfOk result (λ x. x.1 ≡ nest_stm (stmt_view x.0)) }
    ensures fits { IfOk result (λ x. depth + x.1 ≤ MOST_NESTING) }
    ensures shorter { IfOk result (λ x. length x.2.now ≤ length rest.now) }
{
    let (high, high_height, more) = match expression_goal(
        alloc,
        after(rest),
        Context::Condition,
        depth + 1,
    ) {
        Ok(high) => high,
        Err(fault) => return Err(without(low, fault)),
    };
    let (block, block_height, last) = match body_goal(alloc, more, depth + 1) {
        Ok(block) => block,
        Err(fault) => return Err(without(low, without(high, fault))),
    };
    let span = till(here(from), block.span);
    let statement = Stmt::For(span, name, low, operator, here(rest), high, block);
    Ok((
        statement,
        height.max(high_height.max(block_height)) + 1,
        last,
    ))
}

/// After the `in` of a `for`, whose tokens begin at `from`.
#[cycle(parse)]
#[tactic(auto, unfolding(own_grammar::specs::Reading::lower_with))]
fn lower_of<'a>(
    alloc: Global,
    rest: &'a [Token],
    from: &[Token],
    name: Option<Name>,
    depth: u32,
) -> Read<'a, Stmt>
    requires limit { depth < MOST_NESTING }
    ensures gives { Gives (λ x. (stmt_view x.0, x.2.now)) result (spec.lower_with reader depth from.now name rest.now) }
    ensures height { IfOk result (λ x. x.1 ≡ nest_stm (stmt_view x.0)) }
    ensures fits { IfOk result (λ x. depth + x.1 ≤ MOST_NESTING) }
    ensures shorter { IfOk result (λ x. length x.2.now ≤ length rest.now) }
{
    let (low, height, more) = expression_goal(alloc, rest, Context::Condition, depth + 1)?;
    if let Some(operator) = range_at(more) {
        return upper_of(alloc, more, from, name, low, height, operator, depth);
    }
    Err(without(low, ReadError::Syntax(more.len())))
}

#[cycle(parse)]
#[tactic(auto, unfolding(own_grammar::specs::Reading::for_with))]
fn for_of(alloc: Global, rest: &[Token], depth: u32) -> Read<'_, Stmt>
    requires limit { depth < MOST_NESTING }
    requires some { 0 < length rest.now }
    ensures gives { Gives (λ x. (stmt_view x.0, x.2.now)) result (spec.for_with reader depth rest.now) }
    ensures height { IfOk result (λ x. x.1 ≡ nest_stm (stmt_view x.0)) }
    ensures fits { IfOk result (λ x. depth + x.1 ≤ MOST_NESTING) }
    ensures shorter { IfOk result (λ x. length x.2.now < length rest.now) }
{
    let more = after(rest);
    if let Some(name) = binder_at(alloc, more)? {
        let last = after(more);
        if !is_word(Word::In, last) {
            return Err(ReadError::Syntax(last.len()));
        }
        return lower_of(alloc, after(last), rest, name, depth);
    }
    Err(ReadError::Syntax(more.len()))
}

#[cycle(parse)]
#[tactic(auto, unfolding(own_grammar::specs::Reading::switch_with))]
fn switch_of(alloc: Global, rest: &[Token], depth: u32) -> Read<'_, Stmt>
    requires limit { depth < MOST_NESTING }
    requires some { 0 < length rest.now }
    ensures gives { Gives (λ x. (stmt_view x.0, x.2.now)) result (spec.switch_with reader depth rest.now) }
    ensures height { IfOk result (λ x. x.1 ≡ nest_stm (stmt_view x.0)) }
    ensures fits { IfOk result (λ x. depth + x.1 ≤ MOST_NESTING) }
    ensures shorter { IfOk result (λ x. length x.2.now < length rest.now) }
{
    let (subject, height, more) = expression_goal(
        alloc,
        after(rest),
        Context::Condition,
        depth + 1,
    )?;
    if !is_mark(Mark::OpenBrace, more) {
        return Err(without(subject, ReadError::Syntax(more.len())));
    }
    let (clauses, clauses_height, last) = match clauses_goal(alloc, after(more), depth + 1) {
        Ok(clauses) => clauses,
        Err(fault) => return Err(without(subject, fault)),
    };
    let span = till(here(rest), here(last));
    Ok((
        Stmt::Switch(span, subject, clauses),
        height.max(clauses_height) + 1,
        after(last),
    ))
}

#[cycle(parse)]
#[tactic(auto, unfolding(own_grammar::specs::Reading::return_with))]
fn return_of(alloc: Global, rest: &[Token], depth: u32) -> Read<'_, Stmt>
    requires limit { depth < MOST_NESTING }
    requires some { 0 < length rest.now }
    ensures gives { Gives (λ x. (stmt_view x.0, x.2.now)) result (spec.return_with reader depth rest.now) }
    ensures height { IfOk result (λ x. x.1 ≡ nest_stm (stmt_view x.0)) }
    ensures fits { IfOk result (λ x. depth + x.1 ≤ MOST_NESTING) }
    ensures shorter { IfOk result (λ x. length x.2.now < length rest.now) }
{
    let more = after(rest);
    if is_bare(more) {
        return Ok((Stmt::Return(here(rest)), 1, more));
    }
    let (e, height, last) = expression_goal(alloc, more, Context::Plain, depth + 1)?;
    let span = till(here(rest), expr_span(&e));
    Ok((Stmt::ReturnValue(span, e), height + 1, last))
}

/// At the operator of an assignment, after what stands left of it.
#[cycle(parse)]
#[tactic(auto, unfolding(own_grammar::specs::Reading::assign_with))]
fn assign_of(
    alloc: Global,
    rest: &[Token],
    left: Expr,
    height: u32,
    operator: AssignOperator,
    depth: u32,
) -> Read<'_, Stmt>
    requires limit { depth < MOST_NESTING }
    requires left { height ≡ nest (expr_view left) }
    requires left_fits { depth + height < MOST_NESTING }
    requires some { 0 < length rest.now }
    ensures gives { Gives (λ x. (stmt_view x.0, x.2.now)) result (spec.assign_with reader depth (expr_view left) rest.now operator) }
    ensures height { IfOk result (λ x. x.1 ≡ nest_stm (stmt_view x.0)) }
    ensures fits { IfOk result (λ x. depth + x.1 ≤ MOST_NESTING) }
    ensures shorter { IfOk result (λ x. length x.2.now ≤ length rest.now) }
{
    match into_path(left) {
        Ok(path) => {
            let (e, e_height, more) = expression_goal(
                alloc,
                after(rest),
                Context::Plain,
                depth + 1,
            )?;
            let span = till(path.span, expr_span(&e));
            let statement = Stmt::Assign(span, path, operator, here(rest), e);
            Ok((statement, e_height.max(1) + 1, more))
        }
        Err(other) => Ok((Stmt::Evaluate(other), height + 1, rest)),
    }
}

/// A statement that begins with an expression.
#[cycle(parse)]
#[tactic(auto, unfolding(own_grammar::specs::Reading::evaluate_with))]
fn evaluate_of(alloc: Global, rest: &[Token], depth: u32) -> Read<'_, Stmt>
    requires limit { depth < MOST_NESTING }
    ensures gives { Gives (λ x. (stmt_view x.0, x.2.now)) result (spec.evaluate_with MOST_NESTING reader depth rest.now) }
    ensures height { IfOk result (λ x. x.1 ≡ nest_stm (stmt_view x.0)) }
    ensures fits { IfOk result (λ x. depth + x.1 ≤ MOST_NESTING) }
    ensures shorter { IfOk result (λ x. length x.2.now < length rest.now) }
{
    let (e, height, more) = expression_of(alloc, rest, Context::Plain, depth + 1)?;
    if let Some(operator) = assign_at(more) {
        return assign_of(alloc, more, e, height, operator, depth);
    }
    Ok((Stmt::Evaluate(e), height + 1, more))
}

/// The statements of one word, `_ = e`, and those that begin with an expression.
#[cycle(parse)]
#[tactic(auto, unfolding(own_grammar::specs::Reading::simple_with))]
fn simple_of(alloc: Global, rest: &[Token], depth: u32) -> Read<'_, Stmt>
    requires limit { depth < MOST_NESTING }
    ensures gives { Gives (λ x. (stmt_view x.0, x.2.now)) result (spec.simple_with MOST_NESTING reader depth rest.now) }
    ensures height { IfOk result (λ x. x.1 ≡ nest_stm (stmt_view x.0)) }
    ensures fits { IfOk result (λ x. depth + x.1 ≤ MOST_NESTING) }
    ensures shorter { IfOk result (λ x. length x.2.now < length rest.now) }
{
    if is_mark(Mark::Underscore, rest) {
        return ignore_of(alloc, rest, depth);
    }
    if is_word(Word::Discard, rest) {
        return discard_of(rest, depth);
    }
    if is_word(Word::Break, rest) {
        return Ok((Stmt::Break(here(rest)), 1, after(rest)));
    }
    if is_word(Word::Continue, rest) {
        return Ok((Stmt::Continue(here(rest)), 1, after(rest)));
    }
    if is_word(Word::Return, rest) {
        return return_of(alloc, rest, depth);
    }
    evaluate_of(alloc, rest, depth)
}

#[cycle(parse)]
#[tactic(auto, unfolding(own_grammar::specs::Reading::statement_with))]
pub fn statement_of(alloc: Global, rest: &[Token], depth: u32) -> Read<'_, Stmt>
    requires limit { depth ≤ MOST_NESTING }
    ensures gives { Gives (λ x. (stmt_view x.0, x.2.now)) result (spec.statement_with MOST_NESTING reader depth rest.now) }
    ensures height { IfOk result (λ x. x.1 ≡ nest_stm (stmt_view x.0)) }
    ensures fits { IfOk result (λ x. depth + x.1 ≤ MOST_NESTING) }
    ensures shorter { IfOk result (λ x. length x.2.now < length rest.now) }
{
    if depth >= MOST_NESTING {
        return Err(ReadError::Depth(rest.len()));
    }
    if let Some(keyword) = keyword_at(rest) {
        return let_of(alloc, rest, keyword, depth);
    }
    if is_word(Word::If, rest) {
        return if_of(alloc, rest, depth);
    }
    if is_word(Word::While, rest) {
        return while_of(alloc, rest, depth);
    }
    if is_word(Word::Repeat, rest) {
        return repeat_of(alloc, rest, depth);
    }
    if is_word(Word::For, rest) {
        return for_of(alloc, rest, depth);
    }
    if is_word(Word::Switch, rest) {
        return switch_of(alloc, rest, depth);
    }
    simple_of(alloc, rest, depth)
}

#[cycle(parse)]
fn statement_goal(alloc: Global, rest: &[Token], depth: u32) -> Read<'_, Stmt>
    requires limit { depth ≤ MOST_NESTING }
    ensures gives { Gives (λ x. (stmt_view x.0, x.2.now)) result (reader spec.Goal.statement depth rest.now) }
    ensures height { IfOk result (λ x. x.1 ≡ nest_stm (stmt_view x.0)) }
    ensures fits { IfOk result (λ x. depth + x.1 ≤ MOST_NESTING) }
    ensures shorter { IfOk result (λ x. length x.2.now < length rest.now) }
{
    statement_of(alloc, rest, depth)
}
