ghost use Rattle.std.specs.Prelude.{◌≡◌, ◌++◌, ◌∷◌, [], ◌+◌, ◌*◌, ◌<◌, ◌≤◌, ◌^◌, OnOk, IfOk};
ghost use Rattle.core_form.specs.CoreSource.{copy};
ghost use Rattle.core_form.specs.CoreView.{at_view};
ghost use Rattle.core_form.specs.Sizes.{FormFits, PlaceFits};
ghost use Rattle.low_arith.specs.Code.{checked_code};
ghost use Rattle.low_laws.specs.Lower.{access, byte_code, compare_code, copy_body, copy_code, displacement, long_copy, moves_code, place_code, short_copy, wrap_code};
ghost use Rattle.core_form.specs.declared.limits.TheConstants.{AREA, FRAMES, MOST_DISPLACEMENT};
ghost use Rattle.low_laws.specs.declared.places.TheConstants.{MOST_PLAIN_WORDS};

use core_form::CoreAt;
use core_form::limits::{FRAME, FRAMES};
use low_arith::checked;
use low_arith::places::TRAP;
use low_laws::places::{FROM, LEFT, MOST_PLAIN_WORDS, TO};
use own_tree::arithmetic::Arith;
use own_tree::typed::Comparison;
use sqlite_items::Items;
use std::alloc::{AllocError, Global};
use wasm_form::{Instr, MemArg};

/// An access so many words after an address.
pub(crate) fn access(words: u32) -> MemArg
    requires { words < 2 ^ 29 }
    ensures { result ≡ access words }
{
    MemArg {
        align: 3,
        offset: 8 * words,
    }
}

/// How many words after the byte from which a place is counted it lies.
pub(crate) fn displacement(at: &CoreAt) -> u32
    requires { PlaceFits (at_view at.now) }
    ensures value { result ≡ displacement (at_view at.now) }
    ensures within { result ≤ FRAMES + MOST_DISPLACEMENT }
{
    match at {
        CoreAt::Mine(offset) => *offset,
        CoreAt::Next(offset) => FRAME + *offset,
        CoreAt::Common(offset) => FRAMES + *offset,
        CoreAt::Far(_, words) => *words,
    }
}

/// Adds the code of the byte from which a place is counted.
pub(crate) fn push_place(code: &mut Vec<Instr>, at: &CoreAt) -> Result<(), AllocError>
    requires { PlaceFits (at_view at.now) }
    ensures { OnOk result (code.new.items ≡ code.old.items ++ place_code (at_view at.now)) }
{
    match at {
        CoreAt::Mine(_) => code.push(Instr::LocalGet(0))?,
        CoreAt::Next(_) => code.push(Instr::LocalGet(0))?,
        CoreAt::Common(_) => code.push(Instr::I32Const(0))?,
        CoreAt::Far(pointer, _) => {
            push_place(code, pointer.get())?;
            code.push(Instr::I64Load(access(displacement(pointer.get()))))?;
            code.push(Instr::I32WrapI64)?;
        }
    }
    Ok(())
}

/// Adds the code of the first byte of a place, as an address.
pub(crate) fn push_byte(code: &mut Vec<Instr>, at: &CoreAt) -> Result<(), AllocError>
    requires { PlaceFits (at_view at.now) }
    ensures { OnOk result (code.new.items ≡ code.old.items ++ byte_code (at_view at.now)) }
{
    push_place(code, at)?;
    code.push(Instr::I32Const(8 * displacement(at)))?;
    code.push(Instr::I32Add)?;
    Ok(())
}

/// Adds the code of an address as a word.
pub(crate) fn push_address(code: &mut Vec<Instr>, at: &CoreAt) -> Result<(), AllocError>
    requires { PlaceFits (at_view at.now) }
    ensures { OnOk result (code.new.items ≡ code.old.items
        ++ (place_code (at_view at.now)
        ++ Instr.I64ExtendI32U ∷ Instr.I64Const (8 * displacement (at_view at.now)) ∷ Instr.I64Add ∷ [])) }
{
    push_place(code, at)?;
    code.push(Instr::I64ExtendI32U)?;
    code.push(Instr::I64Const(u64::from(8 * displacement(at))))?;
    code.push(Instr::I64Add)?;
    Ok(())
}

/// Adds the code of the first byte of the next frame, as an address.
pub(crate) fn push_next_frame(code: &mut Vec<Instr>) -> Result<(), AllocError>
    ensures { OnOk result (code.new.items
        ≡ code.old.items ++ Instr.LocalGet 0 ∷ Instr.I32Const (8 * FRAME) ∷ Instr.I32Add ∷ []) }
{
    code.push(Instr::LocalGet(0))?;
    code.push(Instr::I32Const(8 * FRAME))?;
    code.push(Instr::I32Add)?;
    Ok(())
}

/// Adds the code of an operation on the operands on the stack.
pub(crate) fn push_checked(
    alloc: Global,
    code: &mut Vec<Instr>,
    op: Arith,
    at: u32,
) -> Result<(), AllocError>
    ensures { OnOk result (code.new.items ≡ code.old.items ++ checked_code op at) }
{
    let mut operation = checked(alloc, op, at)?.into_vec();
    code.append(&mut operation)
}

/// Adds the code of a trap.
pub(crate) fn push_trap(code: &mut Vec<Instr>, number: u32, at: u32) -> Result<(), AllocError>
    ensures { OnOk result (code.new.items
        ≡ code.old.items ++ Instr.I32Const number ∷ Instr.I32Const at ∷ Instr.Call TRAP ∷ []) }
{
    code.push(Instr::I32Const(number))?;
    code.push(Instr::I32Const(at))?;
    code.push(Instr::Call(TRAP))?;
    Ok(())
}

/// What the loop of a copy does in each turn: it moves a word and raises both bytes.
fn copy_body(alloc: Global) -> Result<Vec<Instr>, AllocError>
    ensures { IfOk result (λ code. code.items ≡ copy_body) }
{
    let code = vec![in alloc;
        Instr::LocalGet(TO),
        Instr::LocalGet(FROM),
        Instr::I64Load(access(0)),
        Instr::I64Store(access(0)),
        Instr::LocalGet(FROM),
        Instr::I32Const(8),
        Instr::I32Add,
        Instr::LocalSet(FROM),
        Instr::LocalGet(TO),
        Instr::I32Const(8),
        Instr::I32Add,
        Instr::LocalSet(TO),
        Instr::LocalGet(LEFT),
        Instr::I32Const(1),
        Instr::I32Sub,
        Instr::LocalTee(LEFT),
        Instr::BrIf(0),
    ]?;
    Ok(code)
}

/// Adds the code that moves so many words, one after another.
fn push_moves(code: &mut Vec<Instr>, count: u32, from: u32, to: u32) -> Result<(), AllocError>
    requires count { count ≤ MOST_PLAIN_WORDS }
    requires from { from ≤ FRAMES + MOST_DISPLACEMENT }
    requires to { to ≤ FRAMES + MOST_DISPLACEMENT }
    ensures { OnOk result (code.new.items ≡ code.old.items ++ moves_code count from to) }
{
    for word in 0..count {
        code.push(Instr::LocalGet(TO))?;
        code.push(Instr::LocalGet(FROM))?;
        code.push(Instr::I64Load(access(from + word)))?;
        code.push(Instr::I64Store(access(to + word)))?;
    }
    Ok(())
}

/// Adds the code of a copy of few words, which has no loop.
fn push_short_copy(
    code: &mut Vec<Instr>,
    more: u32,
    from: &CoreAt,
    to: &CoreAt,
) -> Result<(), AllocError>
    requires few { more < MOST_PLAIN_WORDS }
    requires from { PlaceFits (at_view from.now) }
    requires to { PlaceFits (at_view to.now) }
    ensures { OnOk result (code.new.items ≡ code.old.items ++ short_copy more (at_view from.now) (at_view to.now)) }
{
    push_place(code, from)?;
    push_place(code, to)?;
    code.push(Instr::LocalSet(TO))?;
    code.push(Instr::LocalSet(FROM))?;
    push_moves(code, more + 1, displacement(from), displacement(to))
}

/// Adds the code of a copy of many words, which is a loop.
fn push_long_copy(
    alloc: Global,
    code: &mut Vec<Instr>,
    more: u32,
    from: &CoreAt,
    to: &CoreAt,
) -> Result<(), AllocError>
    requires more { more ≤ AREA }
    requires from { PlaceFits (at_view from.now) }
    requires to { PlaceFits (at_view to.now) }
    ensures { OnOk result (code.new.items ≡ code.old.items ++ long_copy more (at_view from.now) (at_view to.now)) }
{
    push_byte(code, from)?;
    push_byte(code, to)?;
    code.push(Instr::LocalSet(TO))?;
    code.push(Instr::LocalSet(FROM))?;
    code.push(Instr::I32Const(more + 1))?;
    code.push(Instr::LocalSet(LEFT))?;
    code.push(Instr::Loop(None, Items::from_vec(copy_body(alloc)?)))?;
    Ok(())
}

/// Adds the code of a copy of one word and so many more.
pub(crate) fn push_copy(
    alloc: Global,
    code: &mut Vec<Instr>,
    more: u32,
    from: &CoreAt,
    to: &CoreAt,
) -> Result<(), AllocError>
    requires { FormFits (copy more (at_view from.now) (at_view to.now)) }
    ensures { OnOk result (code.new.items ≡ code.old.items ++ copy_code more (at_view from.now) (at_view to.now)) }
{
    if more < MOST_PLAIN_WORDS {
        push_short_copy(code, more, from, to)
    } else {
        push_long_copy(alloc, code, more, from, to)
    }
}

/// The instruction of a comparison.
pub(crate) fn compare_code(op: Comparison) -> Instr
    ensures { result ≡ compare_code op }
{
    match op {
        Comparison::Equal => Instr::I64Eq,
        Comparison::Unequal => Instr::I64Ne,
        Comparison::Less => Instr::I64LtS,
        Comparison::LessEqual => Instr::I64LeS,
        Comparison::Greater => Instr::I64GtS,
        Comparison::GreaterEqual => Instr::I64GeS,
    }
}

/// The instruction of a sum, a difference or a product in two's complement. The others are never reached.
pub(crate) fn wrap_code(op: Arith) -> Instr
    ensures { result ≡ wrap_code op }
{
    match op {
        Arith::Add => Instr::I64Add,
        Arith::Sub => Instr::I64Sub,
        Arith::Mul => Instr::I64Mul,
        Arith::Div => Instr::Unreachable,
        Arith::Rem => Instr::Unreachable,
        Arith::Neg => Instr::Unreachable,
    }
}
