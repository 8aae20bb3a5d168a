ghost use Rattle.std.specs.Prelude.{◌≡◌, ◌++◌, ◌∷◌, [], IfOk};
ghost use Rattle.low_arith.specs.Checked.{IsChecked};
ghost use Rattle.low_arith.specs.Code.{trap_if, sum_code, difference_code, product_tests, product_code, division_tests, negation_code, checked_code};

use crate::places::{FIRST, SECOND, TRAP};
use own_tree::{Arith, Row};
use own_ways::traps::{OVERFLOW, ZERO_DIVISOR};
use sqlite_items::{Boxed, Items};
use std::alloc::{AllocError, Global};
use wasm_form::Instr;

/// The bits of the least `Int`.
const LEAST: u64 = 1 << 63;

/// The bits of -1.
const MINUS_ONE: u64 = u64::MAX;

/// An if that traps with this code at this offset where the number on the stack is not 0.
fn trap_if(alloc: Global, code: u32, at: u32) -> Result<Instr, AllocError>
    ensures { IfOk result (λ instr. instr ≡ trap_if code at) }
{
    let trap = vec![in alloc;
        Instr::I32Const(code),
        Instr::I32Const(at),
        Instr::Call(TRAP),
    ]?;
    let trap = Boxed::new(alloc, Items::from_vec(trap))?;
    let go_on = Boxed::new(alloc, Items::new(alloc))?;
    Ok(Instr::If(None, trap, go_on))
}

/// An addition.
fn sum_code(alloc: Global, at: u32) -> Result<Vec<Instr>, AllocError>
    ensures { IfOk result (λ code. code.items ≡ sum_code at) }
{
    let code = vec![in alloc;
        Instr::LocalSet(SECOND),
        Instr::LocalTee(FIRST),
        Instr::LocalGet(SECOND),
        Instr::I64Add,
        Instr::LocalGet(FIRST),
        Instr::I64LtS,
        Instr::LocalGet(SECOND),
        Instr::I64Const(0),
        Instr::I64LtS,
        Instr::I32Ne,
        trap_if(alloc, OVERFLOW, at)?,
        Instr::LocalGet(FIRST),
        Instr::LocalGet(SECOND),
        Instr::I64Add,
    ]?;
    Ok(code)
}

/// A subtraction.
fn difference_code(alloc: Global, at: u32) -> Result<Vec<Instr>, AllocError>
    ensures { IfOk result (λ code. code.items ≡ difference_code at) }
{
    let code = vec![in alloc;
        Instr::LocalSet(SECOND),
        Instr::LocalTee(FIRST),
        Instr::LocalGet(SECOND),
        Instr::I64Sub,
        Instr::LocalGet(FIRST),
        Instr::I64GtS,
        Instr::LocalGet(SECOND),
        Instr::I64Const(0),
        Instr::I64LtS,
        Instr::I32Ne,
        trap_if(alloc, OVERFLOW, at)?,
        Instr::LocalGet(FIRST),
        Instr::LocalGet(SECOND),
        Instr::I64Sub,
    ]?;
    Ok(code)
}

/// The tests of a multiplication whose first operand is not 0.
fn product_tests(alloc: Global, at: u32) -> Result<Vec<Instr>, AllocError>
    ensures { IfOk result (λ code. code.items ≡ product_tests at) }
{
    let code = vec![in alloc;
        Instr::LocalGet(FIRST),
        Instr::I64Const(MINUS_ONE),
        Instr::I64Eq,
        Instr::LocalGet(SECOND),
        Instr::I64Const(LEAST),
        Instr::I64Eq,
        Instr::I32And,
        trap_if(alloc, OVERFLOW, at)?,
        Instr::LocalGet(FIRST),
        Instr::LocalGet(SECOND),
        Instr::I64Mul,
        Instr::LocalGet(FIRST),
        Instr::I64DivS,
        Instr::LocalGet(SECOND),
        Instr::I64Ne,
        trap_if(alloc, OVERFLOW, at)?,
    ]?;
    Ok(code)
}

/// A multiplication.
fn product_code(alloc: Global, at: u32) -> Result<Vec<Instr>, AllocError>
    ensures { IfOk result (λ code. code.items ≡ product_code at) }
{
    let is_zero = Boxed::new(alloc, Items::new(alloc))?;
    let tests = Boxed::new(alloc, Items::from_vec(product_tests(alloc, at)?))?;
    let code = vec![in alloc;
        Instr::LocalSet(SECOND),
        Instr::LocalTee(FIRST),
        Instr::I64Eqz,
        Instr::If(None, is_zero, tests),
        Instr::LocalGet(FIRST),
        Instr::LocalGet(SECOND),
        Instr::I64Mul,
    ]?;
    Ok(code)
}

/// The tests of a division, after which its operands are on the stack again.
fn division_tests(alloc: Global, at: u32) -> Result<Vec<Instr>, AllocError>
    ensures { IfOk result (λ code. code.items ≡ division_tests at) }
{
    let code = vec![in alloc;
        Instr::LocalTee(SECOND),
        Instr::I64Eqz,
        trap_if(alloc, ZERO_DIVISOR, at)?,
        Instr::LocalTee(FIRST),
        Instr::I64Const(LEAST),
        Instr::I64Eq,
        Instr::LocalGet(SECOND),
        Instr::I64Const(MINUS_ONE),
        Instr::I64Eq,
        Instr::I32And,
        trap_if(alloc, OVERFLOW, at)?,
        Instr::LocalGet(FIRST),
        Instr::LocalGet(SECOND),
    ]?;
    Ok(code)
}

/// A negation.
fn negation_code(alloc: Global, at: u32) -> Result<Vec<Instr>, AllocError>
    ensures { IfOk result (λ code. code.items ≡ negation_code at) }
{
    let code = vec![in alloc;
        Instr::LocalTee(FIRST),
        Instr::I64Const(LEAST),
        Instr::I64Eq,
        trap_if(alloc, OVERFLOW, at)?,
        Instr::I64Const(0),
        Instr::LocalGet(FIRST),
        Instr::I64Sub,
    ]?;
    Ok(code)
}

/// A division or its remainder, which is the last instruction.
fn division_code(alloc: Global, last: Instr, at: u32) -> Result<Vec<Instr>, AllocError>
    ensures { IfOk result (λ code. code.items ≡ division_tests at ++ last ∷ []) }
{
    let mut code = division_tests(alloc, at)?;
    code.push(last)?;
    Ok(code)
}

#[tactic(auto, unfolding(crate::specs::Code::checked_code))]
fn code_of(alloc: Global, op: Arith, at: u32) -> Result<Vec<Instr>, AllocError>
    ensures { IfOk result (λ code. code.items ≡ checked_code op at) }
{
    match op {
        Arith::Add => sum_code(alloc, at),
        Arith::Sub => difference_code(alloc, at),
        Arith::Mul => product_code(alloc, at),
        Arith::Div => division_code(alloc, Instr::I64DivS, at),
        Arith::Rem => division_code(alloc, Instr::I64RemS, at),
        Arith::Neg => negation_code(alloc, at),
    }
}

/// The instructions of an operation on `Int` whose operator stands at the offset `at` of the source, in bytes
/// from 0. They take its operands off the stack, and put the exact result there, or trap: with the code
/// `OVERFLOW` where the result is no `Int`, also for the remainder of the least `Int` by -1, and with
/// `ZERO_DIVISOR` where a divisor is 0. They use the locals `FIRST` and `SECOND` and the import `TRAP`.
#[tactic(auto, using(crate::proofs::Operations::all_checked))]
pub fn checked(alloc: Global, op: Arith, at: u32) -> Result<Row<Instr>, AllocError>
    ensures code { IfOk result (λ code. code ≡ checked_code op at) }
    ensures exact { IfOk result (λ code. IsChecked op at code) }
{
    Ok(Row::from_vec(code_of(alloc, op, at)?))
}
