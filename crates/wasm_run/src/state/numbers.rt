ghost use Rattle.std.specs.Prelude.{◌≡◌};
ghost use Rattle.std.specs.Int.{w32, w64};
ghost use Rattle.wasm_form.specs.Integers.{idiv_s, idiv_u, irem_s, irem_u, ishr_s};
ghost use Rattle.wasm_form.specs.Steps.{act_test32, act_test64, act_arithmetic32, act_arithmetic64};
ghost use Rattle.wasm_form.specs.declared.instr.Instr.{out-Instr};
ghost use Rattle.wasm_run.specs.Views.{ShowsIf};

use crate::state::{State, Went, truth_value};
use wasm_form::traps::{DIVISION_BY_ZERO, DIVISION_OVERFLOW};
use wasm_form::{Instr, Value};

/// Takes two numbers and gives what is made of them.
macro_rules! of_two {
    ($state:expr, $take:ident, ($first:ident, $second:ident) => $value:expr) => {
        match $state.$take() {
            Some(($first, $second)) => $state.give($value),
            None => Went::Stuck,
        }
    };
}

/// Takes a number and gives what is made of it.
macro_rules! of_one {
    ($state:expr, $take:ident, $number:ident => $value:expr) => {
        match $state.$take() {
            Some($number) => $state.give($value),
            None => Went::Stuck,
        }
    };
}

/// Takes two numbers and gives their quotient, or traps.
macro_rules! of_division {
    ($state:expr, $take:ident, $divide:ident, $value:path) => {
        match $state.$take() {
            Some((first, second)) => match $divide(first, second) {
                Ok(number) => $state.give($value(number)),
                Err(code) => Went::Trapped(code, 0),
            },
            None => Went::Stuck,
        }
    };
}

#[tactic(auto, unfolding(wasm_form::specs::Integers::idiv_s))]
fn divide_s32(first: u32, second: u32) -> Result<u32, u32>
    ensures { result ≡ idiv_s w32 first second }
{
    if second == 0 {
        return Err(DIVISION_BY_ZERO);
    }
    if first == 0x8000_0000 && second == 0xffff_ffff {
        return Err(DIVISION_OVERFLOW);
    }
    Ok((first.cast_signed() / second.cast_signed()).cast_unsigned())
}

#[tactic(auto, unfolding(wasm_form::specs::Integers::idiv_s))]
fn divide_s64(first: u64, second: u64) -> Result<u64, u32>
    ensures { result ≡ idiv_s w64 first second }
{
    if second == 0 {
        return Err(DIVISION_BY_ZERO);
    }
    if first == 0x8000_0000_0000_0000 && second == 0xffff_ffff_ffff_ffff {
        return Err(DIVISION_OVERFLOW);
    }
    Ok((first.cast_signed() / second.cast_signed()).cast_unsigned())
}

#[tactic(auto, unfolding(wasm_form::specs::Integers::idiv_u))]
fn divide_u32(first: u32, second: u32) -> Result<u32, u32>
    ensures { result ≡ idiv_u first second }
{
    if second == 0 {
        return Err(DIVISION_BY_ZERO);
    }
    Ok(first / second)
}

#[tactic(auto, unfolding(wasm_form::specs::Integers::idiv_u))]
fn divide_u64(first: u64, second: u64) -> Result<u64, u32>
    ensures { result ≡ idiv_u first second }
{
    if second == 0 {
        return Err(DIVISION_BY_ZERO);
    }
    Ok(first / second)
}

#[tactic(auto, unfolding(wasm_form::specs::Integers::irem_s))]
fn remainder_s32(first: u32, second: u32) -> Result<u32, u32>
    ensures { result ≡ irem_s w32 first second }
{
    if second == 0 {
        return Err(DIVISION_BY_ZERO);
    }
    Ok(
        first
            .cast_signed()
            .wrapping_rem(second.cast_signed())
            .cast_unsigned(),
    )
}

#[tactic(auto, unfolding(wasm_form::specs::Integers::irem_s))]
fn remainder_s64(first: u64, second: u64) -> Result<u64, u32>
    ensures { result ≡ irem_s w64 first second }
{
    if second == 0 {
        return Err(DIVISION_BY_ZERO);
    }
    Ok(
        first
            .cast_signed()
            .wrapping_rem(second.cast_signed())
            .cast_unsigned(),
    )
}

#[tactic(auto, unfolding(wasm_form::specs::Integers::irem_u))]
fn remainder_u32(first: u32, second: u32) -> Result<u32, u32>
    ensures { result ≡ irem_u first second }
{
    if second == 0 {
        return Err(DIVISION_BY_ZERO);
    }
    Ok(first % second)
}

#[tactic(auto, unfolding(wasm_form::specs::Integers::irem_u))]
fn remainder_u64(first: u64, second: u64) -> Result<u64, u32>
    ensures { result ≡ irem_u first second }
{
    if second == 0 {
        return Err(DIVISION_BY_ZERO);
    }
    Ok(first % second)
}

fn shift_s32(first: u32, second: u32) -> u32
    ensures { result ≡ ishr_s w32 first second }
{
    (first.cast_signed() >> (second % 32)).cast_unsigned()
}

fn shift_s64(first: u64, second: u64) -> u64
    ensures { result ≡ ishr_s w64 first second }
{
    (first.cast_signed() >> (second % 64)).cast_unsigned()
}

impl<'m> State<'m> {
    pub(crate) fn act_test32(&mut self, instr: &Instr) -> Option<Went>
        ensures { ShowsIf result self.old self.new (act_test32 (out-Instr instr.now) self.old) }
    {
        Some(match instr {
            Instr::I32Eqz => of_one!(self, pop32, a => truth_value(a == 0)),
            Instr::I32Eq => of_two!(self, two32, (a, b) => truth_value(a == b)),
            Instr::I32Ne => of_two!(self, two32, (a, b) => truth_value(a != b)),
            Instr::I32LtS =>
                of_two!(self, two32, (a, b) => truth_value(a.cast_signed() < b.cast_signed())),
            Instr::I32LtU => of_two!(self, two32, (a, b) => truth_value(a < b)),
            Instr::I32GtS =>
                of_two!(self, two32, (a, b) => truth_value(a.cast_signed() > b.cast_signed())),
            Instr::I32GtU => of_two!(self, two32, (a, b) => truth_value(a > b)),
            Instr::I32LeS =>
                of_two!(self, two32, (a, b) => truth_value(a.cast_signed() <= b.cast_signed())),
            Instr::I32LeU => of_two!(self, two32, (a, b) => truth_value(a <= b)),
            Instr::I32GeS =>
                of_two!(self, two32, (a, b) => truth_value(a.cast_signed() >= b.cast_signed())),
            Instr::I32GeU => of_two!(self, two32, (a, b) => truth_value(a >= b)),
            _ => return None,
        })
    }

    pub(crate) fn act_test64(&mut self, instr: &Instr) -> Option<Went>
        ensures { ShowsIf result self.old self.new (act_test64 (out-Instr instr.now) self.old) }
    {
        Some(match instr {
            Instr::I64Eqz => of_one!(self, pop64, a => truth_value(a == 0)),
            Instr::I64Eq => of_two!(self, two64, (a, b) => truth_value(a == b)),
            Instr::I64Ne => of_two!(self, two64, (a, b) => truth_value(a != b)),
            Instr::I64LtS =>
                of_two!(self, two64, (a, b) => truth_value(a.cast_signed() < b.cast_signed())),
            Instr::I64LtU => of_two!(self, two64, (a, b) => truth_value(a < b)),
            Instr::I64GtS =>
                of_two!(self, two64, (a, b) => truth_value(a.cast_signed() > b.cast_signed())),
            Instr::I64GtU => of_two!(self, two64, (a, b) => truth_value(a > b)),
            Instr::I64LeS =>
                of_two!(self, two64, (a, b) => truth_value(a.cast_signed() <= b.cast_signed())),
            Instr::I64LeU => of_two!(self, two64, (a, b) => truth_value(a <= b)),
            Instr::I64GeS =>
                of_two!(self, two64, (a, b) => truth_value(a.cast_signed() >= b.cast_signed())),
            Instr::I64GeU => of_two!(self, two64, (a, b) => truth_value(a >= b)),
            _ => return None,
        })
    }

    pub(crate) fn act_arithmetic32(&mut self, instr: &Instr) -> Option<Went>
        ensures { ShowsIf result self.old self.new (act_arithmetic32 (out-Instr instr.now) self.old) }
    {
        Some(match instr {
            Instr::I32Clz => of_one!(self, pop32, a => Value::I32(a.leading_zeros())),
            Instr::I32Ctz => of_one!(self, pop32, a => Value::I32(a.trailing_zeros())),
            Instr::I32Popcnt => of_one!(self, pop32, a => Value::I32(a.count_ones())),
            Instr::I32Add => of_two!(self, two32, (a, b) => Value::I32(a.wrapping_add(b))),
            Instr::I32Sub => of_two!(self, two32, (a, b) => Value::I32(a.wrapping_sub(b))),
            Instr::I32Mul => of_two!(self, two32, (a, b) => Value::I32(a.wrapping_mul(b))),
            Instr::I32DivS => of_division!(self, two32, divide_s32, Value::I32),
            Instr::I32DivU => of_division!(self, two32, divide_u32, Value::I32),
            Instr::I32RemS => of_division!(self, two32, remainder_s32, Value::I32),
            Instr::I32RemU => of_division!(self, two32, remainder_u32, Value::I32),
            Instr::I32And => of_two!(self, two32, (a, b) => Value::I32(a & b)),
            Instr::I32Or => of_two!(self, two32, (a, b) => Value::I32(a | b)),
            Instr::I32Xor => of_two!(self, two32, (a, b) => Value::I32(a ^ b)),
            Instr::I32Shl => of_two!(self, two32, (a, b) => Value::I32(a << (b % 32))),
            Instr::I32ShrS => of_two!(self, two32, (a, b) => Value::I32(shift_s32(a, b))),
            Instr::I32ShrU => of_two!(self, two32, (a, b) => Value::I32(a >> (b % 32))),
            Instr::I32Rotl => of_two!(self, two32, (a, b) => Value::I32(a.rotate_left(b % 32))),
            Instr::I32Rotr => of_two!(self, two32, (a, b) => Value::I32(a.rotate_right(b % 32))),
            Instr::I32WrapI64 => of_one!(self, pop64, a => Value::I32((a % 4_294_967_296) as u32)),
            _ => return None,
        })
    }

    pub(crate) fn act_arithmetic64(&mut self, instr: &Instr) -> Option<Went>
        ensures { ShowsIf result self.old self.new (act_arithmetic64 (out-Instr instr.now) self.old) }
    {
        Some(match instr {
            Instr::I64Clz => of_one!(self, pop64, a => Value::I64(a.leading_zeros() as u64)),
            Instr::I64Ctz => of_one!(self, pop64, a => Value::I64(a.trailing_zeros() as u64)),
            Instr::I64Popcnt => of_one!(self, pop64, a => Value::I64(a.count_ones() as u64)),
            Instr::I64Add => of_two!(self, two64, (a, b) => Value::I64(a.wrapping_add(b))),
            Instr::I64Sub => of_two!(self, two64, (a, b) => Value::I64(a.wrapping_sub(b))),
            Instr::I64Mul => of_two!(self, two64, (a, b) => Value::I64(a.wrapping_mul(b))),
            Instr::I64DivS => of_division!(self, two64, divide_s64, Value::I64),
            Instr::I64DivU => of_division!(self, two64, divide_u64, Value::I64),
            Instr::I64RemS => of_division!(self, two64, remainder_s64, Value::I64),
            Instr::I64RemU => of_division!(self, two64, remainder_u64, Value::I64),
            Instr::I64And => of_two!(self, two64, (a, b) => Value::I64(a & b)),
            Instr::I64Or => of_two!(self, two64, (a, b) => Value::I64(a | b)),
            Instr::I64Xor => of_two!(self, two64, (a, b) => Value::I64(a ^ b)),
            Instr::I64Shl => of_two!(self, two64, (a, b) => Value::I64(a << (b % 64))),
            Instr::I64ShrS => of_two!(self, two64, (a, b) => Value::I64(shift_s64(a, b))),
            Instr::I64ShrU => of_two!(self, two64, (a, b) => Value::I64(a >> (b % 64))),
            Instr::I64Rotl =>
                of_two!(self, two64, (a, b) => Value::I64(a.rotate_left((b % 64) as u32))),
            Instr::I64Rotr =>
                of_two!(self, two64, (a, b) => Value::I64(a.rotate_right((b % 64) as u32))),
            Instr::I64ExtendI32S =>
                of_one!(self, pop32, a => Value::I64((a.cast_signed() as i64).cast_unsigned())),
            Instr::I64ExtendI32U => of_one!(self, pop32, a => Value::I64(a as u64)),
            _ => return None,
        })
    }
}
