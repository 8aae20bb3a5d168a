ghost use Rattle.std.specs.Prelude.{◌≡◌, ◌≤◌, IfOk};
ghost use Rattle.wasm_form.specs.Steps.{machine_run};
ghost use Rattle.wasm_form.specs.Within.{IsWithin};
ghost use Rattle.wasm_run.specs.Runs.{RanAs};

use crate::state::start::code_of_main;
use crate::state::{State, Went};
use own_io::Sink;
use std::alloc::{AllocError, Global};
use std::marker::Model;
use wasm_form::Module;
use wasm_form::traps::STUCK;

/// How a run of at most so many steps went.
#[derive(Clone, Copy, Debug, PartialEq, Eq)]
pub enum Ran {
    /// The frame of main was left in the last of so many steps.
    Ended { steps: u64 },
    /// A trap, with its code and its offset: that of the source, or 0 where the machine itself trapped
    /// (`wasm_form::traps`).
    Trapped { code: u32, at: u32 },
    /// All steps were made without an end.
    Running,
    /// The sink failed, and the run stopped there.
    SinkFault,
}

/// A machine before its first step, with a module and an input.
#[derive(Drop)]
pub struct Machine<'m> {
    module: &'m Module,
    input: &'m [i64],
    state: State<'m>,
}

impl<'m> Model for Machine<'m> {
    ghost use Rattle.wasm_run.specs.Start.{Start};

    ghost Value = { Start };

    ghost use Rattle.wasm_form.specs.contracts.instr.Instr as instr;
    ghost use Rattle.std.specs.Coded.{codes};

    ghost coded = { Prim.hlevel (codes, instr.the_row.coded) };

    ghost use Rattle.wasm_run.specs.Begins.{start_of, IsReady};

    ghost view = { start_of };

    ghost invariant = { IsReady };
}

impl<'m> Machine<'m> {
    /// A machine before its first step. It takes all the memory of a run, some 170 megabytes, of which the
    /// operating system gives what is touched: frames, locals and operands for all limits.
    pub fn start(
        alloc: Global,
        module: &'m Module,
        input: &'m [i64],
    ) -> Result<Machine<'m>, AllocError>
        requires { IsWithin «module».now }
        ensures { IfOk result (λ machine. machine ≡ record { program = «module».now; input = input.now }) }
    {
        let main = code_of_main(module).unwrap();
        let state = State::start(alloc, module, main, input)?;
        Ok(Machine {
            module,
            input,
            state,
        })
    }

    /// Makes at most `n` steps, and takes no memory. `SinkFault` comes only where the sink failed, and then
    /// the sink has got a prefix of the output.
    pub fn run<K: Sink>(self, n: u64, sink: &mut K) -> Ran
        ensures count { K.faults sink.old ≤ K.faults sink.new }
        ensures ran { RanAs result (K.written sink.old) (K.written sink.new) (K.faults sink.old) (K.faults sink.new) (machine_run self.entry.program self.entry.input n) }
    {
        let Machine {
            module,
            input: _,
            mut state,
        } = self;
        for done in 0..n {
            match state.step(module) {
                Went::On => {}
                Went::Wrote(written) => match state.write(written, sink) {
                    Ok(()) => {}
                    Err(_) => return Ran::SinkFault,
                },
                Went::Ended => return Ran::Ended { steps: done + 1 },
                Went::Trapped(code, at) => return Ran::Trapped { code, at },
                Went::Stuck => return Ran::Trapped { code: STUCK, at: 0 },
            }
        }
        Ran::Running
    }
}
