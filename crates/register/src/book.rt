// Registers over any model, each with its stage in its type.
ghost use Rattle.std.specs.Prelude.{◌≡◌, ◌<◌, Bool, true, false};
ghost use Rattle.std.specs.Fn.{FnOnceReturnsAtMut};
ghost use Rattle.runs.specs.Counts.{Counted};
ghost use Rattle.sheets.specs.Counting.{one_passed};

use process::Model;
use refusal::Refusal;
use sheets::{Bracket, Sheet};
use std::marker::PhantomData;

mod opening;
mod settling;
mod taking;

mod sealed {
    // No other crate can name this trait, so none makes a stage of its own.
    pub trait Sealed {}
}

// How far a register has come: open or settled.
pub trait Stage: sealed::Sealed {
    // whether its delay was accepted
    ghost settled: { Bool };
}

// The stage of a register that waits for its delay.
pub struct Open;

impl sealed::Sealed for Open {}

impl Stage for Open {
    ghost settled = { false };
}

// The stage of a register whose delay was accepted.
pub struct Settled;

impl sealed::Sealed for Settled {}

impl Stage for Settled {
    ghost settled = { true };
}

// The best bounds on a model, and how many vectors were taken and passed.
pub struct Register<M: Model, S: Stage> {
    model: M,
    sheet: Sheet,
    stage: PhantomData<S>,
    ghost counted: { Counted sheet },
}

impl<M: Model, S: Stage> Register<M, S> {
    // one of the vectors taken has passed, and the bracket meets its bound
    fn pass<F: FnOnce(&mut Bracket)>(&mut self, meet: F)
        requires callable { F.IsAlwaysCallable meet }
        requires taken { self.old.sheet.passed < self.old.sheet.taken }
        ensures met { FnOnceReturnsAtMut F.FnOnce meet self.old.sheet.bracket tt self.new.sheet.bracket }
        ensures sheet { self.new.sheet ≡ one_passed self.new.sheet.bracket self.old.sheet }
        ensures model { self.new.model ≡ self.old.model }
    {
        self.sheet.passed += 1;
        meet(&mut self.sheet.bracket);
    }
}

// A register whose delay was refused, and why.
pub struct Unsettled<M: Model> {
    pub register: Register<M, Open>,
    pub refusal: Refusal,
}
