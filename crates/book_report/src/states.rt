// States as they are printed.
ghost use Rattle.std.specs.Prelude.{◌≡◌, ℕ, Bool, ◌++◌, Some, IfOk, OnOk};
ghost use Rattle.book_report.specs.Reach.{Computes, state_words, states_line, states_that, words_or_none};

use printing::Page;
use std::alloc::{AllocError, Global};
use std::fmt;
use std::fmt::Display;

// The states below the width that pass a test.
pub(crate) fn states_that<F: Fn(u16) -> bool + Drop>(
    heap: Global,
    width: u16,
    test: F,
) -> Result<Vec<u16>, AllocError>
    requires { F.IsAlwaysCallable test }
    ensures { (passes : ℕ → Bool) → Computes (F.post test) passes → IfOk result (λ v. v.items ≡ states_that passes width) }
{
    (0..width).filter(|state| test(*state)).collect(heap)
}

// A label and the states below the width that pass a test, or that there is none.
pub(crate) fn add_states<F: Fn(u16) -> bool + Drop>(
    page: &mut Page,
    label: &str,
    width: u16,
    test: F,
) -> Result<(), AllocError>
    requires { F.IsAlwaysCallable test }
    ensures { (passes : ℕ → Bool) → Computes (F.post test) passes → OnOk result (page.new ≡ page.old ++ states_line label.now passes width) }
{
    let states = states_that(page.heap(), width, test)?;
    let states = OrNone(states.as_slice());
    writeln!(page, "{label}{states}")
}

// Each behind a space.
#[derive(Clone, Copy)]
pub(crate) struct States<'a>(pub(crate) &'a [u16]);

// The same, or the word none.
#[derive(Clone, Copy)]
struct OrNone<'a>(&'a [u16]);

impl Display for States<'_> {
    ghost output = { λ s. Some (state_words s.0.now) };

    fn fmt<W: fmt::Write>(&self, f: &mut fmt::Formatter<W>) -> fmt::Result {
        for state in self.0 {
            write!(f, " {state}")?;
        }
        Ok(())
    }
}

impl Display for OrNone<'_> {
    ghost output = { λ s. Some (words_or_none s.0.now) };

    #[tactic(auto, using(crate::proofs::Printed::words_of_some))]
    fn fmt<W: fmt::Write>(&self, f: &mut fmt::Formatter<W>) -> fmt::Result {
        if self.0.is_empty() {
            write!(f, " none")
        } else {
            write!(f, "{}", States(self.0))
        }
    }
}
